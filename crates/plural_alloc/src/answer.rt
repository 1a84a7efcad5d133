//! What a claim answers.

/// What became of a claim of an instance of a task.
#[derive(Clone, Copy, Debug, PartialEq, Eq)]
pub enum Claim {
    /// The seat holds the instance of this number, from 0.
    Got(u32),
    /// The task isn't armed.
    Unarmed,
    /// All instances of the task were handed out before.
    Handed,
    /// Another seat was faster: the exchange found the alloc word at `saw`, which is more than this call had loaded.
    Lost { saw: u32 },
}
