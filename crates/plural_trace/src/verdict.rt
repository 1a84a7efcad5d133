/// Whether a log is legal.
#[derive(Clone, Copy, Debug, PartialEq, Eq)]
pub enum Verdict {
    /// No rule fails.
    Yes,
    /// The first rule that fails, from 1 to 7, and the least place at which it fails, from 0: the number of an entry,
    /// of a task or of a word.
    No { rule: u8, at: u32 },
}
