use plural_serial::Record;

/// An entry of a log: what one instance did, and where and when it ran.
#[derive(Clone, Copy, Debug, PartialEq, Eq)]
pub struct Entry {
    /// What the instance did.
    pub rec: Record,
    /// The core that it ran on, from 0.
    pub core: u32,
    /// The ticket that was drawn before its first instruction.
    pub start: u32,
    /// The ticket that was drawn after its last instruction.
    pub end_at: u32,
}
