use plural_core::End;

/// What one instance of the serial run did.
#[derive(Clone, Copy, Debug, PartialEq, Eq)]
pub struct Record {
    /// The number of its task, from 0.
    pub t: u32,
    /// Its number within the task, from 0.
    pub k: u32,
    pub end: End,
    /// The completed instructions.
    pub instructions: u32,
    /// The load accesses.
    pub loads: u32,
    /// The load accesses that missed the instance's cache, which is empty at its start.
    pub misses: u32,
    /// The stores.
    pub stores: u32,
}
