use plural_bytes::Name;
use plural_map::Outcome;

/// How an instance ended, as an entry's line tells it.
#[derive(Clone, Copy, Debug)]
pub enum EndShape {
    /// `code 0`
    Code0,
    /// `code 1`
    Code1,
    /// `trap X pc PPPPPPPP`
    Trap { cause: u64, pc: u32 },
    /// `spent`
    Spent,
}

/// `n I loads L misses M stores S`
#[derive(Clone, Copy, Debug)]
pub struct Counts {
    pub instructions: u64,
    pub loads: u64,
    pub misses: u64,
    pub stores: u64,
}

/// `core C from A to B`
#[derive(Clone, Copy, Debug)]
pub struct Times {
    pub core: u64,
    pub start: u64,
    pub end_at: u64,
}

/// A log line by its shape. A number above 4,294,967,295 is read as 4,294,967,296.
#[derive(Clone, Copy, Debug)]
pub enum LogLine {
    /// `log 1 cores N`
    First {
        cores: u64,
    },
    /// `task NAME ended 0`, `task NAME ended 1`, `task NAME skipped` and `task NAME failed`
    Task {
        name: Name,
        outcome: Outcome,
    },
    /// `run NAME K END n I loads L misses M stores S core C from A to B`
    Run {
        name: Name,
        k: u64,
        end: EndShape,
        counts: Counts,
        times: Times,
    },
}
