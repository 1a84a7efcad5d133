use plural_bytes::Name;
use plural_map::When;
use plural_regions::Mode;

/// The kind of a task line.
#[derive(Clone, Copy, Debug)]
pub enum TaskKind {
    /// `regular`: one instance.
    Regular,
    /// `dup Q`: Q instances.
    Dup { quota: u64 },
}

/// A map line by its shape. A number above 4,294,967,295 is read as 4,294,967,296, which is out of every range.
#[derive(Clone, Copy, Debug)]
pub enum MapLine {
    /// `memory W`
    Memory {
        words: u64,
    },
    /// `cache SETS WAYS`
    Cache {
        sets: u64,
        ways: u64,
    },
    /// `task NAME regular entry LABEL budget B` and `task NAME dup Q entry LABEL budget B`
    Task {
        name: Name,
        kind: TaskKind,
        entry: Name,
        budget: u64,
    },
    /// `after NAME any`, `after NAME 0` and `after NAME 1`
    After {
        name: Name,
        when: When,
    },
    /// `join some`
    Join,
    /// `read BASE STRIDE COUNT` and `write BASE STRIDE COUNT`
    Region {
        mode: Mode,
        base: u64,
        stride: u64,
        count: u64,
    },
}
