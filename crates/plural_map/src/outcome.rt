/// When an outcome of the task before satisfies a dependency.
#[derive(Clone, Copy, Debug, Default, PartialEq, Eq)]
pub enum When {
    /// It ended with either code, or was skipped.
    #[default]
    Any,
    /// It ended with code 0.
    Code0,
    /// It ended with code 1.
    Code1,
}

/// A dependency: the number of the task before, from 0, and when its outcome satisfies it.
#[derive(Clone, Copy, Debug, Default, PartialEq, Eq)]
pub struct Dep {
    pub task: u32,
    pub when: When,
}

/// What became of a task.
#[derive(Clone, Copy, Debug, PartialEq, Eq)]
pub enum Outcome {
    /// It ran, and 0 is the largest code of its instances.
    Ended0,
    /// It ran, and 1 is the largest code of its instances.
    Ended1,
    /// Its dependencies weren't satisfied, and no instance ran.
    Skipped,
    /// An instance trapped or was exhausted, or a task before it is failed.
    Failed,
}

/// What is to become of a task whose predecessors all have outcomes.
#[derive(Clone, Copy, Debug, PartialEq, Eq)]
pub enum Decision {
    /// All its instances run.
    Run,
    /// It is skipped.
    Skip,
    /// It is failed.
    Fail,
}
