//! Duties of views.
use plural_map::Outcome;

/// What a view owes, or what it was told. Tasks and instances are numbers from 0. Contracts alone have such values: a
/// view owes a duty from the step that makes it due until the step that does it.
pub enum Duty {
    /// This instance of this task is done, and its end is to be flagged.
    Flag(u32, u32),
    /// This instance of this task is flagged, and is to be counted.
    Count(u32, u32),
    /// All instances of this task are counted: its outcome is to be found from its flags.
    Close(u32),
    /// The outcome of this task is to be told to its successors from this place on, by rising number; at that place
    /// the bits of the dependency are marked already, or not.
    Tell(u32, Outcome, u32, bool),
    /// All dependencies of this task are counted: it is to be decided from its state.
    Decide(u32),
    /// This task was decided to run, and is to be armed.
    Arm(u32),
    /// No duty any more: this task was told, with this outcome.
    Told(u32, Outcome),
}
