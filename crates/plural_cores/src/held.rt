//! What a core holds between two turns.
use crate::sweep::Instance;
use plural_core::End;

/// How far a core is with an instance. (A copy of what its seat knows.)
#[derive(Clone, Copy, Debug, PartialEq, Eq)]
pub enum Held {
    /// It holds none.
    Nothing,
    /// It has claimed this one, which hasn't begun.
    Claimed(Instance),
    /// This one is under way.
    Running(Instance),
    /// This one has ended so, and isn't done yet.
    Over(Instance, End),
}
