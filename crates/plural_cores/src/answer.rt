//! What a turn answers.

/// What a core did in a turn.
#[derive(Clone, Copy, Debug, PartialEq, Eq)]
pub enum CoreTurn {
    /// It claimed an instance, or advanced the one that it has by a stage.
    Worked,
    /// It has no instance and got none: each task was found unarmed or wholly handed out, or another core was faster.
    Nothing,
    /// It has no instance and got none, and each task that it knows as armed is wholly handed out.
    Left,
}
