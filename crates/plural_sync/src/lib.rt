//! The synchroniser: what becomes of a run when an instance is done, without a barrier. The core that ended it settles
//! all that this makes due: the ends of its task, the tasks that stand on it, and what is decided and armed then.
//!
//! Promise: after `Synchroniser::deliver` the seat owes nothing. It has told each task that it closed, skipped or
//! failed to all that depend on it, and has armed each task that was decided to run (`specs/Deliveries.antt`).
//! Stands on `plural_words` (the shared words and their steps). Only `Synchroniser::open` takes memory, and nothing
//! waits.
#![tactic(auto)]

mod bits;
mod delivering;
mod lists;
mod pending;
mod synchroniser;

pub use synchroniser::Synchroniser;
