//! The cores of a machine: each claims instances of the tasks, runs them in its own cache and store buffer, and
//! settles what their ends make due, a turn at a time.
//!
//! Promise: each turn of a core says what it did, with its cause (`specs/Works.antt`), and lowers a measure unless the
//! core has left. A core leaves only if each task that it knows as armed is wholly handed out (`specs/Cores.antt`).
//! Stands on `plural_alloc` (claiming), `plural_stages` (one instance under way) and `plural_sync` (settling). Nothing
//! here starts a thread, and only `Core::open` takes memory.
#![tactic(auto)]

mod answer;
mod core_;
mod gate;
mod held;
mod sweep;
mod work;

pub use answer::CoreTurn;
pub use core_::Core;
pub use gate::{Gate, OpenGate};
