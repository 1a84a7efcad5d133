//! What all crates share: that memory ran out, names of tasks and labels, and what a memory tells.
//!
//! Promise: a `Name` is a text of 1 to 24 bytes of the form that `specs/Names.antt` states, and `Name::of` answers one
//! exactly for such a text. `specs/Told.antt` has what a memory as an instance has it tells: its words, those that are
//! lawful to read, and the stores to come.
//! Stands on std. Every crate of the machine and of the texts stands on it.
#![tactic(auto)]

mod memory;
mod names;

pub use memory::Memory;
pub use names::Name;
