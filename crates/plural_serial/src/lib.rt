//! The serial machine: a program's tasks one after the other, over one memory.
//!
//! Promise: `serial` answers the last memory, the outcomes and the records of the serial run
//! (`specs/Serial.antt`), for every program and every opening image.
//! Each instance runs over a cache that is empty at its start, by way of `Cached`, the port of a cache over any bus.
//! Stands on `plural_map` (the order and the decisions), `plural_core` (the life of an instance) and `plural_cache`.
//! Everything that runs on many cores is compared with it. The laws say what the serial run is: which instances run and
//! in which order, from which memories, with which outcomes and records (`specs/Laws.antt`, `specs/Records.antt`).
#![tactic(auto)]

mod answer;
mod cached;
mod flat;
pub mod laws;
mod machine;
mod outcome;
mod program;
mod reading;
mod record_;

pub use answer::Answer;
pub use cached::Cached;
pub use flat::Flat;
pub use machine::serial;
pub use program::Program;
pub use record_::Record;
