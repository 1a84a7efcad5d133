//! One instance under way on a core, from its start ticket until it is done, a stage at a time.
//!
//! Promise: after each stage the engine and its seat have come as far with the instance as that many turns of its life
//! in the serial run (`specs/Engines.antt`): the hart's state, the loads and misses of the cache, the stores made and
//! those that wait in the buffer. So its record is the serial run's.
//! Stands on `plural_words` (a seat of the shared words as a bus), `plural_cache` (the cache and the store buffer over
//! it), and `plural_core` (the hart). Only `Engine::open` takes memory.
#![tactic(auto)]

mod ending;
mod engine;
mod lent;
mod starting;
mod through;
mod turning;

pub use engine::Engine;
