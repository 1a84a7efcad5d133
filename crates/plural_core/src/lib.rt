//! One RV32IM core with its guard, over any memory that loads and stores words.
//!
//! Promise: `Hart::turn` is exactly one turn of the model (`specs/Turn.antt`): one instruction of
//! RV32I 2.1 and M 2.0, tested against the nine traps in their order and against the instance's
//! regions, over the words that the port holds. `run` is the whole life of an instance.
//! Stands on `plural_isa` and `plural_regions`. `plural_serial` runs instances over a cache.
#![tactic(auto)]

mod access;
mod arithmetic;
mod end;
mod execute;
mod guard;
mod hart;
pub mod laws;
mod life;
mod port;
mod progress;
mod step;
mod subword;

pub use end::End;
pub use hart::{Hart, Job, Turn};
pub use life::run;
pub use port::DataPort;
pub use subword::Width;
