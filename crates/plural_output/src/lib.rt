//! The output of a run: its log and its memory in one text.
//!
//! Promise: `print_output` answers the one text (`specs/Text.antt`); `read_output` answers the log and the memory that
//! the lines of an output spell (`specs/Value.antt`), or exactly the first line with a fault and its least kind
//! (`specs/Rules.antt`); `split_parts` cuts a verifier's input into a bundle and an output (`specs/Parts.antt`).
//!
//! Stands on `plural_log` and `plural_image`, which print and read the sections, and on `plural_sections`, which cuts
//! them. `plural_cli` prints what it runs and reads what it verifies by it.
#![tactic(auto)]

mod fault;
mod output;
mod parts;
mod printing;
mod read;

pub use fault::OutputError;
pub use output::Output;
pub use parts::{Parts, split_parts};
pub use printing::print_output;
pub use read::read_output;
