//! Logs of runs: their text, printed and read.
//!
//! Promise: reading gives the log that the lines spell, or exactly their first fault (`specs/Faults.antt`,
//! `specs/Spelled.antt`); printing gives the canonical lines (`specs/Print.antt`), which, read again, have no fault and
//! spell the log (`laws::log_round_trip`).
//!
//! Stands on `plural_trace`, whose logs it spells, `plural_map_text` (names of tasks) and `plural_image` (words of
//! eight digits). `plural_output` prints and reads logs beside a memory.
#![tactic(auto)]

mod fault;
mod judge_line;
pub mod laws;
mod line;
mod numbers;
mod printing;
mod read;
mod shape;

pub use fault::{LogError, LogKind};
pub use printing::print_log;
pub use read::read_log;
