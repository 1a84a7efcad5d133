//! Logs of runs, the verdict whether a log is legal, and the log of a serial run.
//!
//! Promise: the verdict on a log is yes exactly if the log is legal, which is seven facts (`specs/Legality.antt`,
//! `specs/Verdicts.antt`), where "comes before" is said of tasks by their dependencies; else it is the first of the
//! seven rules that fails, at its least place (`specs/Rules.antt`). The log of a serial run is that of its records
//! (`specs/SerialLog.antt`), can be printed (`laws::serial_is_log`) and is legal with its last memory
//! (`laws::serial_is_legal`). An entry as words tells the entry (`specs/RecordWords.antt`).
//!
//! Stands on `plural_serial`, whose records a log has and whose run it is compared with, on `plural_reach`, which tells
//! what comes before what, and on `plural_order`, whose lemmas say in which order the serial run goes. `plural_log`
//! prints and reads logs; `plural_cli` writes serial logs and verifies outputs.
#![tactic(auto)]

mod compare;
mod cores;
mod entry;
mod judging;
pub mod laws;
mod log;
mod order;
mod records;
mod rise;
mod serial_run;
mod tickets;
mod verdict;

pub use entry::Entry;
pub use judging::legal;
pub use log::Log;
pub use serial_run::serial_log;
pub use verdict::Verdict;
