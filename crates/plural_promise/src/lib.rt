//! What the commands promise together, as laws over the definitions of their answers.
//!
//! Promise (`src/laws.rt`): the status of the answer to an input is one, and so is the text unless it tells a run
//! on cores; all runs of an input agree, on any numbers of cores and in any orders, with one another and with
//! `serial`, in status, last memory, outcomes and records; a call of `plural` that nothing outside disturbed has
//! the status and the whole text of an answer to its words and its input; what `serial` writes is read again as the
//! log and the last memory of the serial run, and what `run` writes as a log and a last memory that are legal; and
//! `verify`, handed a bundle and what `run` wrote of it, answers that the log is legal.
//! Stands on `plural_cli`, whose answers it speaks of, and on `plural_made`, which has lemmas on the lines of texts.
//! No crate stands on it.
#![tactic(auto)]

pub mod laws;
