//! Rows of the program: inputs, and what the one public call of `plural_cli` has to answer to each. They are read from
//! standard input. A row that is answered otherwise is written as it was answered, and after all how many rows there
//! were. This crate's `stdin` holds the rows, and its `stdout` what has to be written of them. It ends with status 0 if
//! each command was answered as its row wants and each change speaks of a line that is there, else with 1, or with 3,
//! 5, 6 or 7 as `plural` does.
//!
//! ```text
//!                an empty line stands before each row
//! == TITLE       begins it
//! $ WORDS        a command, which is given the row's input; each command of a row by itself
//! ~ WORDS        a run on some cores: the entries of its text may come in any order, each with any core and any
//!                tickets with which `verify` finds the text legal
//! LINE           a line of the input
//! % N LINE       LINE stands in the place of line N of the input that a row before spelled out last
//! => STATUS      the status that each command has to end with
//! LINE           a line of the text that it has to write
//! ```
//!
//! What stands before the first row is a comment. Inputs whose bytes such lines can't show, and reads and writes
//! that fail, have their tests in `plural_tests`.
#![tactic(auto)]

mod input;
mod rows;
mod runs;

use crate::rows::report;
use plural_bytes::{StdSink, StdSource, read_all, write_all};
use std::process::ExitCode;

/// The most bytes that the rows may have.
const LIMIT: u32 = 1_000_000;

fn main(rt: HostRuntime) -> ExitCode {
    let mut source = StdSource::new(rt.stdin());
    let Ok(bytes) = read_all(rt.alloc(), &mut source, LIMIT) else {
        return ExitCode::from(5);
    };
    let Ok(rows) = String::from_utf8(bytes) else {
        return ExitCode::from(3);
    };
    let Ok((is_well, text)) = report(&rt, rt.alloc(), &rows) else {
        return ExitCode::from(7);
    };
    let mut sink = StdSink::new(rt.stdout());
    match write_all(&mut sink, &text) {
        Ok(()) => ExitCode::from(if is_well { 0 } else { 1 }),
        Err(_) => ExitCode::from(6),
    }
}
