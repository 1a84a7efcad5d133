//! The commands of `plural`: one public call that reads the words of a command line, reads the input, and
//! writes the answer.
//!
//! Promise: the status and the text of `plural` are those of `specs/Output.antt` for every input, and each
//! other status has its cause: the words for 2, the source's count of faults for 5, the sink's for 6, and
//! 7 if memory ran out. `run` and `make SEED --cores N` leave the finished machine that their text comes from
//! (`specs/Kept.antt`).
//! Stands on `plural_bundle` and `plural_output` (reading), `plural_crew` (clashes), `plural_machine` (runs on cores),
//! `plural_serial` (the serial run), `plural_trace` (serial logs and the verdict), `plural_generator` and
//! `plural_made` (the made bundle), `plural_asm` and `plural_image` (texts). The program `plural` is its `main` alone.
#![tactic(auto)]

mod answer;
mod arguments;
mod assembling;
mod checking;
mod command;
mod disassembling;
mod input;
mod made_line;
mod made_run;
mod making;
mod on_cores;
mod reading;
mod running;
mod top;
mod verifying;

pub use command::{Command, Order, Request};
pub use plural_cores::{Gate, OpenGate};
pub use top::plural;
