//! The assembler and the disassembler of kernel lines.
//!
//! Promise: `assemble` gives exactly the words and the labels that the lines spell, or the first
//! faulty line with the least of its kinds (`specs/Words.antt`, `specs/Rules.antt`), and `names` the
//! names at the lines' label positions. `disassemble` gives the text of a word (`specs/WordText.antt`),
//! and that text assembles to the word again (`specs/Laws.antt`).
//! Where labels stand is `specs/Labels.antt`.
//! Stands on `plural_bytes` (lines, numerals, names), `plural_isa` (the instructions and their words)
//! and `plural_statement` (what a line says by itself). `plural_bundle` and `plural_cli` read kernels
//! through it.
#![tactic(auto)]

mod assembler;
mod disassembler;
mod labels;
pub mod laws;
mod object;
mod offset;
mod places;
mod verdict;
mod words;

pub use assembler::assemble;
pub use disassembler::disassemble;
pub use labels::names;
pub use object::{AsmError, AsmKind, Label, Object};
