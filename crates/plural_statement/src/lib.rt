//! One kernel line by itself: its label, and what its instruction says before labels have places.
//!
//! Promise: `line_of` gives exactly the label and the statement of a line, or no statement if the
//! line has no shape of an instruction (`specs/Statement.antt`). A mnemonic and its operands are
//! `specs/Mnemonics.antt` and `specs/Operands.antt`.
//! Stands on `plural_bytes` (tokens, numerals, names) and `plural_isa` (the instructions and their
//! words). `plural_asm` puts lines together over it.
#![tactic(auto)]

mod instruction;
mod line;
mod mnemonics;
mod operands;
mod shape;
mod statement;

pub use instruction::FENCE;
pub use line::{label_of, line_of};
pub use mnemonics::{Mnemonic, mnemonic_text};
pub use statement::{KernelLine, Statement, Target};
