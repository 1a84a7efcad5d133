//! The instructions of RV32IM and the words that spell them.
//!
//! Promise: `decode` gives a word's row of the instruction table (`specs/Table.antt`, the listing of
//! RV32I 2.1 and M 2.0) with its fields, and None exactly if no row is the word's; `encode` gives
//! the one word that decodes to an instruction. The laws in `laws` say that the table has at most one
//! row for a word and that decoding and encoding undo one another. A `Code` is a list of words, of
//! which each is decoded once.
//! Stands on nothing but std. `plural_core` executes what `decode` gives; `plural_asm` writes and
//! reads the instructions as text.
#![tactic(auto)]

mod code;
mod decoder;
mod encoder;
mod fields;
mod flat_instr;
mod instr;
pub mod laws;
mod reg;
mod register_names;
mod table;

pub use code::Code;
pub use decoder::decode;
pub use encoder::{encode, fits};
pub use flat_instr::{FlatInstr, Mnemonic};
pub use instr::{BranchOp, ImmOp, Instr, LoadOp, RegOp, StoreOp};
pub use reg::Reg;
pub use register_names::{reg_name, reg_of};
pub use table::{Operation, is_shift, operation_named, operation_text};
