//! Decoding a word: its row of the table, with its fields.

ghost use Rattle.std.specs.Prelude.{◌≡◌};
ghost use Rattle.plural_isa.specs.Decoding.{decoded, instr_of, imm_at};

use crate::fields::{imm_b, imm_i, imm_j, imm_s, rd, rs1, rs2};
use crate::instr::{ImmOp, Instr};
use crate::table::{Operation, is_shift, operation_of};

fn imm_instr(op: ImmOp, word: u32) -> Instr
    ensures { result ≡ imm_at op word }
{
    let imm = if is_shift(op) {
        rs2(word).number() as i32
    } else {
        imm_i(word)
    };
    Instr::OpImm {
        op,
        rd: rd(word),
        rs1: rs1(word),
        imm,
    }
}

/// The instruction of an operation, with the fields of the word.
fn instr_of(operation: Operation, word: u32) -> Instr
    ensures { result ≡ instr_of operation word }
{
    match operation {
        Operation::Lui => Instr::Lui {
            rd: rd(word),
            imm: word >> 12,
        },
        Operation::Auipc => Instr::Auipc {
            rd: rd(word),
            imm: word >> 12,
        },
        Operation::Jal => Instr::Jal {
            rd: rd(word),
            offset: imm_j(word),
        },
        Operation::Jalr => Instr::Jalr {
            rd: rd(word),
            rs1: rs1(word),
            imm: imm_i(word),
        },
        Operation::Branch { op } => Instr::Branch {
            op,
            rs1: rs1(word),
            rs2: rs2(word),
            offset: imm_b(word),
        },
        Operation::Load { op } => Instr::Load {
            op,
            rd: rd(word),
            rs1: rs1(word),
            imm: imm_i(word),
        },
        Operation::Store { op } => Instr::Store {
            op,
            rs1: rs1(word),
            rs2: rs2(word),
            imm: imm_s(word),
        },
        Operation::Imm { op } => imm_instr(op, word),
        Operation::Reg { op } => Instr::Op {
            op,
            rd: rd(word),
            rs1: rs1(word),
            rs2: rs2(word),
        },
        Operation::Fence => Instr::Fence {
            fields: ((word >> 15) << 5) | ((word >> 7) & 0x1f),
        },
        Operation::Ecall => Instr::Ecall,
        Operation::Ebreak => Instr::Ebreak,
    }
}

/// The instruction that the word spells: the instruction of the word's row of the table (RV32I 2.1 and
/// M 2.0, "RV32/64G Instruction Set Listings"), with the word's fields. None if no row is the word's.
pub fn decode(word: u32) -> Option<Instr>
    ensures { result ≡ decoded word }
{
    match operation_of(word) {
        Some(operation) => Some(instr_of(operation, word)),
        None => None,
    }
}
