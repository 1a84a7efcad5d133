//! Encoding an instruction: the fixed fields of its operation's row, and its own fields.

ghost use Rattle.std.specs.Prelude.{◌≡◌, ℕ, ◌*◌, ◌^◌, ◌<◌, ◌≤◌, ◌↔◌, IsTrue, pos, neg_ℤ, ◌≤ℤ◌, ◌<ℤ◌};
ghost use Rattle.plural_isa.specs.Encoding.{bits_of, r_word, i_word, s_word, b_word, u_word, j_word, word_of, IsWithin, IsAmount, Fits, HasRegisters};
ghost use Rattle.plural_isa.specs.Table.{is_shift};
ghost use Rattle.plural_isa.specs.declared.instr.Instr.TheVariants as instr;
ghost use Rattle.plural_isa.specs.Decoding.{decoded};

use crate::instr::{ImmOp, Instr};
use crate::reg::Reg;
use crate::table::{Operation, fixed_fields, is_shift, whole_word};

/// The bits of a number in two's complement, if the sign bit counts `half`.
fn bits_of(number: i32, half: u32) -> u32
    requires half { half ≤ 1048576 }
    requires within { IsWithin half number }
    ensures value { result ≡ bits_of half number }
    ensures bound { result < 2 * half }
{
    if number < 0 {
        (number + (2 * half) as i32) as u32
    } else {
        number as u32
    }
}

fn r_word(code: u32, funct3: u32, funct7: u32, rd: u32, rs1: Reg, rs2: Reg) -> u32
    requires code { code < 128 }
    requires funct3 { funct3 < 8 }
    requires funct7 { funct7 < 128 }
    requires rd { rd < 32 }
    ensures value { result ≡ r_word code funct3 funct7 rd rs1 rs2 }
    ensures registers { (rs1 < 32) × (rs2 < 32) }
{
    code + (rd << 7) + (funct3 << 12) + (rs1.number() << 15) + (rs2.number() << 20) + (funct7 << 25)
}

fn i_word(code: u32, funct3: u32, rd: Reg, rs1: Reg, field: u32) -> u32
    requires code { code < 128 }
    requires funct3 { funct3 < 8 }
    requires field { field < 4096 }
    ensures value { result ≡ i_word code funct3 rd rs1 field }
    ensures registers { (rd < 32) × (rs1 < 32) }
{
    code + (rd.number() << 7) + (funct3 << 12) + (rs1.number() << 15) + (field << 20)
}

fn s_word(code: u32, funct3: u32, rs1: Reg, rs2: Reg, field: u32) -> u32
    requires code { code < 128 }
    requires funct3 { funct3 < 8 }
    requires field { field < 4096 }
    ensures value { result ≡ s_word code funct3 rs1 rs2 field }
    ensures registers { (rs1 < 32) × (rs2 < 32) }
{
    r_word(code, funct3, field >> 5, field & 0x1f, rs1, rs2)
}

fn b_word(code: u32, funct3: u32, rs1: Reg, rs2: Reg, field: u32) -> u32
    requires code { code < 128 }
    requires funct3 { funct3 < 8 }
    requires field { field < 8192 }
    ensures value { result ≡ b_word code funct3 rs1 rs2 field }
    ensures registers { (rs1 < 32) × (rs2 < 32) }
{
    let high = ((field >> 12) << 6) + ((field >> 5) & 0x3f);
    let low = (((field >> 1) & 0xf) << 1) + ((field >> 11) & 1);
    r_word(code, funct3, high, low, rs1, rs2)
}

fn u_word(code: u32, rd: Reg, field: u32) -> u32
    requires code { code < 128 }
    requires field { field < 1048576 }
    ensures value { result ≡ u_word code rd field }
    ensures registers { rd < 32 }
{
    code + (rd.number() << 7) + (field << 12)
}

fn j_word(code: u32, rd: Reg, field: u32) -> u32
    requires code { code < 128 }
    requires field { field < 2097152 }
    ensures value { result ≡ j_word code rd field }
    ensures registers { rd < 32 }
{
    let high = ((field >> 20) << 19) + (((field >> 1) & 0x3ff) << 9);
    let low = (((field >> 11) & 1) << 8) + ((field >> 12) & 0xff);
    u_word(code, rd, high + low)
}

fn is_within(number: i32, half: i32) -> bool
    requires low { pos 0 ≤ℤ half }
    ensures { IsTrue result ↔ (neg_ℤ half ≤ℤ number) × (number <ℤ half) }
{
    -half <= number && number < half
}

/// Whether the immediate or offset is in its range (see `Instr`), and `fields` of `Fence` is below
/// 4,194,304.
pub fn fits(instr: &Instr) -> bool
    ensures { IsTrue result ↔ Fits instr.now }
{
    match *instr {
        Instr::Lui { imm, .. } | Instr::Auipc { imm, .. } => imm < 1_048_576,
        Instr::Jal { offset, .. } => is_within(offset, 1_048_576) && offset % 2 == 0,
        Instr::Branch { offset, .. } => is_within(offset, 4096) && offset % 2 == 0,
        Instr::Jalr { imm, .. } | Instr::Load { imm, .. } | Instr::Store { imm, .. } => is_within(
            imm, 2048,
        ),
        Instr::OpImm { op, imm, .. } => {
            if is_shift(op) {
                0 <= imm && imm < 32
            } else {
                is_within(imm, 2048)
            }
        }
        Instr::Fence { fields } => fields < 4_194_304,
        Instr::Op { .. } | Instr::Ecall | Instr::Ebreak => true,
    }
}

fn imm_word(op: ImmOp, rd: Reg, rs1: Reg, imm: i32) -> u32
    requires { IsAmount (is_shift op) imm }
    ensures value { result ≡ word_of (instr.OpImm op rd rs1 imm) }
    ensures registers { (rd < 32) × (rs1 < 32) }
{
    let row = fixed_fields(Operation::Imm { op });
    let field = if is_shift(op) {
        imm as u32 + (row.funct7 << 5)
    } else {
        bits_of(imm, 2048)
    };
    i_word(row.code, row.funct3, rd, rs1, field)
}

fn fence_word(bits: u32) -> u32
    requires { bits < 4194304 }
    ensures { result ≡ word_of (instr.Fence bits) }
{
    let row = fixed_fields(Operation::Fence);
    row.code + ((bits & 0x1f) << 7) + (row.funct3 << 12) + ((bits >> 5) << 15)
}

/// The one word that decodes to the instruction, in the format of its row (RV32I 2.1, "Base
/// Instruction Formats" and "Immediate Encoding Variants").
pub fn encode(instr: Instr) -> u32
    requires { Fits instr }
    ensures word { result ≡ word_of instr }
    ensures again { decoded result ≡ Some instr }
    ensures only { (w : ℕ) → w < 2 ^ 32 → decoded w ≡ Some instr → w ≡ result }
{
    word_of(instr)
}

fn word_of(instr: Instr) -> u32
    requires { Fits instr }
    ensures value { result ≡ word_of instr }
    ensures registers { HasRegisters instr }
{
    match instr {
        Instr::Lui { rd, imm } => u_word(fixed_fields(Operation::Lui).code, rd, imm),
        Instr::Auipc { rd, imm } => u_word(fixed_fields(Operation::Auipc).code, rd, imm),
        Instr::Jal { rd, offset } => {
            j_word(
                fixed_fields(Operation::Jal).code,
                rd,
                bits_of(offset, 1_048_576),
            )
        }
        Instr::Jalr { rd, rs1, imm } => {
            let row = fixed_fields(Operation::Jalr);
            i_word(row.code, row.funct3, rd, rs1, bits_of(imm, 2048))
        }
        Instr::Branch {
            op,
            rs1,
            rs2,
            offset,
        } => {
            let row = fixed_fields(Operation::Branch { op });
            b_word(row.code, row.funct3, rs1, rs2, bits_of(offset, 4096))
        }
        Instr::Load { op, rd, rs1, imm } => {
            let row = fixed_fields(Operation::Load { op });
            i_word(row.code, row.funct3, rd, rs1, bits_of(imm, 2048))
        }
        Instr::Store { op, rs1, rs2, imm } => {
            let row = fixed_fields(Operation::Store { op });
            s_word(row.code, row.funct3, rs1, rs2, bits_of(imm, 2048))
        }
        Instr::OpImm { op, rd, rs1, imm } => imm_word(op, rd, rs1, imm),
        Instr::Op { op, rd, rs1, rs2 } => {
            let row = fixed_fields(Operation::Reg { op });
            r_word(row.code, row.funct3, row.funct7, rd.number(), rs1, rs2)
        }
        Instr::Fence { fields } => fence_word(fields),
        Instr::Ecall => whole_word(Operation::Ecall),
        Instr::Ebreak => whole_word(Operation::Ebreak),
    }
}
