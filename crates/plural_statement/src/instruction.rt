//! The instruction of a kernel line, before the labels' places are known.

ghost use Rattle.std.specs.Prelude.{◌≡◌, false, true};
ghost use Rattle.plural_isa.specs.Table.{is_shift};
ghost use Rattle.plural_statement.specs.Statement.{statement_at, instruction};
ghost use Rattle.plural_statement.specs.declared.mnemonics.Mnemonic.TheVariants as m;

use crate::mnemonics::{Mnemonic, mnemonic_of};
use crate::shape::{
    OUT_OF_RANGE, bare, known, one_target, one_word, reg_field, reg_indexed, reg_target, reg_word,
    regs_amount, regs_imm, regs_target, three_regs, two_regs,
};
use crate::statement::Statement;
use plural_bytes::{find_blank, trim_start};
use plural_isa::{BranchOp, ImmOp, Instr, LoadOp, Reg, RegOp, StoreOp, encode, is_shift};

/// The word of `fence`: all accesses before it come before all accesses after it.
pub const FENCE: u32 = 0x0ff0_000f;

fn load(op: LoadOp, text: &[u8]) -> Option<Statement>
    ensures { result ≡ statement_at (m.Load op) text.now }
{
    let (rd, imm, rs1) = reg_indexed(text)?;
    match imm {
        None => Some(OUT_OF_RANGE),
        Some(imm) => Some(known(Instr::Load { op, rd, rs1, imm })),
    }
}

fn store(op: StoreOp, text: &[u8]) -> Option<Statement>
    ensures { result ≡ statement_at (m.Store op) text.now }
{
    let (rs2, imm, rs1) = reg_indexed(text)?;
    match imm {
        None => Some(OUT_OF_RANGE),
        Some(imm) => Some(known(Instr::Store { op, rs1, rs2, imm })),
    }
}

fn jalr(text: &[u8]) -> Option<Statement>
    ensures { result ≡ statement_at m.Jalr text.now }
{
    let (rd, imm, rs1) = reg_indexed(text)?;
    match imm {
        None => Some(OUT_OF_RANGE),
        Some(imm) => Some(known(Instr::Jalr { rd, rs1, imm })),
    }
}

fn shift(op: ImmOp, text: &[u8]) -> Option<Statement>
    requires { is_shift op ≡ true }
    ensures { result ≡ statement_at (m.Imm op) text.now }
{
    let (rd, rs1, imm) = regs_amount(text)?;
    match imm {
        None => Some(OUT_OF_RANGE),
        Some(imm) => Some(known(Instr::OpImm { op, rd, rs1, imm })),
    }
}

fn imm(op: ImmOp, text: &[u8]) -> Option<Statement>
    requires { is_shift op ≡ false }
    ensures { result ≡ statement_at (m.Imm op) text.now }
{
    let (rd, rs1, imm) = regs_imm(text)?;
    match imm {
        None => Some(OUT_OF_RANGE),
        Some(imm) => Some(known(Instr::OpImm { op, rd, rs1, imm })),
    }
}

fn reg(op: RegOp, text: &[u8]) -> Option<Statement>
    ensures { result ≡ statement_at (m.Reg op) text.now }
{
    let (rd, rs1, rs2) = three_regs(text)?;
    Some(known(Instr::Op { op, rd, rs1, rs2 }))
}

fn branch(op: BranchOp, text: &[u8]) -> Option<Statement>
    ensures { result ≡ statement_at (m.Branch op) text.now }
{
    let (rs1, rs2, target) = regs_target(text)?;
    Some(Statement::Branch {
        op,
        rs1,
        rs2,
        target,
    })
}

fn lui(text: &[u8]) -> Option<Statement>
    ensures { result ≡ statement_at m.Lui text.now }
{
    let (rd, imm) = reg_field(text)?;
    match imm {
        None => Some(OUT_OF_RANGE),
        Some(imm) => Some(known(Instr::Lui { rd, imm })),
    }
}

fn auipc(text: &[u8]) -> Option<Statement>
    ensures { result ≡ statement_at m.Auipc text.now }
{
    let (rd, imm) = reg_field(text)?;
    match imm {
        None => Some(OUT_OF_RANGE),
        Some(imm) => Some(known(Instr::Auipc { rd, imm })),
    }
}

fn jal(text: &[u8]) -> Option<Statement>
    ensures { result ≡ statement_at m.Jal text.now }
{
    let (rd, target) = reg_target(text)?;
    Some(Statement::Jump { rd, target })
}

fn j(text: &[u8]) -> Option<Statement>
    ensures { result ≡ statement_at m.J text.now }
{
    let target = one_target(text)?;
    Some(Statement::Jump {
        rd: Reg::of(0),
        target,
    })
}

fn word(text: &[u8]) -> Option<Statement>
    ensures { result ≡ statement_at m.Word text.now }
{
    one_word(text)
}

fn nop(text: &[u8]) -> Option<Statement>
    ensures { result ≡ statement_at m.Nop text.now }
{
    let word = encode(Instr::OpImm {
        op: ImmOp::Addi,
        rd: Reg::of(0),
        rs1: Reg::of(0),
        imm: 0,
    });
    bare(word, text)
}

fn mv(text: &[u8]) -> Option<Statement>
    ensures { result ≡ statement_at m.Mv text.now }
{
    let (rd, rs1) = two_regs(text)?;
    Some(known(Instr::OpImm {
        op: ImmOp::Addi,
        rd,
        rs1,
        imm: 0,
    }))
}

fn not(text: &[u8]) -> Option<Statement>
    ensures { result ≡ statement_at m.Not text.now }
{
    let (rd, rs1) = two_regs(text)?;
    Some(known(Instr::OpImm {
        op: ImmOp::Xori,
        rd,
        rs1,
        imm: -1,
    }))
}

fn neg(text: &[u8]) -> Option<Statement>
    ensures { result ≡ statement_at m.Neg text.now }
{
    let (rd, rs2) = two_regs(text)?;
    Some(known(Instr::Op {
        op: RegOp::Sub,
        rd,
        rs1: Reg::of(0),
        rs2,
    }))
}

fn beqz(text: &[u8]) -> Option<Statement>
    ensures { result ≡ statement_at m.Beqz text.now }
{
    let (rs1, target) = reg_target(text)?;
    Some(Statement::Branch {
        op: BranchOp::Beq,
        rs1,
        rs2: Reg::of(0),
        target,
    })
}

fn bnez(text: &[u8]) -> Option<Statement>
    ensures { result ≡ statement_at m.Bnez text.now }
{
    let (rs1, target) = reg_target(text)?;
    Some(Statement::Branch {
        op: BranchOp::Bne,
        rs1,
        rs2: Reg::of(0),
        target,
    })
}

fn li(text: &[u8]) -> Option<Statement>
    ensures { result ≡ statement_at m.Li text.now }
{
    let (rd, value) = reg_word(text)?;
    Some(Statement::Li { rd, value })
}

/// What a mnemonic and the text of its operands say, if they have the mnemonic's shape.
fn statement_at(mnemonic: Mnemonic, text: &[u8]) -> Option<Statement>
    ensures { result ≡ statement_at mnemonic text.now }
{
    match mnemonic {
        Mnemonic::Branch { op } => branch(op, text),
        Mnemonic::Load { op } => load(op, text),
        Mnemonic::Store { op } => store(op, text),
        Mnemonic::Imm { op } => {
            if is_shift(op) {
                shift(op, text)
            } else {
                imm(op, text)
            }
        }
        Mnemonic::Reg { op } => reg(op, text),
        Mnemonic::Lui => lui(text),
        Mnemonic::Auipc => auipc(text),
        Mnemonic::Jal => jal(text),
        Mnemonic::Jalr => jalr(text),
        Mnemonic::Fence => bare(FENCE, text),
        Mnemonic::Ecall => bare(encode(Instr::Ecall), text),
        Mnemonic::Ebreak => bare(encode(Instr::Ebreak), text),
        Mnemonic::Word => word(text),
        Mnemonic::Nop => nop(text),
        Mnemonic::Mv => mv(text),
        Mnemonic::Not => not(text),
        Mnemonic::Neg => neg(text),
        Mnemonic::J => j(text),
        Mnemonic::Beqz => beqz(text),
        Mnemonic::Bnez => bnez(text),
        Mnemonic::Li => li(text),
    }
}

/// What a text without a label says; None if it has no shape of an instruction.
pub(crate) fn instruction(text: &[u8]) -> Option<Statement>
    ensures { result ≡ instruction text.now }
{
    let text = trim_start(text);
    if text.is_empty() {
        return Some(Statement::Nothing);
    }
    match find_blank(text) {
        Some(i) => {
            let mnemonic = mnemonic_of(&text[..i])?;
            statement_at(mnemonic, &text[i + 1..])
        }
        None => {
            let mnemonic = mnemonic_of(text)?;
            statement_at(mnemonic, &text[text.len()..])
        }
    }
}
