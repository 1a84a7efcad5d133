//! The text of a word, as an assembler line.

ghost use Rattle.std.specs.Prelude.{◌≡◌, ◌++◌, codes, IfOk, OnOk};
ghost use Rattle.std.specs.Fmt.{signed_decimal};
ghost use Rattle.plural_isa.specs.RegisterNames.{plain_name};
ghost use Rattle.plural_isa.specs.declared.instr.Instr.TheVariants as instr;
ghost use Rattle.plural_statement.specs.Mnemonics.{mnemonic_text};
ghost use Rattle.plural_asm.specs.WordText.{head_text, reg_number_text, reg_address_text, regs_number_text, regs_text, data_text, instr_text, word_text};

use plural_bytes::{Memory, hex, put};
use plural_isa::{Instr, Reg, decode, reg_name};
use plural_statement::{FENCE, Mnemonic, mnemonic_text};
use std::alloc::Global;

fn put_mnemonic(out: &mut Vec<u8>, mnemonic: Mnemonic) -> Result<(), Memory>
    ensures { OnOk result (out.new.items ≡ out.old.items ++ mnemonic_text mnemonic) }
{
    put(out, mnemonic_text(mnemonic).as_bytes())
}

fn put_head(out: &mut Vec<u8>, mnemonic: Mnemonic) -> Result<(), Memory>
    ensures { OnOk result (out.new.items ≡ out.old.items ++ head_text mnemonic) }
{
    put_mnemonic(out, mnemonic)?;
    put(out, b" ")
}

fn put_reg(out: &mut Vec<u8>, reg: Reg) -> Result<(), Memory>
    ensures { OnOk result (out.new.items ≡ out.old.items ++ plain_name reg) }
{
    put(out, reg_name(reg).as_bytes())
}

fn put_number(alloc: Global, out: &mut Vec<u8>, number: i64) -> Result<(), Memory>
    ensures { OnOk result (out.new.items ≡ out.old.items ++ signed_decimal number) }
{
    let text = format!(in alloc; "{number}")?;
    put(out, text.as_bytes())
}

fn put_reg_number(
    alloc: Global,
    out: &mut Vec<u8>,
    mnemonic: Mnemonic,
    a: Reg,
    number: i64,
) -> Result<(), Memory>
    ensures { OnOk result (out.new.items ≡ out.old.items ++ reg_number_text mnemonic a number) }
{
    put_head(out, mnemonic)?;
    put_reg(out, a)?;
    put(out, b", ")?;
    put_number(alloc, out, number)
}

fn put_reg_address(
    alloc: Global,
    out: &mut Vec<u8>,
    mnemonic: Mnemonic,
    a: Reg,
    imm: i64,
    base: Reg,
) -> Result<(), Memory>
    ensures { OnOk result (out.new.items ≡ out.old.items ++ reg_address_text mnemonic a imm base) }
{
    put_reg_number(alloc, out, mnemonic, a, imm)?;
    out.push(b'(')?;
    put_reg(out, base)?;
    out.push(b')')?;
    Ok(())
}

fn put_two_regs(out: &mut Vec<u8>, mnemonic: Mnemonic, a: Reg, b: Reg) -> Result<(), Memory>
    ensures { OnOk result (out.new.items
        ≡ out.old.items ++ ((((head_text mnemonic ++ plain_name a) ++ codes ", ") ++ plain_name b) ++ codes ", ")) }
{
    put_head(out, mnemonic)?;
    put_reg(out, a)?;
    put(out, b", ")?;
    put_reg(out, b)?;
    put(out, b", ")
}

fn put_regs_number(
    alloc: Global,
    out: &mut Vec<u8>,
    mnemonic: Mnemonic,
    a: Reg,
    b: Reg,
    number: i64,
) -> Result<(), Memory>
    ensures { OnOk result (out.new.items ≡ out.old.items ++ regs_number_text mnemonic a b number) }
{
    put_two_regs(out, mnemonic, a, b)?;
    put_number(alloc, out, number)?;
    Ok(())
}

fn put_regs(out: &mut Vec<u8>, mnemonic: Mnemonic, a: Reg, b: Reg, c: Reg) -> Result<(), Memory>
    ensures { OnOk result (out.new.items ≡ out.old.items ++ regs_text mnemonic a b c) }
{
    put_two_regs(out, mnemonic, a, b)?;
    put_reg(out, c)
}

fn put_data(out: &mut Vec<u8>, word: u32) -> Result<(), Memory>
    ensures { OnOk result (out.new.items ≡ out.old.items ++ data_text word) }
{
    put(out, b".word 0x")?;
    put(out, &hex(word))
}

fn put_fence(out: &mut Vec<u8>, word: u32) -> Result<(), Memory>
    ensures { OnOk result (out.new.items ≡ out.old.items ++ instr_text word (instr.Fence 0)) }
{
    if word == FENCE {
        put_mnemonic(out, Mnemonic::Fence)
    } else {
        put_data(out, word)
    }
}

fn put_instr(alloc: Global, out: &mut Vec<u8>, word: u32, instr: Instr) -> Result<(), Memory>
    ensures { OnOk result (out.new.items ≡ out.old.items ++ instr_text word instr) }
{
    match instr {
        Instr::Lui { rd, imm } => put_reg_number(alloc, out, Mnemonic::Lui, rd, i64::from(imm)),
        Instr::Auipc { rd, imm } => put_reg_number(alloc, out, Mnemonic::Auipc, rd, i64::from(imm)),
        Instr::Jal { rd, offset } => put_reg_number(
            alloc,
            out,
            Mnemonic::Jal,
            rd,
            i64::from(offset),
        ),
        Instr::Jalr { rd, rs1, imm } => put_reg_address(
            alloc,
            out,
            Mnemonic::Jalr,
            rd,
            i64::from(imm),
            rs1,
        ),
        Instr::Branch {
            op,
            rs1,
            rs2,
            offset,
        } => put_regs_number(
            alloc,
            out,
            Mnemonic::Branch { op },
            rs1,
            rs2,
            i64::from(offset),
        ),
        Instr::Load { op, rd, rs1, imm } => put_reg_address(
            alloc,
            out,
            Mnemonic::Load { op },
            rd,
            i64::from(imm),
            rs1,
        ),
        Instr::Store { op, rs1, rs2, imm } => put_reg_address(
            alloc,
            out,
            Mnemonic::Store { op },
            rs2,
            i64::from(imm),
            rs1,
        ),
        Instr::OpImm { op, rd, rs1, imm } => put_regs_number(
            alloc,
            out,
            Mnemonic::Imm { op },
            rd,
            rs1,
            i64::from(imm),
        ),
        Instr::Op { op, rd, rs1, rs2 } => put_regs(out, Mnemonic::Reg { op }, rd, rs1, rs2),
        Instr::Fence { .. } => put_fence(out, word),
        Instr::Ecall => put_mnemonic(out, Mnemonic::Ecall),
        Instr::Ebreak => put_mnemonic(out, Mnemonic::Ebreak),
    }
}

/// The text of a word: its instruction's mnemonic and operands, with registers as `x0` to `x31`,
/// numbers in decimal and targets as offsets; `.word 0x` and eight digits if the word decodes to
/// no instruction, or to a fence other than `fence`.
pub fn disassemble(alloc: Global, word: u32) -> Result<Vec<u8>, Memory>
    ensures { IfOk result (λ v. v.items ≡ word_text word) }
{
    let mut out = Vec::new(alloc);
    match decode(word) {
        Some(instr) => put_instr(alloc, &mut out, word, instr)?,
        None => put_data(&mut out, word)?,
    }
    Ok(out)
}
