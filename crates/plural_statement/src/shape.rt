//! The shapes of a mnemonic's operands, and what they say.

ghost use Rattle.std.specs.Prelude.{◌≡◌, ◌≤◌, true, false, Some, ⊤, MatchOption, pos, ◌≤ℤ◌};
ghost use Rattle.plural_isa.specs.Encoding.{word_of, Fits};
ghost use Rattle.plural_statement.specs.Statement.{bare, IsImmediate, reg_field, reg_indexed, regs_imm, two_regs, three_regs, target_of, reg_target, regs_target, one_target, one_word, reg_word};
ghost use Rattle.plural_statement.specs.declared.statement.Statement.TheVariants.{Known};

use crate::operands::{indexed, one, signed_in, three, two, unsigned_in, word_in};
use crate::statement::{Statement, Target};
use plural_bytes::{Name, NumberError, trim_start};
use plural_isa::{Instr, Reg, encode, reg_of};

/// An instruction whose number is out of its range.
pub(crate) const OUT_OF_RANGE: Statement = Statement::Known { word: None };

/// The statement of an instruction whose operands are in their ranges.
pub(crate) fn known(instr: Instr) -> Statement
    requires { Fits instr }
    ensures { result ≡ Known (Some (word_of instr)) }
{
    Statement::Known {
        word: Some(encode(instr)),
    }
}

pub(crate) fn bare(word: u32, text: &[u8]) -> Option<Statement>
    ensures { result ≡ bare word text.now }
{
    if trim_start(text).is_empty() {
        Some(Statement::Known { word: Some(word) })
    } else {
        None
    }
}

pub(crate) fn reg_field(text: &[u8]) -> Option<(Reg, Option<u32>)>
    ensures value { result ≡ reg_field text.now }
    ensures bound { MatchOption result ⊤ (λ r. MatchOption r.1 ⊤ (λ n. n ≤ 1048575)) }
{
    let (rd, field) = two(text)?;
    let rd = reg_of(rd)?;
    match unsigned_in(field, 1_048_575) {
        Ok(field) => Some((rd, Some(field))),
        Err(NumberError::Range) => Some((rd, None)),
        Err(NumberError::Form) => None,
    }
}

pub(crate) fn reg_indexed(text: &[u8]) -> Option<(Reg, Option<i32>, Reg)>
    ensures value { result ≡ reg_indexed text.now }
    ensures bound { MatchOption result ⊤ (λ r. IsImmediate r.1) }
{
    let (first, address) = two(text)?;
    let first = reg_of(first)?;
    let (imm, base) = indexed(address)?;
    let base = reg_of(base)?;
    match signed_in(imm, 2048, 2047) {
        Ok(imm) => Some((first, Some(imm), base)),
        Err(NumberError::Range) => Some((first, None, base)),
        Err(NumberError::Form) => None,
    }
}

pub(crate) fn regs_imm(text: &[u8]) -> Option<(Reg, Reg, Option<i32>)>
    ensures value { result ≡ regs_imm false text.now }
    ensures bound { MatchOption result ⊤ (λ r. IsImmediate r.2) }
{
    let (rd, rs1, imm) = three(text)?;
    let rd = reg_of(rd)?;
    let rs1 = reg_of(rs1)?;
    match signed_in(imm, 2048, 2047) {
        Ok(imm) => Some((rd, rs1, Some(imm))),
        Err(NumberError::Range) => Some((rd, rs1, None)),
        Err(NumberError::Form) => None,
    }
}

pub(crate) fn regs_amount(text: &[u8]) -> Option<(Reg, Reg, Option<i32>)>
    ensures value { result ≡ regs_imm true text.now }
    ensures bound { MatchOption result ⊤ (λ r. MatchOption r.2 ⊤ (λ z. (pos 0 ≤ℤ z) × (z ≤ℤ pos 31))) }
{
    let (rd, rs1, amount) = three(text)?;
    let rd = reg_of(rd)?;
    let rs1 = reg_of(rs1)?;
    match signed_in(amount, 0, 31) {
        Ok(amount) => Some((rd, rs1, Some(amount))),
        Err(NumberError::Range) => Some((rd, rs1, None)),
        Err(NumberError::Form) => None,
    }
}

pub(crate) fn two_regs(text: &[u8]) -> Option<(Reg, Reg)>
    ensures { result ≡ two_regs text.now }
{
    let (rd, rs) = two(text)?;
    let rd = reg_of(rd)?;
    let rs = reg_of(rs)?;
    Some((rd, rs))
}

pub(crate) fn three_regs(text: &[u8]) -> Option<(Reg, Reg, Reg)>
    ensures { result ≡ three_regs text.now }
{
    let (rd, rs1, rs2) = three(text)?;
    let rd = reg_of(rd)?;
    let rs1 = reg_of(rs1)?;
    let rs2 = reg_of(rs2)?;
    Some((rd, rs1, rs2))
}

fn target_of(text: &[u8]) -> Option<Target>
    ensures { result ≡ target_of text.now }
{
    match signed_in(text, 0x7fff_ffff, 0x7fff_ffff) {
        Ok(bytes) => Some(Target::Offset { bytes: Some(bytes) }),
        Err(NumberError::Range) => Some(Target::Offset { bytes: None }),
        Err(NumberError::Form) => match Name::of(text) {
            Some(name) => Some(Target::Label { name }),
            None => None,
        },
    }
}

pub(crate) fn reg_target(text: &[u8]) -> Option<(Reg, Target)>
    ensures { result ≡ reg_target text.now }
{
    let (reg, target) = two(text)?;
    let reg = reg_of(reg)?;
    let target = target_of(target)?;
    Some((reg, target))
}

pub(crate) fn regs_target(text: &[u8]) -> Option<(Reg, Reg, Target)>
    ensures { result ≡ regs_target text.now }
{
    let (rs1, rs2, target) = three(text)?;
    let rs1 = reg_of(rs1)?;
    let rs2 = reg_of(rs2)?;
    let target = target_of(target)?;
    Some((rs1, rs2, target))
}

pub(crate) fn one_target(text: &[u8]) -> Option<Target>
    ensures { result ≡ one_target text.now }
{
    let target = one(text)?;
    target_of(target)
}

pub(crate) fn one_word(text: &[u8]) -> Option<Statement>
    ensures { result ≡ one_word text.now }
{
    let word = one(text)?;
    match unsigned_in(word, 0xffff_ffff) {
        Ok(word) => Some(Statement::Known { word: Some(word) }),
        Err(NumberError::Range) => Some(OUT_OF_RANGE),
        Err(NumberError::Form) => None,
    }
}

pub(crate) fn reg_word(text: &[u8]) -> Option<(Reg, Option<u32>)>
    ensures { result ≡ reg_word text.now }
{
    let (rd, value) = two(text)?;
    let rd = reg_of(rd)?;
    match word_in(value) {
        Ok(value) => Some((rd, Some(value))),
        Err(NumberError::Range) => Some((rd, None)),
        Err(NumberError::Form) => None,
    }
}
