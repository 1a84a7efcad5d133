//! The words of an instruction at a place.

ghost use Rattle.std.specs.Prelude.{◌≡◌, ◌≤◌, ◌<◌, ◌++◌, [], ◌∷◌, Some, None, unwrap_or, OnOk};
ghost use Rattle.plural_isa.specs.Encoding.{IsWithin, word_of};
ghost use Rattle.plural_isa.specs.declared.instr.Instr.TheVariants as instr;
ghost use Rattle.plural_isa.specs.declared.instr.ImmOp.TheVariants as imm;
ghost use Rattle.plural_statement.specs.declared.statement.Statement.TheVariants.{Li};
ghost use Rattle.plural_asm.specs.Labels.{place_of};
ghost use Rattle.plural_asm.specs.Words.{IsReached, low_part, high_part, li_words, jump_word, branch_word, words_at, label_at};

use crate::object::Label;
use crate::offset::{BRANCH_HALF, JUMP_HALF, Offset, offset_at};
use crate::places::{Places, is_short};
use plural_bytes::{Memory, Name};
use plural_isa::{BranchOp, ImmOp, Instr, Reg, encode};
use plural_statement::Statement;

fn low_part(word: u32) -> i32
    ensures value { result ≡ low_part word }
    ensures within { IsWithin 2048 result }
{
    let bits = word % 4096;
    if bits < 2048 {
        bits as i32
    } else {
        bits as i32 - 4096
    }
}

fn high_part(word: u32) -> u32
    ensures value { result ≡ high_part word }
    ensures field { result < 1048576 }
{
    ((u64::from(word) + 2048) / 4096 % 1_048_576) as u32
}

fn add_low(rd: Reg, rs1: Reg, word: u32) -> u32
    ensures { result ≡ word_of (instr.OpImm imm.Addi rd rs1 (low_part word)) }
{
    let imm = low_part(word);
    encode(Instr::OpImm {
        op: ImmOp::Addi,
        rd,
        rs1,
        imm,
    })
}

fn load_high(rd: Reg, word: u32) -> u32
    ensures { result ≡ word_of (instr.Lui rd (high_part word)) }
{
    let imm = high_part(word);
    encode(Instr::Lui { rd, imm })
}

fn put_li(words: &mut Vec<u32>, rd: Reg, word: u32) -> Result<(), Memory>
    ensures { OnOk result (words.new.items ≡ words.old.items ++ li_words rd word) }
{
    if is_short(word) {
        words.push(add_low(rd, Reg::of(0), word))?;
        return Ok(());
    }
    words.push(load_high(rd, word))?;
    if word % 4096 != 0 {
        words.push(add_low(rd, rd, word))?;
    }
    Ok(())
}

fn jump_word(rd: Reg, offset: Offset) -> u32
    requires { IsReached 1048576 offset }
    ensures { result ≡ jump_word rd offset }
{
    match offset {
        Offset::At { bytes } => encode(Instr::Jal { rd, offset: bytes }),
        _ => 0,
    }
}

fn branch_word(op: BranchOp, rs1: Reg, rs2: Reg, offset: Offset) -> u32
    requires { IsReached 4096 offset }
    ensures { result ≡ branch_word op rs1 rs2 offset }
{
    match offset {
        Offset::At { bytes } => encode(Instr::Branch {
            op,
            rs1,
            rs2,
            offset: bytes,
        }),
        _ => 0,
    }
}

fn put_word(words: &mut Vec<u32>, word: u32) -> Result<(), Memory>
    ensures { OnOk result (words.new.items ≡ words.old.items ++ word ∷ []) }
{
    words.push(word)?;
    Ok(())
}

fn put_known(words: &mut Vec<u32>, word: Option<u32>) -> Result<(), Memory>
    ensures { OnOk result (words.new.items ≡ words.old.items ++ unwrap_or word 0 ∷ []) }
{
    match word {
        Some(word) => put_word(words, word),
        None => put_word(words, 0),
    }
}

fn put_value(words: &mut Vec<u32>, rd: Reg, value: Option<u32>) -> Result<(), Memory>
    ensures { OnOk result (words.new.items ≡ words.old.items ++ words_at (λ q. None) 0 (Some (Li rd value))) }
{
    match value {
        Some(word) => put_li(words, rd, word),
        None => put_word(words, 0),
    }
}

fn put_statement(
    words: &mut Vec<u32>,
    places: &Places<'_>,
    here: u32,
    statement: Statement,
) -> Result<(), Memory>
    ensures { OnOk result (words.new.items
        ≡ words.old.items ++ words_at (λ q. place_of places.now q) here (Some statement)) }
{
    match statement {
        Statement::Nothing => Ok(()),
        Statement::Known { word } => put_known(words, word),
        Statement::Li { rd, value } => put_value(words, rd, value),
        Statement::Jump { rd, target } => put_word(
            words,
            jump_word(rd, offset_at(places, here, JUMP_HALF, target)),
        ),
        Statement::Branch {
            op,
            rs1,
            rs2,
            target,
        } => put_word(
            words,
            branch_word(op, rs1, rs2, offset_at(places, here, BRANCH_HALF, target)),
        ),
    }
}

/// Appends the words of an instruction at the place `here`; 0 stands for one that has a fault.
pub(crate) fn put_words(
    words: &mut Vec<u32>,
    places: &Places<'_>,
    here: u32,
    statement: Option<Statement>,
) -> Result<(), Memory>
    ensures { OnOk result (words.new.items
        ≡ words.old.items ++ words_at (λ q. place_of places.now q) here statement) }
{
    match statement {
        Some(statement) => put_statement(words, places, here, statement),
        None => put_word(words, 0),
    }
}

/// Appends the label of a line at the place `here`, if it has one.
pub(crate) fn put_label(
    labels: &mut Vec<Label>,
    here: u32,
    label: Option<Name>,
) -> Result<(), Memory>
    requires { here ≤ 16384 }
    ensures { OnOk result (labels.new.items ≡ labels.old.items ++ label_at here label) }
{
    match label {
        Some(name) => {
            labels.push(Label { name, pc: 4 * here })?;
            Ok(())
        }
        None => Ok(()),
    }
}
