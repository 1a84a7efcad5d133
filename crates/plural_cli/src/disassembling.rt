//! The command `dis`: words in, their assembler lines out.

ghost use Rattle.std.specs.Prelude.{◌≡◌, ◌≤◌, ◌⊎◌, ◌++◌, length, IfOk, OnOk};
ghost use Rattle.plural_bytes.specs.Spelled.{text_lines};
ghost use Rattle.plural_cli.specs.Dis.{word_line, IsWordsAnswer, IsDisAnswer};

use crate::answer::{Answer, fault_answer};
use plural_asm::disassemble;
use plural_bytes::{Line, Memory, split};
use plural_image::word_of;
use std::alloc::Global;

/// Puts the assembler line of a word after the text.
fn put_word(alloc: Global, text: &mut Vec<u8>, word: u32) -> Result<(), Memory>
    ensures { OnOk result (text.new.items ≡ text.old.items ++ word_line word) }
{
    text.extend_from_slice(&disassemble(alloc, word)?)?;
    text.push(b'\n')?;
    Ok(())
}

/// The assembler lines of the words that lines spell, or the first fault.
fn disassembled(alloc: Global, lines: &[Line<'_>]) -> Result<Answer, Memory>
    ensures answer { IfOk result (λ a. IsWordsAnswer (text_lines lines.now) a.status a.text.items) }
    ensures statuses { IfOk result (λ a. (a.status ≡ 0) ⊎ (a.status ≡ 3)) }
{
    let mut text = Vec::new(alloc);
    let mut count: u32 = 0;
    for line in lines {
        let word = match word_of(line.text) {
            Some(word) => word,
            None => return fault_answer(alloc, line.number, b"form"),
        };
        if count >= 16384 {
            return fault_answer(alloc, line.number, b"count");
        }
        put_word(alloc, &mut text, word)?;
        count += 1;
    }
    Ok(Answer { status: 0, text })
}

/// The answer of `dis` to an input that is not too long.
pub(crate) fn dis_answer(alloc: Global, bytes: &[u8]) -> Result<Answer, Memory>
    requires { length bytes.now ≤ 16777216 }
    ensures answer { IfOk result (λ a. IsDisAnswer bytes.now a.status a.text.items) }
    ensures statuses { IfOk result (λ a. (a.status ≡ 0) ⊎ (a.status ≡ 3)) }
{
    let lines = split(alloc, bytes)?;
    disassembled(alloc, &lines)
}
