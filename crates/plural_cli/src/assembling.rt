//! The command `asm`: kernel lines in, the words of their code out.

ghost use Rattle.std.specs.Prelude.{◌≡◌, ◌≤◌, ◌⊎◌, length, IfOk};
ghost use Rattle.plural_cli.specs.FaultLine.{kind_text};
ghost use Rattle.plural_cli.specs.Asm.{code_text, IsAsmAnswer};

use crate::answer::{Answer, fault_answer};
use plural_asm::{AsmError, AsmKind, assemble};
use plural_bytes::{Memory, split};
use plural_image::hex;
use plural_isa::Code;
use std::alloc::Global;

/// The word for a kind of fault.
pub(crate) fn kind_text(kind: AsmKind) -> &'static [u8]
    ensures { result.now ≡ kind_text kind }
{
    match kind {
        AsmKind::Form => b"form",
        AsmKind::Number => b"number",
        AsmKind::Name => b"name",
        AsmKind::Count => b"count",
        AsmKind::Reach => b"reach",
    }
}

/// The words of a code, each as eight hexadecimal digits and a line end.
fn code_text(alloc: Global, code: &Code) -> Result<Vec<u8>, Memory>
    ensures { IfOk result (λ v. v.items ≡ code_text code.now) }
{
    let mut text = Vec::new(alloc);
    for i in 0..code.len() {
        text.extend_from_slice(&hex(code.word(i)))?;
        text.push(b'\n')?;
    }
    Ok(text)
}

/// The answer of `asm` to an input that is not too long.
pub(crate) fn asm_answer(alloc: Global, bytes: &[u8]) -> Result<Answer, Memory>
    requires { length bytes.now ≤ 16777216 }
    ensures answer { IfOk result (λ a. IsAsmAnswer bytes.now a.status a.text.items) }
    ensures statuses { IfOk result (λ a. (a.status ≡ 0) ⊎ (a.status ≡ 3)) }
{
    let lines = split(alloc, bytes)?;
    match assemble(alloc, &lines) {
        Ok(object) => Ok(Answer {
            status: 0,
            text: code_text(alloc, &object.code)?,
        }),
        Err(AsmError::At { line, kind }) => fault_answer(alloc, line, kind_text(kind)),
        Err(AsmError::Memory) => Err(Memory),
    }
}
