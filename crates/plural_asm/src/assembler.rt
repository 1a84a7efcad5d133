//! Assembling kernel lines.

ghost use Rattle.std.specs.Prelude.{◌≡◌, ◌≤◌, length, IfOk, MatchResult};
ghost use Rattle.plural_bytes.specs.Spelled.{text_lines};
ghost use Rattle.plural_sections.specs.Faults.{IsFaultless};
ghost use Rattle.plural_asm.specs.Words.{code_of, labels_of};
ghost use Rattle.plural_asm.specs.Rules.{Breaks, Faults};

use crate::object::{AsmError, Object};
use crate::offset::target_offset;
use crate::places::{Places, note_label, words_in};
use crate::verdict::verdict;
use crate::words::{put_label, put_words};
use plural_bytes::{Line, Memory};
use plural_isa::Code;
use plural_statement::line_of;
use std::alloc::Global;
use std::collections::BTreeMap;

/// The code of words.
fn coded(alloc: Global, words: Vec<u32>) -> Result<Code, Memory>
    requires { length words.items ≤ 16384 }
    ensures { IfOk result (λ code. code ≡ words.items) }
{
    Ok(Code::of(alloc, words)?)
}

/// The code and the labels of kernel lines, or their first fault.
pub fn assemble(alloc: Global, lines: &[Line<'_>]) -> Result<Object, AsmError>
    ensures { MatchResult result
        (λ o. IsFaultless (Breaks (text_lines lines.now)) (text_lines lines.now)
        × (o.0 ≡ code_of (text_lines lines.now) (text_lines lines.now))
        × (o.1 ≡ labels_of (text_lines lines.now)))
        (λ e. Faults (text_lines lines.now) e) }
{
    let all = Places::of(alloc, lines)?;
    let mut earlier = BTreeMap::new(alloc);
    let mut words = Vec::new(alloc);
    let mut labels = Vec::new(alloc);
    let mut here: u32 = 0;
    for line in lines {
        let kernel = line_of(line.text);
        let offset = target_offset(&all, here, kernel.statement);
        match verdict(&earlier, here, labels.len(), &kernel, offset) {
            Some(kind) => {
                return Err(AsmError::At {
                    line: line.number,
                    kind,
                });
            }
            None => note_label(&mut earlier, kernel.label, u64::from(here))?,
        }
        put_label(&mut labels, here, kernel.label)?;
        put_words(&mut words, &all, here, kernel.statement)?;
        here += words_in(kernel.statement);
    }
    let code = coded(alloc, words)?;
    Ok(Object { code, labels })
}
