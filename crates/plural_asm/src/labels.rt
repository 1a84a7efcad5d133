//! The names that lines have as labels.

ghost use Rattle.std.specs.Prelude.{◌≡◌, IfOk};
ghost use Rattle.plural_bytes.specs.Spelled.{text_lines};
ghost use Rattle.plural_asm.specs.Labels.{names_of};

use plural_bytes::{Line, Memory, Name};
use plural_statement::label_of;
use std::alloc::Global;

/// The names at the label positions of lines, in order, repeats included: a line has one if it
/// begins with a name directly followed by a colon.
pub fn names(alloc: Global, lines: &[Line<'_>]) -> Result<Vec<Name>, Memory>
    ensures { IfOk result (λ v. v.items ≡ names_of (text_lines lines.now)) }
{
    let mut names = Vec::new(alloc);
    for line in lines {
        match label_of(line.text) {
            Some(name) => names.push(name)?,
            None => {}
        }
    }
    Ok(names)
}
