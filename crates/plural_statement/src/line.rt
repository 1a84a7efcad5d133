//! A kernel line.

ghost use Rattle.std.specs.Prelude.{◌≡◌, Some, None, MatchOption, position};
ghost use Rattle.plural_statement.specs.Statement.{is_colon, label_split, label_of, line_of};

use crate::instruction::instruction;
use crate::statement::KernelLine;
use plural_bytes::Name;

fn find_colon(text: &[u8]) -> Option<usize>
    ensures { result ≡ position is_colon text.now }
{
    text.iter().position(|c| *c == b':')
}

/// The name that a text begins with directly before a colon, and what stands after that colon.
fn label_split(text: &[u8]) -> Option<(Name, &[u8])>
    ensures { MatchOption result (label_split text.now ≡ None) (λ r. label_split text.now ≡ Some (r.0, r.1.now)) }
{
    match find_colon(text) {
        Some(i) => match Name::of(&text[..i]) {
            Some(name) => Some((name, &text[i + 1..])),
            None => None,
        },
        None => None,
    }
}

/// The label of a kernel line: the name that the line begins with directly before a colon.
pub fn label_of(text: &[u8]) -> Option<Name>
    ensures { result ≡ label_of text.now }
{
    match label_split(text) {
        Some((name, _)) => Some(name),
        None => None,
    }
}

/// A kernel line: its label, and its instruction if it has the shape of one.
pub fn line_of(text: &[u8]) -> KernelLine
    ensures { result ≡ line_of text.now }
{
    match label_split(text) {
        Some((name, rest)) => KernelLine {
            label: Some(name),
            statement: instruction(rest),
        },
        None => KernelLine {
            label: None,
            statement: instruction(text),
        },
    }
}
