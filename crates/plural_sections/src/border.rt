//! What has to stand between the sections of a text, and after them.

ghost use Rattle.std.specs.Prelude.{◌≡◌, ◌<◌, ◌≤◌, length, position, MatchResult, IfOk};
ghost use Rattle.plural_bytes.specs.Lines.{has_text};
ghost use Rattle.plural_bytes.specs.Spelled.{text_lines};
ghost use Rattle.plural_sections.specs.Borders.{head_of, IsHeaded, IsMissing, AllBlank, IsLeftOver};

use crate::fault::Fault;
use crate::line_error::LineError;
use plural_bytes::{Line, is_word};

/// The number of the line that stands first, or `end` if there is none.
pub fn first_number(lines: &[Line<'_>], end: u32) -> u32
    ensures { result ≡ (head_of (text_lines lines.now) end).0 }
{
    match lines {
        [first, ..] => first.number,
        [] => end,
    }
}

/// The text of the line that stands first, or none.
pub fn first_text<'b>(lines: &[Line<'b>]) -> &'b [u8]
    ensures { result.now ≡ (head_of (text_lines lines.now) 0).1 }
{
    match lines {
        [first, ..] => first.text,
        [] => b"",
    }
}

/// The lines after a header that is due, or a fault of form of what stands in its place: its first line, or `end` if
/// there is none.
pub fn after_header<'a, 'b>(
    lines: &'a [Line<'b>],
    header: &[u8],
    end: u32,
) -> Result<&'a [Line<'b>], LineError<Fault>>
    requires { 0 < length header.now }
    ensures answer { MatchResult result (λ rest. IsHeaded header.now (text_lines lines.now) (text_lines rest.now))
        (IsMissing header.now (text_lines lines.now) end) }
    ensures few { IfOk result (λ rest. length rest.now ≤ length lines.now) }
{
    if !is_word(first_text(lines), header) {
        return Err(LineError::At {
            line: first_number(lines, end),
            kind: Fault::Form,
        });
    }
    Ok(&lines[1..])
}

fn has_text(text: &[u8]) -> bool
    ensures { result ≡ has_text text.now }
{
    text.len() > 0
}

fn find_text(lines: &[Line<'_>]) -> Option<usize>
    ensures { result ≡ position (λ l. has_text l.text.now) lines.now }
{
    lines.iter().position(|l| has_text(l.text))
}

/// Answers a fault of form of the first line that has a text.
pub fn nothing_after(lines: &[Line<'_>]) -> Result<(), LineError<Fault>>
    ensures { MatchResult result (λ _. AllBlank (text_lines lines.now)) (IsLeftOver (text_lines lines.now)) }
{
    match find_text(lines) {
        None => Ok(()),
        Some(n) => Err(LineError::At {
            line: lines[n].number,
            kind: Fault::Form,
        }),
    }
}
