//! Sections of lines.

ghost use Rattle.std.specs.Prelude.{◌≡◌, ◌≤◌, ◌++◌, drop, length, position, bytes_eq};
ghost use Rattle.std.specs.List.{position_or_len, after_first};
ghost use Rattle.plural_bytes.specs.Spelled.{text_lines};
ghost use Rattle.plural_sections.specs.Sections.{closes, up_to_header, section};
ghost use Rattle.plural_sections.specs.Borders.{IsClosed};

use plural_bytes::{Line, is_word};

/// The section with which lines begin.
#[derive(Clone, Copy)]
pub struct Section<'a, 'b> {
    /// Its lines.
    pub lines: &'a [Line<'b>],
    /// The lines from the one on that closes it.
    pub rest: &'a [Line<'b>],
}

/// Is a text a header, or no text at all?
fn closes(text: &[u8]) -> bool
    ensures { result ≡ closes text.now }
{
    match text {
        [] => true,
        [first, ..] => *first == b'[',
    }
}

fn find_closing(lines: &[Line<'_>]) -> Option<usize>
    ensures { result ≡ position (λ l. closes l.text.now) lines.now }
{
    lines.iter().position(|l| closes(l.text))
}

/// How many lines stand before the first that closes a section.
fn section_len(lines: &[Line<'_>]) -> usize
    ensures len { result ≡ position_or_len (λ l. closes l.text.now) lines.now }
    ensures few { result ≤ length lines.now }
{
    find_closing(lines).unwrap_or(lines.len())
}

/// Cuts lines before the first that closes a section: a header, or a line without text.
pub fn next_section<'a, 'b>(lines: &'a [Line<'b>]) -> Section<'a, 'b>
    ensures lines { text_lines result.lines.now ≡ up_to_header (text_lines lines.now) }
    ensures whole { text_lines lines.now ≡ text_lines result.lines.now ++ text_lines result.rest.now }
    ensures closed { IsClosed (text_lines result.rest.now) }
    ensures few { length result.lines.now ≤ length lines.now }
    ensures rest { length result.rest.now ≤ length lines.now }
{
    let n = section_len(lines);
    Section {
        lines: &lines[..n],
        rest: &lines[n..],
    }
}

fn find_header(lines: &[Line<'_>], header: &[u8]) -> Option<usize>
    ensures { result ≡ position (λ l. bytes_eq l.text.now header.now) lines.now }
{
    lines.iter().position(|l| is_word(l.text, header))
}

/// Where the lines after the first that is this header begin, at the end if none is.
fn section_start(lines: &[Line<'_>], header: &[u8]) -> usize
    ensures start { drop result lines.now ≡ after_first (λ l. bytes_eq l.text.now header.now) lines.now }
    ensures few { result ≤ length lines.now }
{
    match find_header(lines, header) {
        Some(n) => n + 1,
        None => lines.len(),
    }
}

/// The lines after the first that is this header, up to the next header; none if no line is this header.
pub fn section_of<'a, 'b>(lines: &'a [Line<'b>], header: &[u8]) -> &'a [Line<'b>]
    ensures section { text_lines result.now ≡ section header.now (text_lines lines.now) }
    ensures few { length result.now ≤ length lines.now }
{
    let start = section_start(lines, header);
    next_section(&lines[start..]).lines
}
