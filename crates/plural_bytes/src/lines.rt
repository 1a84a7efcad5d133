//! The lines of a text, and the tokens of a line.

ghost use Rattle.std.specs.Prelude.{◌≡◌, ◌+◌, ◌*◌, ◌<◌, ◌≤◌, [], ◌∷◌, length, position, IfOk, IfSome, MatchOption, reverse};
ghost use Rattle.std.specs.List.{before_first, after_first};
ghost use Rattle.plural_bytes.specs.Spelled.{text_lines};
ghost use Rattle.plural_bytes.specs.Lines.{pieces, is_line_end, is_hash, is_blank, without_cr, drop_while, content, content_lines, tokens};
ghost use Rattle.plural_bytes.specs.Words.{ends_token};

use memchr::{memchr, memchr_iter};
use plural_base::Memory;
use std::alloc::Global;

/// A content line: a line of a text that isn't empty without its line end, its comment and its
/// outer blanks.
#[derive(Clone, Copy, Debug)]
pub struct Line<'a> {
    /// The number of the line in its text, from 1; lines without content count.
    pub number: u32,
    /// What is left of it.
    pub text: &'a [u8],
}

fn find_line_end(text: &[u8]) -> Option<usize>
    ensures { result ≡ position is_line_end text.now }
{
    memchr(b'\n', text)
}

fn find_hash(text: &[u8]) -> Option<usize>
    ensures { result ≡ position is_hash text.now }
{
    memchr(b'#', text)
}

#[inline(always)]
fn is_blank(c: u8) -> bool
    ensures { result ≡ is_blank c }
{
    c == b' ' || c == b'\t'
}

/// Does a token that stands before this text end there? So it does if the text is empty or begins with a
/// blank.
#[inline(always)]
pub fn ends_token(text: &[u8]) -> bool
    ensures { result ≡ ends_token text.now }
{
    match text {
        [] => true,
        [first, ..] => is_blank(*first),
    }
}

/// Where the first blank of a text stands, from 0. Blanks are the space and the tab.
#[inline(always)]
pub fn find_blank(text: &[u8]) -> Option<usize>
    ensures { result ≡ position is_blank text.now }
{
    text.iter().position(|c| is_blank(*c))
}

/// The first line of a text without its LF, and what stands after it.
fn next_piece(text: &[u8]) -> (&[u8], &[u8])
    requires { 0 < length text.now }
    ensures pieces { pieces text.now ≡ result.0.now ∷ pieces result.1.now }
    ensures shorter { length result.1.now < length text.now }
{
    match find_line_end(text) {
        Some(i) => (&text[..i], &text[i + 1..]),
        None => (text, &text[text.len()..]),
    }
}

fn without_cr(piece: &[u8]) -> &[u8]
    ensures { result.now ≡ without_cr piece.now }
{
    let len = piece.len();
    if len > 0 && piece[len - 1] == b'\r' {
        &piece[..len - 1]
    } else {
        piece
    }
}

fn without_comment(piece: &[u8]) -> &[u8]
    ensures { result.now ≡ before_first is_hash piece.now }
{
    match find_hash(piece) {
        Some(i) => &piece[..i],
        None => piece,
    }
}

/// A text without the blanks before its first other byte.
#[inline(always)]
pub fn trim_start(text: &[u8]) -> &[u8]
    ensures { result.now ≡ drop_while is_blank text.now }
{
    let mut rest = text;
    while let [first, after @ ..] = rest {
        if !is_blank(*first) {
            return rest;
        }
        rest = after;
    }
    rest
}

fn trim_end(text: &[u8]) -> &[u8]
    ensures { result.now ≡ reverse (drop_while is_blank (reverse text.now)) }
{
    let mut rest = text;
    while let [before @ .., last] = rest {
        if !is_blank(*last) {
            return rest;
        }
        rest = before;
    }
    rest
}

/// What is left of a line without a CR at its end, its comment and its outer blanks. A comment is
/// `#` and all that follows it.
pub fn content(piece: &[u8]) -> &[u8]
    ensures { result.now ≡ content piece.now }
{
    trim_end(trim_start(without_comment(without_cr(piece))))
}

/// The content lines of a text, in order. It is cut at each LF, and a last line without one counts
/// if it isn't empty.
pub fn split(alloc: Global, text: &[u8]) -> Result<Vec<Line<'_>>, Memory>
    requires { length text.now ≤ 67108864 }
    ensures { IfOk result (λ v. text_lines v.items ≡ content_lines text.now) }
{
    let mut lines = Vec::new(alloc);
    let mut rest = text;
    let mut number: u32 = 1;
    while !rest.is_empty() {
        let (piece, after) = next_piece(rest);
        let text = content(piece);
        if !text.is_empty() {
            lines.push(Line { number, text })?;
        }
        rest = after;
        number += 1;
    }
    Ok(lines)
}

/// The number of lines of a text, those without content included.
pub fn line_count(text: &[u8]) -> u32
    requires { length text.now ≤ 67108864 }
    ensures { result ≡ length (pieces text.now) }
{
    match text {
        [] => 0,
        // Each LF before the last byte ends a line, and so does the last byte.
        [before @ .., _] => memchr_iter(b'\n', before).count() as u32 + 1,
    }
}

/// The first token of a line, and what stands after the blank that ends it. Tokens are a line's
/// longest pieces without blanks.
#[inline(always)]
pub fn next_token(text: &[u8]) -> Option<(&[u8], &[u8])>
    ensures tokens { MatchOption result (tokens text.now ≡ []) (λ r. tokens text.now ≡ r.0.now ∷ tokens r.1.now) }
    ensures rest { IfSome result (λ r. r.1.now ≡ after_first is_blank (drop_while is_blank text.now)) }
    ensures shorter { IfSome result (λ r. length r.1.now < length text.now) }
{
    let rest = trim_start(text);
    if rest.is_empty() {
        return None;
    }
    match find_blank(rest) {
        Some(i) => Some((&rest[..i], &rest[i + 1..])),
        None => Some((rest, &rest[rest.len()..])),
    }
}
