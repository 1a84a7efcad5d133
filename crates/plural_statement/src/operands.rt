//! The operands of an instruction's text.

ghost use Rattle.std.specs.Prelude.{◌≡◌, ◌≤◌, position, IfOk, MatchOption, [], ◌∷◌, pos, neg_ℤ, ◌≤ℤ◌};
ghost use Rattle.std.specs.List.{slice_split};
ghost use Rattle.plural_bytes.specs.Lines.{tokens};
ghost use Rattle.plural_bytes.specs.Numerals.{numeral, within};
ghost use Rattle.plural_statement.specs.Operands.{is_comma, is_open, alone, operands, one_of, two_of, three_of, mapped, unsigned_in, signed_in, word_in, halves, indexed};

use plural_bytes::{NumberError, next_token, number};

fn find_comma(text: &[u8]) -> Option<usize>
    ensures { result ≡ position is_comma text.now }
{
    text.iter().position(|c| *c == b',')
}

fn find_open(text: &[u8]) -> Option<usize>
    ensures { result ≡ position is_open text.now }
{
    text.iter().position(|c| *c == b'(')
}

/// The piece before the first comma, and what stands after that comma.
fn next_piece(text: &[u8]) -> (&[u8], Option<&[u8]>)
    ensures { MatchOption result.1 (slice_split is_comma text.now ≡ result.0.now ∷ [])
        (λ rest. slice_split is_comma text.now ≡ result.0.now ∷ slice_split is_comma rest.now) }
{
    match find_comma(text) {
        Some(i) => (&text[..i], Some(&text[i + 1..])),
        None => (text, None),
    }
}

/// The token that stands alone in a piece, else the empty text.
fn alone(piece: &[u8]) -> &[u8]
    ensures { result.now ≡ alone (tokens piece.now) }
{
    match next_token(piece) {
        Some((token, rest)) if next_token(rest).is_none() => token,
        _ => &piece[..0],
    }
}

/// The operand, if there is one.
pub(crate) fn one(text: &[u8]) -> Option<&[u8]>
    ensures { MatchOption result (one_of (operands text.now) ≡ None) (λ a. one_of (operands text.now) ≡ Some a.now) }
{
    let (a, rest) = next_piece(text);
    match rest {
        None => Some(alone(a)),
        Some(_) => None,
    }
}

/// The operands, if there are two.
pub(crate) fn two(text: &[u8]) -> Option<(&[u8], &[u8])>
    ensures { MatchOption result (two_of (operands text.now) ≡ None)
        (λ r. two_of (operands text.now) ≡ Some (r.0.now, r.1.now)) }
{
    let (a, rest) = next_piece(text);
    let (b, rest) = next_piece(rest?);
    match rest {
        None => Some((alone(a), alone(b))),
        Some(_) => None,
    }
}

/// The operands, if there are three.
pub(crate) fn three(text: &[u8]) -> Option<(&[u8], &[u8], &[u8])>
    ensures { MatchOption result (three_of (operands text.now) ≡ None)
        (λ r. three_of (operands text.now) ≡ Some (r.0.now, r.1.now, r.2.now)) }
{
    let (a, rest) = next_piece(text);
    let (b, rest) = next_piece(rest?);
    let (c, rest) = next_piece(rest?);
    match rest {
        None => Some((alone(a), alone(b), alone(c))),
        Some(_) => None,
    }
}

fn numeral_in(text: &[u8], limit: u32) -> Result<u32, NumberError>
    ensures value { result ≡ within limit (numeral text.now) }
    ensures bound { IfOk result (λ n. n ≤ limit) }
{
    match number(text, u64::from(limit)) {
        Ok(n) => Ok(n as u32),
        Err(error) => Err(error),
    }
}

/// The number of a signed numeral from 0 to a limit.
pub(crate) fn unsigned_in(text: &[u8], above: u32) -> Result<u32, NumberError>
    ensures value { result ≡ unsigned_in above text.now }
    ensures bound { IfOk result (λ n. n ≤ above) }
{
    match text.strip_prefix(b"-") {
        Some(digits) => numeral_in(digits, 0),
        None => numeral_in(text, above),
    }
}

fn negative(digits: &[u8], below: u32) -> Result<i32, NumberError>
    requires below { below ≤ 2147483647 }
    ensures value { result ≡ mapped (λ n. neg_ℤ (pos n)) (within below (numeral digits.now)) }
    ensures bound { IfOk result (λ z. (neg_ℤ (pos below) ≤ℤ z) × (z ≤ℤ pos 0)) }
{
    match numeral_in(digits, below) {
        Ok(n) => Ok(-(n as i32)),
        Err(error) => Err(error),
    }
}

fn positive(digits: &[u8], above: u32) -> Result<i32, NumberError>
    requires above { above ≤ 2147483647 }
    ensures value { result ≡ mapped (λ n. pos n) (within above (numeral digits.now)) }
    ensures bound { IfOk result (λ z. (pos 0 ≤ℤ z) × (z ≤ℤ pos above)) }
{
    match numeral_in(digits, above) {
        Ok(n) => Ok(n as i32),
        Err(error) => Err(error),
    }
}

/// The number of a signed numeral from `-below` to `above`.
pub(crate) fn signed_in(text: &[u8], below: u32, above: u32) -> Result<i32, NumberError>
    requires below { below ≤ 2147483647 }
    requires above { above ≤ 2147483647 }
    ensures value { result ≡ signed_in below above text.now }
    ensures bound { IfOk result (λ z. (neg_ℤ (pos below) ≤ℤ z) × (z ≤ℤ pos above)) }
{
    match text.strip_prefix(b"-") {
        Some(digits) => negative(digits, below),
        None => positive(text, above),
    }
}

/// The number of a signed numeral from -2^31 to 2^32 - 1, modulo 2^32.
pub(crate) fn word_in(text: &[u8]) -> Result<u32, NumberError>
    ensures { result ≡ word_in text.now }
{
    match text.strip_prefix(b"-") {
        Some(digits) => match numeral_in(digits, 0x8000_0000) {
            Ok(n) => Ok(n.wrapping_neg()),
            Err(error) => Err(error),
        },
        None => numeral_in(text, 0xffff_ffff),
    }
}

fn halves_at_open(text: &[u8]) -> Option<(&[u8], &[u8])>
    ensures { MatchOption result (halves is_open text.now ≡ None)
        (λ r. halves is_open text.now ≡ Some (r.0.now, r.1.now)) }
{
    match find_open(text) {
        Some(i) => Some((&text[..i], &text[i + 1..])),
        None => None,
    }
}

/// The immediate's text and the register's of an operand `imm(rs1)`.
pub(crate) fn indexed(text: &[u8]) -> Option<(&[u8], &[u8])>
    ensures { MatchOption result (indexed text.now ≡ None) (λ r. indexed text.now ≡ Some (r.0.now, r.1.now)) }
{
    let len = text.len();
    if len > 0 && text[len - 1] == b')' {
        halves_at_open(&text[..len - 1])
    } else {
        None
    }
}
