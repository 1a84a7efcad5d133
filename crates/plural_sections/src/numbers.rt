//! The numbers and words of a line.

ghost use Rattle.std.specs.Prelude.{◌≡◌, ◌≤◌, true, length, take, None, Some, MatchOption};
ghost use Rattle.std.specs.List.{list_all};
ghost use Rattle.std.specs.Char.{is_ascii_digit};
ghost use Rattle.plural_bytes.specs.Lines.{tokens};
ghost use Rattle.plural_bytes.specs.Numerals.{value_of};
ghost use Rattle.plural_sections.specs.Numbers.{capped_numeral, first_numeral, is_within, word_token};

use plural_bytes::{NumberError, digits, ends_token, next_token, number, trim_start};

/// The number of a numeral, capped at 4,294,967,296, which is out of the range of each number of a
/// line; nothing if the text is no numeral.
pub fn capped_numeral(text: &[u8]) -> Option<u64>
    ensures { result ≡ capped_numeral text.now }
{
    match number(text, 4_294_967_295) {
        Ok(n) => Some(n),
        Err(NumberError::Range) => Some(4_294_967_296),
        Err(NumberError::Form) => None,
    }
}

/// How many decimal digits a text begins with, and what they spell; at most ten count.
#[derive(Clone, Copy)]
struct Digits {
    len: usize,
    value: u64,
}

#[inline(always)]
fn leading_digits(text: &[u8]) -> Digits
    ensures inside { result.len ≤ length text.now }
    ensures digits { list_all is_ascii_digit (take result.len text.now) ≡ true }
    ensures value { result.value ≡ value_of 10 (take result.len text.now) }
{
    let mut value: u64 = 0;
    for (len, c) in text.iter().enumerate() {
        if !c.is_ascii_digit() || len == 10 {
            return Digits { len, value };
        }
        value = value * 10 + u64::from(*c - b'0');
    }
    Digits {
        len: text.len(),
        value,
    }
}

/// The same as `next_numeral`, for any token.
#[cold]
#[inline(never)]
fn token_numeral(text: &[u8]) -> Option<(u64, &[u8])>
    ensures { MatchOption result (first_numeral (tokens text.now) ≡ None)
        (λ r. first_numeral (tokens text.now) ≡ Some (r.0, tokens r.1.now)) }
{
    let (token, rest) = next_token(text)?;
    let n = capped_numeral(token)?;
    Some((n, rest))
}

/// The number of the first token of a line, capped as that of `capped_numeral`, and what stands after the token;
/// nothing if there is no token or it is no numeral.
#[inline(always)]
pub fn next_numeral(text: &[u8]) -> Option<(u64, &[u8])>
    ensures { MatchOption result (first_numeral (tokens text.now) ≡ None)
        (λ r. first_numeral (tokens text.now) ≡ Some (r.0, tokens r.1.now)) }
{
    // A token of at most ten decimal digits, as most are, is read in one pass.
    let trimmed = trim_start(text);
    let digits = leading_digits(trimmed);
    let after = &trimmed[digits.len..];
    if digits.len > 0 && ends_token(after) {
        return Some((digits.value.min(4_294_967_296), after));
    }
    token_numeral(text)
}

/// Is a number from `low` to `high`?
pub fn is_within(low: u32, high: u32, n: u64) -> bool
    ensures { result ≡ is_within low high n }
{
    u64::from(low) <= n && n <= u64::from(high)
}

/// The word that a token of exactly eight hexadecimal digits of either case spells.
pub fn word_of(token: &[u8]) -> Option<u32>
    ensures { result ≡ word_token token.now }
{
    if token.len() != 8 {
        return None;
    }
    match digits(token, 16, 0xffff_ffff) {
        Ok(word) => Some(word as u32),
        Err(_) => None,
    }
}
