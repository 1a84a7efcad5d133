//! Numerals of any length.

ghost use Rattle.std.specs.Prelude.{◌≡◌, ℕ, ◌+◌, ◌*◌, ◌<◌, ◌≤◌, length};
ghost use Rattle.plural_bytes.specs.Numerals.{bounded, spelled, numeral, within};

/// Why a text is no number.
#[derive(Clone, Copy, Debug, PartialEq, Eq)]
pub enum NumberError {
    /// It is no numeral.
    Form,
    /// It is above the limit.
    Range,
}

/// A number with one more digit, and nothing once it is above the limit.
fn with_digit(value: Option<u64>, base: u32, digit: u32, limit: u64) -> Option<u64>
    requires base { 1 ≤ base }
    ensures { (n : ℕ) → value ≡ bounded limit n → result ≡ bounded limit (n * base + digit) }
{
    let value = value?;
    let next = value
        .checked_mul(u64::from(base))?
        .checked_add(u64::from(digit))?;
    if next > limit { None } else { Some(next) }
}

/// The same of as few digits as a u64 always holds.
#[inline(always)]
fn short_digits(text: &[u8], base: u32, limit: u64) -> Result<u64, NumberError>
    requires base { (2 ≤ base) × (base ≤ 16) }
    requires some { 0 < length text.now }
    requires few { length text.now ≤ 15 }
    ensures { result ≡ within limit (spelled base text.now) }
{
    let mut value: u64 = 0;
    for c in text {
        match char::from(*c).to_digit(base) {
            None => return Err(NumberError::Form),
            Some(digit) => value = value * u64::from(base) + u64::from(digit),
        }
    }
    if value > limit {
        Err(NumberError::Range)
    } else {
        Ok(value)
    }
}

/// The same of more digits.
fn long_digits(text: &[u8], base: u32, limit: u64) -> Result<u64, NumberError>
    requires base { (2 ≤ base) × (base ≤ 16) }
    requires some { 0 < length text.now }
    ensures { result ≡ within limit (spelled base text.now) }
{
    let mut value = Some(0);
    for c in text {
        match char::from(*c).to_digit(base) {
            None => return Err(NumberError::Form),
            Some(digit) => value = with_digit(value, base, digit, limit),
        }
    }
    match value {
        None => Err(NumberError::Range),
        Some(n) => Ok(n),
    }
}

/// The number that digits of a base from 2 to 16 spell, the highest first, if it isn't above
/// `limit`. Digits above 9 are letters of either case.
#[inline(always)]
pub fn digits(text: &[u8], base: u32, limit: u64) -> Result<u64, NumberError>
    requires base { (2 ≤ base) × (base ≤ 16) }
    ensures { result ≡ within limit (spelled base text.now) }
{
    if text.is_empty() {
        Err(NumberError::Form)
    } else if text.len() <= 15 {
        short_digits(text, base, limit)
    } else {
        long_digits(text, base, limit)
    }
}

/// The number that a numeral spells, if it isn't above `limit`. A numeral is one or more decimal
/// digits, or `0x` and one or more hexadecimal digits of either case.
pub fn number(text: &[u8], limit: u64) -> Result<u64, NumberError>
    ensures { result ≡ within limit (numeral text.now) }
{
    match text.strip_prefix(b"0x") {
        Some(rest) => digits(rest, 16, limit),
        None => digits(text, 10, limit),
    }
}
