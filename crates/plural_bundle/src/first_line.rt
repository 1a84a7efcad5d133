//! The first line of a bundle.

ghost use Rattle.std.specs.Prelude.{◌≡◌, ◌⊎◌, Some, IfOk, MatchResult};
ghost use Rattle.plural_bytes.specs.Numerals.{numeral};
ghost use Rattle.plural_bytes.specs.Spelled.{text_lines};
ghost use Rattle.plural_bundle.specs.FirstLine.{version_read, first_line, IsBegun, IsBadFirst};

use crate::fault::BundleError;
use plural_bytes::{Line, NumberError, is_word, next_token, number};
use plural_sections::{Fault, first_number, first_text};

/// The last version of bundles that is read; the first is 1.
const LAST_VERSION: u64 = 2;

/// What follows the first line of a bundle.
#[derive(Clone, Copy)]
pub(crate) struct Begun<'a, 'b> {
    /// The version that the first line tells.
    pub(crate) version: u32,
    /// The lines after it.
    pub(crate) rest: &'a [Line<'b>],
}

fn version_known(version: u64) -> Result<u32, Fault>
    ensures read { result ≡ version_read (Some version) }
    ensures known { IfOk result (λ v. (v ≡ 1) ⊎ (v ≡ 2)) }
{
    match version {
        1 => Ok(1),
        2 => Ok(2),
        _ => Err(Fault::Number),
    }
}

fn version_read(text: &[u8]) -> Result<u32, Fault>
    ensures read { result ≡ version_read (numeral text.now) }
    ensures known { IfOk result (λ v. (v ≡ 1) ⊎ (v ≡ 2)) }
{
    match number(text, LAST_VERSION) {
        Ok(version) => version_known(version),
        Err(NumberError::Form) => Err(Fault::Form),
        Err(NumberError::Range) => Err(Fault::Number),
    }
}

/// The version that a first line tells: it is `plural` and a version that is read.
fn first_line(text: &[u8]) -> Result<u32, Fault>
    ensures told { result ≡ first_line text.now }
    ensures known { IfOk result (λ v. (v ≡ 1) ⊎ (v ≡ 2)) }
{
    let (word, rest) = match next_token(text) {
        None => return Err(Fault::Form),
        Some(found) => found,
    };
    let (version, rest) = match next_token(rest) {
        None => return Err(Fault::Form),
        Some(found) => found,
    };
    if next_token(rest).is_some() || !is_word(word, b"plural") {
        return Err(Fault::Form);
    }
    version_read(version)
}

/// The version that the first line of a bundle tells, and the lines after it; or its fault.
pub(crate) fn after_first_line<'a, 'b>(
    lines: &'a [Line<'b>],
    end: u32,
) -> Result<Begun<'a, 'b>, BundleError>
    ensures answer { MatchResult result
        (λ b. IsBegun (text_lines lines.now) (text_lines b.rest.now) b.version)
        (IsBadFirst (text_lines lines.now) end) }
    ensures known { IfOk result (λ b. (b.version ≡ 1) ⊎ (b.version ≡ 2)) }
{
    match first_line(first_text(lines)) {
        Err(fault) => Err(BundleError::At {
            line: first_number(lines, end),
            kind: fault,
        }),
        Ok(version) => Ok(Begun {
            version,
            rest: &lines[1..],
        }),
    }
}
