//! An input that has to be a bundle.

ghost use Rattle.std.specs.Prelude.{◌≡◌, ◌≤◌, ◌++◌, length, IfOk, OnOk};
ghost use Rattle.plural_bytes.specs.Spelled.{text_lines};
ghost use Rattle.plural_cli.specs.FaultLine.{bundle_fault_text, fault_text, names_text};
ghost use Rattle.plural_cli.specs.Reading.{IsReading, IsReadingOf};

use crate::answer::{Answer, fault_answer};
use plural_bundle::{Bundle, BundleError, Fault, read_bundle};
use plural_bytes::{Line, Memory, Name, line_count, put, split};
use std::alloc::Global;

/// What an input is that has to be a bundle.
#[derive(Drop)]
pub(crate) enum Reading {
    /// A bundle.
    Whole(Bundle),
    /// No bundle: the answer that tells its first fault.
    Faulty(Answer),
}

/// Appends names to `word`, each after a space.
fn put_names(word: &mut Vec<u8>, names: &[Name]) -> Result<(), Memory>
    ensures { OnOk result (word.new.items ≡ word.old.items ++ names_text names.now) }
{
    for name in names {
        put(word, b" ")?;
        put(word, name.bytes())?;
    }
    Ok(())
}

/// The word for a fault of a bundle.
fn fault_word(alloc: Global, fault: Fault) -> Result<Vec<u8>, Memory>
    ensures { IfOk result (λ v. v.items ≡ bundle_fault_text fault) }
{
    let mut word = Vec::new(alloc);
    match fault {
        Fault::Form => word.extend_from_slice(b"form")?,
        Fault::Number => word.extend_from_slice(b"number")?,
        Fault::Name => word.extend_from_slice(b"name")?,
        Fault::Count => word.extend_from_slice(b"count")?,
        Fault::Reach => word.extend_from_slice(b"reach")?,
        Fault::Address => word.extend_from_slice(b"address")?,
        Fault::Outside { k } => {
            word.extend_from_slice(b"outside ")?;
            word.extend_from_slice(k.to_string(alloc)?.as_bytes())?;
        }
        Fault::Cycle { names } => {
            word.extend_from_slice(b"cycle")?;
            put_names(&mut word, names.list())?;
        }
    }
    Ok(word)
}

/// The answer that tells a fault of the line of this number.
pub(crate) fn bundle_fault(alloc: Global, line: u32, fault: Fault) -> Result<Answer, Memory>
    ensures { IfOk result (λ a. (a.status ≡ 3) × (a.text.items ≡ fault_text line (bundle_fault_text fault))) }
{
    let word = fault_word(alloc, fault)?;
    fault_answer(alloc, line, &word)
}

/// What content lines of an input are. `end` is the number of the line after the input's last.
pub(crate) fn read_lines<'b>(
    alloc: Global,
    input: &[Line<'b>],
    lines: &[Line<'b>],
    end: u32,
) -> Result<Reading, Memory>
    ensures { IfOk result (λ r. IsReading (text_lines input.now) (text_lines lines.now) end r) }
{
    match read_bundle(alloc, input, lines, end) {
        Ok(bundle) => Ok(Reading::Whole(bundle)),
        Err(BundleError::At { line, kind }) => {
            Ok(Reading::Faulty(bundle_fault(alloc, line, kind)?))
        }
        Err(BundleError::Memory) => Err(Memory),
    }
}

/// What an input is that is not too long.
pub(crate) fn read(alloc: Global, bytes: &[u8]) -> Result<Reading, Memory>
    requires { length bytes.now ≤ 16777216 }
    ensures { IfOk result (IsReadingOf bytes.now) }
{
    let lines = split(alloc, bytes)?;
    let lines = lines.as_slice();
    read_lines(alloc, lines, lines, line_count(bytes) + 1)
}
