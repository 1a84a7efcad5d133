//! The least kind of fault that a line has.

ghost use Rattle.std.specs.Prelude.{◌≡◌};
ghost use Rattle.std.specs.BTreeMap.{get_by};
ghost use Rattle.std.specs.Cmp.Lexicographic.{slice_cmp};
ghost use Rattle.std.specs.Ordering.{nat_cmp};
ghost use Rattle.plural_sections.specs.LineKinds.{IsVerdict};
ghost use Rattle.plural_asm.specs.Rules.{is_out_of_range, is_defined, is_unknown, is_far, HasKind, rank};

use crate::object::AsmKind;
use crate::offset::Offset;
use crate::places::words_in;
use plural_bytes::Name;
use plural_statement::{KernelLine, Statement};
use std::collections::BTreeMap;

fn is_out_of_range(statement: Option<Statement>) -> bool
    ensures { result ≡ is_out_of_range statement }
{
    match statement {
        Some(Statement::Known { word }) => word.is_none(),
        Some(Statement::Li { value, .. }) => value.is_none(),
        _ => false,
    }
}

fn is_defined(earlier: &BTreeMap<Name, u64>, label: Option<Name>) -> bool
    ensures { result ≡ is_defined (λ q. get_by (λ k. slice_cmp nat_cmp q k) earlier.now) label }
{
    match label {
        Some(name) => earlier.get(&name).copied().is_some(),
        None => false,
    }
}

fn is_unknown(offset: Option<Offset>) -> bool
    ensures { result ≡ is_unknown offset }
{
    matches!(offset, Some(Offset::Unknown))
}

fn is_far(offset: Option<Offset>) -> bool
    ensures { result ≡ is_far offset }
{
    matches!(offset, Some(Offset::Far))
}

/// The least kind of fault of a line after so many words and labels, with the labels of the earlier
/// lines and the offset of its target.
pub(crate) fn verdict(
    earlier: &BTreeMap<Name, u64>,
    here: u32,
    labels: usize,
    line: &KernelLine,
    offset: Option<Offset>,
) -> Option<AsmKind>
    ensures { IsVerdict rank
        (HasKind (λ q. get_by (λ k. slice_cmp nat_cmp q k) earlier.now) here labels line.now offset) result }
{
    if line.statement.is_none() {
        return Some(AsmKind::Form);
    }
    if is_out_of_range(line.statement) {
        return Some(AsmKind::Number);
    }
    if is_defined(earlier, line.label) || is_unknown(offset) {
        return Some(AsmKind::Name);
    }
    if u64::from(here) + u64::from(words_in(line.statement)) > 16384
        || (line.label.is_some() && labels >= 16384)
    {
        return Some(AsmKind::Count);
    }
    if is_far(offset) {
        return Some(AsmKind::Reach);
    }
    None
}
