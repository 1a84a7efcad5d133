//! The offset of a target from a place.

ghost use Rattle.std.specs.Prelude.{◌≡◌, ◌≤◌, ◌*◌, ◌%◌, None, pos, neg_ℤ, ◌-ℤ◌};
ghost use Rattle.plural_statement.specs.declared.statement.Target.TheVariants as target;
ghost use Rattle.plural_asm.specs.Labels.{place_of};
ghost use Rattle.plural_asm.specs.Words.{is_near, reaches, offset_in, offset_at, IsReached, target_offset};

use crate::places::Places;
use plural_bytes::Name;
use plural_statement::{Statement, Target};

/// How far a jump and a branch reach: from `-half` to `half - 2`, in bytes.
pub(crate) const JUMP_HALF: u32 = 1_048_576;

pub(crate) const BRANCH_HALF: u32 = 4096;

/// The offset of a target.
#[derive(Clone, Copy, Debug)]
pub enum Offset {
    /// The target's name is no label.
    Unknown,
    /// The offset is out of the instruction's range, or odd.
    Far,
    /// The offset, in bytes.
    At { bytes: i32 },
}

fn is_near(n: u64, half: u32, parity: u64) -> bool
    ensures { result ≡ is_near n half parity }
{
    n < u64::from(half) && n % 2 == parity
}

fn reaches(bytes: i64, half: u32) -> bool
    ensures { result ≡ reaches half bytes }
{
    if bytes < 0 {
        is_near((-1 - bytes) as u64, half, 1)
    } else {
        is_near(bytes as u64, half, 0)
    }
}

fn offset_in(bytes: i64, half: u32) -> Offset
    requires even { half % 2 ≡ 0 }
    requires half { half ≤ 1048576 }
    ensures value { result ≡ offset_in half bytes }
    ensures reached { IsReached half result }
{
    if reaches(bytes, half) {
        Offset::At {
            bytes: bytes as i32,
        }
    } else {
        Offset::Far
    }
}

fn numeral_offset(bytes: Option<i32>, half: u32) -> Offset
    requires even { half % 2 ≡ 0 }
    requires half { half ≤ 1048576 }
    ensures value { result ≡ offset_at (λ q. None) 0 half (target.Offset bytes) }
    ensures reached { IsReached half result }
{
    match bytes {
        None => Offset::Far,
        Some(bytes) => offset_in(i64::from(bytes), half),
    }
}

/// The offset of a place that is `words` after the instruction.
fn ahead(words: u64, half: u32) -> Offset
    requires even { half % 2 ≡ 0 }
    requires half { half ≤ 1048576 }
    ensures value { result ≡ offset_in half (pos (4 * words)) }
    ensures reached { IsReached half result }
{
    if words < 1_048_576 {
        offset_in(4 * words as i64, half)
    } else {
        Offset::Far
    }
}

/// The offset of a place that is `words` before the instruction.
fn back(words: u64, half: u32) -> Offset
    requires even { half % 2 ≡ 0 }
    requires half { half ≤ 1048576 }
    ensures value { result ≡ offset_in half (neg_ℤ (pos (4 * words))) }
    ensures reached { IsReached half result }
{
    if words < 1_048_576 {
        offset_in(-(4 * words as i64), half)
    } else {
        Offset::Far
    }
}

/// The offset of a place from the place `here`, both in words.
fn distance(place: u64, here: u32, half: u32) -> Offset
    requires even { half % 2 ≡ 0 }
    requires half { half ≤ 1048576 }
    ensures value { result ≡ offset_in half (pos (4 * place) -ℤ pos (4 * here)) }
    ensures reached { IsReached half result }
{
    let here = u64::from(here);
    if here <= place {
        ahead(place - here, half)
    } else {
        back(here - place, half)
    }
}

fn label_offset(places: &Places<'_>, here: u32, half: u32, name: Name) -> Offset
    requires even { half % 2 ≡ 0 }
    requires half { half ≤ 1048576 }
    ensures value { result
        ≡ offset_at (λ q. place_of places.now q) here half (target.Label name) }
    ensures reached { IsReached half result }
{
    match places.get(&name) {
        None => Offset::Unknown,
        Some(place) => distance(place, here, half),
    }
}

/// The offset of a target from the place `here`, in words, for an instruction that reaches from
/// `-half` to `half - 1` bytes.
pub(crate) fn offset_at(places: &Places<'_>, here: u32, half: u32, target: Target) -> Offset
    requires even { half % 2 ≡ 0 }
    requires half { half ≤ 1048576 }
    ensures value { result ≡ offset_at (λ q. place_of places.now q) here half target }
    ensures reached { IsReached half result }
{
    match target {
        Target::Offset { bytes } => numeral_offset(bytes, half),
        Target::Label { name } => label_offset(places, here, half, name),
    }
}

/// The offset of an instruction's target, if it has a target.
pub(crate) fn target_offset(
    places: &Places<'_>,
    here: u32,
    statement: Option<Statement>,
) -> Option<Offset>
    ensures { result ≡ target_offset (λ q. place_of places.now q) here statement }
{
    match statement {
        Some(Statement::Jump { target, .. }) => { Some(offset_at(places, here, JUMP_HALF, target)) }
        Some(Statement::Branch { target, .. }) => {
            Some(offset_at(places, here, BRANCH_HALF, target))
        }
        _ => None,
    }
}
