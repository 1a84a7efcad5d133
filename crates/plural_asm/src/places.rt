//! How many words lines make, and the first places of their labels.

ghost use Rattle.std.specs.Prelude.{◌≡◌, ◌≤◌, ℕ, List, None, false, is_some, IfOk, bytes_eq, if◌then◌else◌};
ghost use Rattle.std.specs.BTreeMap.{get_by};
ghost use Rattle.std.specs.Cmp.Lexicographic.{slice_cmp};
ghost use Rattle.std.specs.Ordering.{nat_cmp};
ghost use Rattle.plural_bytes.specs.Spelled.{text_lines};
ghost use Rattle.plural_asm.specs.Labels.{is_short, li_size, words_in, place_of, noted, is_option};

use plural_bytes::{Line, Memory, Name};
use plural_statement::{Statement, Target, line_of};
use std::alloc::Global;
use std::collections::BTreeMap;
use std::marker::Model;

/// Whether a word modulo 2^32 is from -2,048 to 2,047 as a signed number.
pub(crate) fn is_short(word: u32) -> bool
    ensures { result ≡ is_short word }
{
    word < 2048 || 0xffff_f800 <= word
}

fn li_size(word: u32) -> u32
    ensures value { result ≡ li_size word }
    ensures few { result ≤ 2 }
{
    if is_short(word) || word % 4096 == 0 {
        1
    } else {
        2
    }
}

/// How many words an instruction makes; one with a fault of form or number counts as one.
pub(crate) fn words_in(statement: Option<Statement>) -> u32
    ensures value { result ≡ words_in statement }
    ensures few { result ≤ 2 }
{
    match statement {
        Some(Statement::Nothing) => 0,
        Some(
            Statement::Li {
                value: Some(word),
                ..
            },
        ) => li_size(word),
        _ => 1,
    }
}

/// Notes a label's place, if it has none yet.
fn note(places: &mut BTreeMap<Name, u64>, name: Name, place: u64) -> Result<(), Memory>
    ensures { IfOk result (λ _. (q : List ℕ) → get_by (λ k. slice_cmp nat_cmp q k) places.new
        ≡ noted (get_by (λ k. slice_cmp nat_cmp q k) places.old) (bytes_eq name q) place) }
{
    match places.insert(name, place)? {
        None => Ok(()),
        // The label has a place, which it keeps.
        Some(first) => {
            places.insert(name, first)?;
            Ok(())
        }
    }
}

/// Notes the label of a line, if it has one.
pub(crate) fn note_label(
    places: &mut BTreeMap<Name, u64>,
    label: Option<Name>,
    place: u64,
) -> Result<(), Memory>
    ensures { IfOk result (λ _. (q : List ℕ) → get_by (λ k. slice_cmp nat_cmp q k) places.new
        ≡ noted (get_by (λ k. slice_cmp nat_cmp q k) places.old) (is_option label q) place) }
{
    match label {
        Some(name) => note(places, name, place),
        None => Ok(()),
    }
}

/// What is known of a label after one more line.
fn noted(old: Option<u64>, here: bool, place: u64) -> Option<u64>
    ensures { result ≡ noted old here place }
{
    match old {
        Some(first) => Some(first),
        None => { if here { Some(place) } else { None } }
    }
}

/// Is this the name that there may be?
fn is_option(label: Option<Name>, name: &Name) -> bool
    ensures { result ≡ is_option label name.now }
{
    match label {
        Some(one) => one == *name,
        None => false,
    }
}

/// The first place of a label, in words, by a look at each line.
fn place_in(lines: &[Line<'_>], name: &Name) -> Option<u64>
    ensures { result ≡ place_of (text_lines lines.now) name.now }
{
    let mut found = None;
    let mut place: u64 = 0;
    for line in lines {
        let kernel = line_of(line.text);
        found = noted(found, is_option(kernel.label, name), place);
        place += u64::from(words_in(kernel.statement));
    }
    found
}

fn label_in(target: Target) -> Option<Name> {
    match target {
        Target::Label { name } => Some(name),
        Target::Offset { .. } => None,
    }
}

/// The label that an instruction has as its target, if it has one.
fn target_label(statement: Option<Statement>) -> Option<Name> {
    match statement {
        Some(Statement::Jump { target, .. }) => label_in(target),
        Some(Statement::Branch { target, .. }) => label_in(target),
        _ => None,
    }
}

/// The labels that the first 16,384 instructions with one have as their targets. No line after these is without a
/// fault, since each makes a word.
fn told(alloc: Global, lines: &[Line<'_>]) -> Result<BTreeMap<Name, u64>, Memory> {
    let mut told = BTreeMap::new(alloc);
    let mut left: u32 = 16384;
    for line in lines {
        if left == 0 {
            return Ok(told);
        }
        if let Some(name) = target_label(line_of(line.text).statement) {
            told.insert(name, 0)?;
            left -= 1;
        }
    }
    Ok(told)
}

/// Notes the label of a line, if it has one that is told.
fn note_told(
    told: &BTreeMap<Name, u64>,
    places: &mut BTreeMap<Name, u64>,
    label: Option<Name>,
    place: u64,
) -> Result<(), Memory>
    requires { (q : List ℕ) → is_some (get_by (λ k. slice_cmp nat_cmp q k) told.now) ≡ false
        → get_by (λ k. slice_cmp nat_cmp q k) places.old ≡ None }
    ensures { IfOk result (λ _. (q : List ℕ) → get_by (λ k. slice_cmp nat_cmp q k) places.new
        ≡ (if is_some (get_by (λ k. slice_cmp nat_cmp q k) told.now)
        then noted (get_by (λ k. slice_cmp nat_cmp q k) places.old) (is_option label q) place else None)) }
{
    match label {
        Some(name) => {
            if told.contains_key(&name) {
                note(places, name, place)
            } else {
                Ok(())
            }
        }
        None => Ok(()),
    }
}

/// The first place of each label that is told, in words.
fn told_places(
    alloc: Global,
    told: &BTreeMap<Name, u64>,
    lines: &[Line<'_>],
) -> Result<BTreeMap<Name, u64>, Memory>
    ensures { IfOk result (λ m. (q : List ℕ) → get_by (λ k. slice_cmp nat_cmp q k) m
        ≡ (if is_some (get_by (λ k. slice_cmp nat_cmp q k) told.now)
        then place_of (text_lines lines.now) q else None)) }
{
    let mut places = BTreeMap::new(alloc);
    let mut place: u64 = 0;
    for line in lines {
        let kernel = line_of(line.text);
        note_told(told, &mut places, kernel.label, place)?;
        place += u64::from(words_in(kernel.statement));
    }
    Ok(places)
}

/// Kernel lines, in which the first places of labels are found, in words: those of labels that are targets by an
/// ordered map, any other by a look at each line.
#[derive(Drop)]
pub(crate) struct Places<'a> {
    lines: &'a [Line<'a>],
    kept: BTreeMap<Name, u64>,
}

impl<'a> Model for Places<'a> {
    ghost use Rattle.std.specs.Prelude.{◌≡◌, ℕ, List};
    ghost use Rattle.std.specs.BTreeMap.{get_by};
    ghost use Rattle.std.specs.Cmp.Lexicographic.{slice_cmp};
    ghost use Rattle.std.specs.Ordering.{nat_cmp};
    ghost use Rattle.plural_bytes.specs.Lines.{TextLine};
    ghost use Rattle.plural_bytes.specs.Spelled.{text_lines};
    ghost use Rattle.plural_asm.specs.Labels.{place_of, AgreesWith};

    ghost Value = { List TextLine };

    ghost view = { λ p. text_lines p.lines.now };

    ghost invariant = { λ p. (q : List ℕ)
        → AgreesWith (get_by (λ k. slice_cmp nat_cmp q k) p.kept) (place_of (text_lines p.lines.now) q) };
}

impl<'a> Places<'a> {
    /// The places of the labels of these lines.
    pub(crate) fn of(alloc: Global, lines: &'a [Line<'a>]) -> Result<Places<'a>, Memory>
        ensures { IfOk result (λ p. p ≡ text_lines lines.now) }
    {
        let told = told(alloc, lines)?;
        let kept = told_places(alloc, &told, lines)?;
        Ok(Places { lines, kept })
    }

    /// The first place of a label, in words, or None for a name that is no label.
    pub(crate) fn get(&self, name: &Name) -> Option<u64>
        ensures { result ≡ place_of self.now name.now }
    {
        match self.kept.get(name).copied() {
            Some(place) => Some(place),
            None => place_in(self.lines, name),
        }
    }
}
