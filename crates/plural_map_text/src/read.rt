//! Reading map lines.
ghost use Rattle.std.specs.Prelude.{◌≡◌, ◌<◌, ◌≤◌, ◌++◌, ◌⊎◌, length, Some, None, IfOk, IfErr, OnOk, MatchResult};
ghost use Rattle.std.specs.Option.{option_to_list};
ghost use Rattle.plural_bytes.specs.Spelled.{text_lines};
ghost use Rattle.plural_sections.specs.LineKinds.{ClosesEarly, HasNone};
ghost use Rattle.plural_sections.specs.declared.line_error.LineError.TheVariants.{Memory};
ghost use Rattle.plural_map_text.specs.declared.fault.MapKind.TheVariants.{Form};
ghost use Rattle.plural_map.specs.Cycle.{ReachesAll};
ghost use Rattle.plural_map_text.specs.Shape.{shape_of};
ghost use Rattle.plural_map_text.specs.Parts.{map_of, whole, tasks_of, name_told, task_names};
ghost use Rattle.plural_map_text.specs.Near.{IsNearMap, IsCycleAt};
ghost use Rattle.plural_map_text.specs.Rules.{HasKind, IsMapText, Faults, instance_count};
ghost use Rattle.plural_map_text.specs.Verdicts.{IsInsideAt, IsFine, IsShapeFault, IsFaultAt};
ghost use Rattle.plural_map_text.specs.Drafts.{draft_parts};

use crate::draft::{Draft, add, verdict};
use crate::fault::{MapError, MapKind};
use crate::index::Index;
use crate::line::MapLine;
use crate::shape::shape_of;
use plural_bytes::{Line, Name};
use plural_map::{Map, Task, cycle, order};
use std::alloc::Global;

/// What a line that closes the section after `n` lines is read as, or its fault.
fn closing(n: usize) -> Result<Option<MapLine>, MapKind>
    ensures ok { IfOk result (λ o. (o ≡ None) × (2 ≤ n)) }
    ensures fault { IfErr result (λ kind. ClosesEarly Form 2 n kind) }
{
    if n < 2 { Err(MapKind::Form) } else { Ok(None) }
}

/// What a line with a text after `n` lines that spell the draft is read as, or its fault.
fn shaped(
    version: u32,
    labels: &Index<'_>,
    names: &Index<'_>,
    n: usize,
    draft: &Draft,
    text: &[u8],
) -> Result<MapLine, MapKind>
    requires few { length draft.now.earlier.items ≤ 256 }
    requires quotas { instance_count (draft_parts draft.now) ≤ 65536 }
    ensures shape { IfOk result (λ s. Some s ≡ shape_of text.now) }
    ensures fine { IfOk result (λ s. HasNone (HasKind version labels.now names.now n (draft_parts draft.now) s)) }
    ensures inside { IfOk result (λ s. IsInsideAt (draft_parts draft.now) s) }
    ensures fault { IfErr result
        (λ kind. IsShapeFault version labels.now names.now n (draft_parts draft.now) text.now kind) }
{
    match shape_of(text) {
        None => Err(MapKind::Form),
        Some(line) => match verdict(version, labels, names, n, draft, &line) {
            Some(kind) => Err(kind),
            None => Ok(line),
        },
    }
}

/// What a line after `n` lines that spell the draft is read as, or its fault. A line without text closes the section.
fn checked(
    version: u32,
    labels: &Index<'_>,
    names: &Index<'_>,
    n: usize,
    draft: &Draft,
    text: &[u8],
) -> Result<Option<MapLine>, MapKind>
    requires few { length draft.now.earlier.items ≤ 256 }
    requires quotas { instance_count (draft_parts draft.now) ≤ 65536 }
    ensures fine { IfOk result (λ o. IsFine version labels.now names.now n (draft_parts draft.now) text.now o) }
    ensures fault { IfErr result
        (λ kind. IsFaultAt version labels.now names.now n (draft_parts draft.now) text.now kind) }
{
    if text.is_empty() {
        return closing(n);
    }
    let line = shaped(version, labels, names, n, draft, text)?;
    Ok(Some(line))
}

fn all_tasks(earlier: Vec<Task>, current: Option<Task>) -> Result<Vec<Task>, MapError>
    ensures ok { IfOk result (λ v. v.items ≡ earlier.items ++ option_to_list current) }
    ensures err { IfErr result (λ e. e ≡ Memory) }
{
    let mut tasks = earlier;
    match current {
        None => Ok(tasks),
        Some(task) => {
            tasks.push(task)?;
            Ok(tasks)
        }
    }
}

fn name_told(line: &MapLine) -> Option<Name>
    ensures { option_to_list result ≡ name_told (Some line.now) }
{
    match line {
        MapLine::Task { name, .. } => Some(*name),
        _ => None,
    }
}

/// The name of a line that has the shape of a task line.
fn told_name(text: &[u8]) -> Option<Name>
    ensures { option_to_list result ≡ name_told (shape_of text.now) }
{
    match shape_of(text) {
        None => None,
        Some(line) => name_told(&line),
    }
}

fn push_names(names: &mut Vec<Name>, name: Option<Name>) -> Result<(), MapError>
    requires { length names.old.items < 4294967296 }
    ensures ok { OnOk result (names.new.items ≡ names.old.items ++ option_to_list name) }
    ensures few { OnOk result (length names.new.items < 4294967296) }
    ensures err { IfErr result (λ e. e ≡ Memory) }
{
    match name {
        None => Ok(()),
        Some(_) if names.len() >= 4_294_967_295 => Err(MapError::Memory),
        Some(name) => Ok(names.push(name)?),
    }
}

/// The names of the lines that have the shape of a task line, in their order.
fn task_names(alloc: Global, lines: &[Line<'_>]) -> Result<Vec<Name>, MapError>
    ensures names { IfOk result (λ v. v.items ≡ task_names (text_lines lines.now)) }
    ensures few { IfOk result (λ v. length v.items < 4294967296) }
    ensures err { IfErr result (λ e. e ≡ Memory) }
{
    let mut names = Vec::new(alloc);
    for line in lines {
        push_names(&mut names, told_name(line.text))?;
    }
    Ok(names)
}

/// What lines ask for: the labels that task lines name as entries, and the tasks that `after` lines name.
#[derive(Drop)]
struct Asked {
    entries: Vec<Name>,
    predecessors: Vec<Name>,
}

fn ask(asked: &mut Asked, line: &MapLine) -> Result<(), MapError>
    ensures { IfErr result (λ e. e ≡ Memory) }
{
    match line {
        MapLine::Task { entry, .. } => Ok(asked.entries.push(*entry)?),
        MapLine::After { name, .. } => Ok(asked.predecessors.push(*name)?),
        _ => Ok(()),
    }
}

/// What the first lines ask for: as many as a section without a fault has at most, `memory`, `cache` and 256 tasks with
/// 16 dependencies, `join some` and 8 regions each, and one more.
fn asked_by(alloc: Global, lines: &[Line<'_>]) -> Result<Asked, MapError>
    ensures { IfErr result (λ e. e ≡ Memory) }
{
    let mut asked = Asked {
        entries: Vec::new(alloc),
        predecessors: Vec::new(alloc),
    };
    for line in lines.iter().take(6659) {
        match shape_of(line.text) {
            None => {}
            Some(shape) => ask(&mut asked, &shape)?,
        }
    }
    Ok(asked)
}

fn finish(alloc: Global, draft: Draft, end: u32) -> Result<Map, MapError>
    requires limits { IsNearMap (draft_parts draft) }
    ensures { MatchResult result
        (λ m. (m ≡ whole (draft_parts draft)) × ReachesAll (tasks_of (draft_parts draft)))
        (IsCycleAt end (tasks_of (draft_parts draft))) }
{
    let tasks = all_tasks(draft.earlier, draft.current)?;
    let reached = order(alloc, &tasks)?;
    if reached.numbers().len() < tasks.len() {
        let names = cycle(alloc, &tasks, &reached)?;
        let kind = MapKind::Cycle { names };
        return Err(MapError::At { line: end, kind });
    }
    Ok(Map::of(
        draft.words,
        draft.sets,
        draft.ways,
        tasks,
        reached.into_numbers(),
    ))
}

/// The map that map lines spell, or their first fault, with the labels and the names of the task lines looked up.
fn parsed(
    alloc: Global,
    lines: &[Line<'_>],
    labels: &Index<'_>,
    names: &Index<'_>,
    end: u32,
    version: u32,
) -> Result<Map, MapError>
    requires version { (version ≡ 1) ⊎ (version ≡ 2) }
    requires names { names.now ≡ task_names (text_lines lines.now) }
    requires few { length names.now < 4294967296 }
    ensures { MatchResult result
        (λ m. IsMapText version labels.now (text_lines lines.now) end × (m ≡ map_of (text_lines lines.now)))
        (λ e. Faults version labels.now (text_lines lines.now) end e) }
{
    let mut draft = Draft {
        words: 0,
        sets: 0,
        ways: 0,
        earlier: Vec::new(alloc),
        current: None,
    };
    for (n, line) in lines.iter().enumerate() {
        match checked(version, labels, names, n, &draft, line.text) {
            Ok(read) => add(version, names, &mut draft, &read)?,
            Err(kind) => {
                let line = line.number;
                return Err(MapError::At { line, kind });
            }
        }
    }
    if lines.len() < 2 {
        let kind = MapKind::Form;
        return Err(MapError::At { line: end, kind });
    }
    finish(alloc, draft, end)
}

/// The map that map lines spell, or their first fault.
///
/// `labels` are the names that an entry may be, `end` is the number of the line that closes the section, and `version`
/// that of the bundle, which is 1 or 2.
pub fn parse(
    alloc: Global,
    lines: &[Line<'_>],
    labels: &[Name],
    end: u32,
    version: u32,
) -> Result<Map, MapError>
    requires { (version ≡ 1) ⊎ (version ≡ 2) }
    ensures { MatchResult result
        (λ m. IsMapText version labels.now (text_lines lines.now) end × (m ≡ map_of (text_lines lines.now)))
        (λ e. Faults version labels.now (text_lines lines.now) end e) }
{
    let told = task_names(alloc, lines)?;
    let asked = asked_by(alloc, lines)?;
    let labels = Index::of(alloc, labels, &asked.entries)?;
    let names = Index::of(alloc, &told, &asked.predecessors)?;
    parsed(alloc, lines, &labels, &names, end, version)
}
