//! The map so far, and whether a line fits after it.
ghost use Rattle.std.specs.Prelude.{◌≡◌, ◌≤◌, ◌<◌, length, map, sum, IfNone, OnOk, MatchOption, true, false, nat_le, ⊤, Some, option_map};
ghost use Rattle.std.specs.Option.{option_map_or};
ghost use Rattle.plural_regions.specs.Bounds.{AllInside, IsLeastOutside};
ghost use Rattle.plural_map_text.specs.declared.fault.MapKind.{MapKind};
ghost use Rattle.plural_base.specs.CacheShape.{is_set_count};
ghost use Rattle.plural_map_text.specs.RegionOf.{region_of};
ghost use Rattle.plural_map_text.specs.Parts.{quota_of, is_dup, with_line, with_read, tasks_of};
ghost use Rattle.plural_map.specs.Value.{with_dep, with_region, with_some};
ghost use Rattle.plural_map_text.specs.Rules.{most_words, most_stride, most_tasks, has_joined, has_dep, names_current, current_has_dep, nameable, are_region, is_out_of_place, is_out_of_range, is_misnamed, is_too_many, IsOutsideAt, HasKind, rank, task_count, instance_count};
ghost use Rattle.plural_sections.specs.Numbers.{is_within};
ghost use Rattle.plural_sections.specs.LineKinds.{IsVerdict};
ghost use Rattle.plural_map_text.specs.Verdicts.{IsInsideAt};
ghost use Rattle.plural_map_text.specs.Drafts.{draft_parts};

use crate::fault::MapKind;
use crate::index::Index;
use crate::line::{MapLine, TaskKind};
use arrayvec::ArrayVec;
use plural_bytes::Name;
use plural_map::{Dep, Task, TaskParts, has_task};
use plural_regions::{Mode, Region};
use plural_sections::is_within;
use std::alloc::AllocFailed;

/// The parts of a map that the lines so far spell.
#[derive(Drop)]
pub(crate) struct Draft {
    pub words: u32,
    pub sets: u32,
    pub ways: u32,
    /// The tasks before the current one.
    pub earlier: Vec<Task>,
    /// The task that `after`, `read` and `write` lines belong to.
    pub current: Option<Task>,
}

fn quota_sum(tasks: &[Task]) -> u64
    requires { length tasks.now ≤ 256 }
    ensures { result ≡ sum (map (λ t. t.quota) tasks.now) }
{
    tasks.iter().map(|t| u64::from(t.quota())).sum()
}

fn quota_of(kind: TaskKind) -> u64
    ensures { result ≡ quota_of kind }
{
    match kind {
        TaskKind::Regular => 1,
        TaskKind::Dup { quota } => quota,
    }
}

fn is_dup(kind: TaskKind) -> bool
    ensures { result ≡ is_dup kind }
{
    matches!(kind, TaskKind::Dup { .. })
}

fn is_set_count(sets: u64) -> bool
    ensures { result ≡ is_set_count sets }
{
    matches!(sets, 1 | 2 | 4 | 8 | 16 | 32 | 64)
}

fn has_joined(draft: &Draft) -> bool
    ensures { result ≡ has_joined (draft_parts draft.now) }
{
    match &draft.current {
        None => true,
        Some(task) => task.joins_some(),
    }
}

fn is_out_of_place(version: u32, n: usize, draft: &Draft, line: &MapLine) -> bool
    ensures { result ≡ is_out_of_place version n (draft_parts draft.now) line.now }
{
    match line {
        MapLine::Memory { .. } => n != 0,
        MapLine::Cache { .. } => n != 1,
        MapLine::Task { .. } => n < 2,
        MapLine::After { .. } | MapLine::Region { .. } => n < 2 || draft.current.is_none(),
        MapLine::Join => version != 2 || n < 2 || has_joined(draft),
    }
}

fn most_words(version: u32) -> u32
    ensures { result ≡ most_words version }
{
    if version == 2 { 1_048_576 } else { 65_536 }
}

fn most_stride(version: u32) -> u32
    ensures { result ≡ most_stride version }
{
    if version == 2 { 1_048_575 } else { 65_535 }
}

fn most_tasks(version: u32) -> usize
    ensures { result ≡ most_tasks version }
{
    if version == 2 { 256 } else { 64 }
}

fn is_region(version: u32, base: u64, stride: u64, count: u64) -> bool
    ensures { result ≡ are_region version base stride count }
{
    is_within(0, most_stride(version), base)
        && is_within(0, most_stride(version), stride)
        && is_within(1, most_words(version), count)
}

fn is_out_of_range(version: u32, line: &MapLine) -> bool
    ensures { result ≡ is_out_of_range version line.now }
{
    match *line {
        MapLine::Memory { words } => {
            !(is_within(8, most_words(version), words) && words % 8 == 0)
        }
        MapLine::Cache { sets, ways } => { !(is_set_count(sets) && is_within(1, 4, ways)) }
        MapLine::Task { kind, budget, .. } => {
            !(is_within(1, 16_384, quota_of(kind)) && is_within(1, 100_000_000, budget))
        }
        MapLine::Region {
            base,
            stride,
            count,
            ..
        } => !is_region(version, base, stride, count),
        MapLine::After { .. } | MapLine::Join => false,
    }
}

fn has_dep(task: &Task, number: usize) -> bool
    ensures { result ≡ has_dep number task.now }
{
    task.deps().iter().any(|d| d.task as usize == number)
}

fn nameable(version: u32, names: &Index<'_>, draft: &Draft) -> usize
    ensures { result ≡ nameable version names.now (draft_parts draft.now) }
{
    if version == 2 {
        names.len()
    } else {
        draft.earlier.len()
    }
}

fn is_misnamed(
    version: u32,
    labels: &Index<'_>,
    names: &Index<'_>,
    draft: &Draft,
    line: &MapLine,
) -> bool
    ensures { result ≡ is_misnamed version labels.now names.now (draft_parts draft.now) line.now }
{
    match line {
        MapLine::Task { name, entry, .. } => {
            has_task(&draft.earlier, name) || names_current(draft, name) || !labels.has(entry)
        }
        MapLine::After { name, .. } => {
            let place = names.place_of(name);
            place >= nameable(version, names, draft) || current_has_dep(draft, place)
        }
        MapLine::Memory { .. } | MapLine::Cache { .. } | MapLine::Join | MapLine::Region { .. } => {
            false
        }
    }
}

fn names_current(draft: &Draft, name: &Name) -> bool
    ensures { result ≡ names_current (draft_parts draft.now) name.now }
{
    match &draft.current {
        None => false,
        Some(task) => task.name() == name,
    }
}

fn current_has_dep(draft: &Draft, number: usize) -> bool
    ensures { result ≡ current_has_dep (draft_parts draft.now) number }
{
    match &draft.current {
        None => false,
        Some(task) => has_dep(task, number),
    }
}

fn task_count(draft: &Draft) -> usize
    requires { length draft.now.earlier.items ≤ 256 }
    ensures { result ≡ task_count (draft_parts draft.now) }
{
    match &draft.current {
        None => draft.earlier.len(),
        Some(_) => draft.earlier.len() + 1,
    }
}

fn instance_count(draft: &Draft) -> u64
    requires few { length draft.now.earlier.items ≤ 256 }
    requires quotas { instance_count (draft_parts draft.now) ≤ 65536 }
    ensures { result ≡ instance_count (draft_parts draft.now) }
{
    let earlier = quota_sum(&draft.earlier);
    match &draft.current {
        None => earlier,
        Some(task) => earlier + u64::from(task.quota()),
    }
}

fn has_all_deps(draft: &Draft) -> bool
    ensures { result ≡ option_map_or (λ t. nat_le 16 (length t.deps)) draft.now.current false }
{
    match &draft.current {
        None => false,
        Some(task) => task.deps().len() >= 16,
    }
}

fn has_all_regions(draft: &Draft) -> bool
    ensures { result ≡ option_map_or (λ t. nat_le 8 (length t.regions)) draft.now.current false }
{
    match &draft.current {
        None => false,
        Some(task) => task.regions().len() >= 8,
    }
}

fn is_too_many(version: u32, draft: &Draft, line: &MapLine) -> bool
    requires few { length draft.now.earlier.items ≤ 256 }
    requires quotas { instance_count (draft_parts draft.now) ≤ 65536 }
    ensures { result ≡ is_too_many version (draft_parts draft.now) line.now }
{
    match *line {
        MapLine::Task { kind, .. } => {
            task_count(draft) >= most_tasks(version)
                || quota_of(kind) > 65_536 - instance_count(draft)
        }
        MapLine::After { .. } => has_all_deps(draft),
        MapLine::Region { .. } => has_all_regions(draft),
        MapLine::Memory { .. } | MapLine::Cache { .. } | MapLine::Join => false,
    }
}

fn region_of(mode: Mode, base: u64, stride: u64, count: u64) -> Region
    requires base { base ≤ 1048575 }
    requires stride { stride ≤ 1048575 }
    requires count { (1 ≤ count) × (count ≤ 1048576) }
    ensures { result ≡ region_of mode base stride count }
{
    Region {
        mode,
        base: base as u32,
        stride: stride as u32,
        count: count as u32,
    }
}

fn region_outside(draft: &Draft, region: &Region) -> Option<u32>
    ensures { MatchOption result
        (MatchOption draft.now.current ⊤ (λ t. AllInside region.now t.quota draft.now.words))
        (λ k. MatchOption draft.now.current ⊥ (λ t. IsLeastOutside region.now t.quota draft.now.words k)) }
{
    match &draft.current {
        None => None,
        Some(task) => match region.inside(task.quota(), draft.words) {
            Ok(()) => None,
            Err(outside) => Some(outside.k),
        },
    }
}

fn first_outside(version: u32, draft: &Draft, line: &MapLine) -> Option<u32>
    requires { is_out_of_range version line.now ≡ false }
    ensures { MatchOption result
        (IsInsideAt (draft_parts draft.now) line.now)
        (λ k. IsOutsideAt (draft_parts draft.now) line.now k) }
{
    match *line {
        MapLine::Region {
            mode,
            base,
            stride,
            count,
        } => {
            let region = region_of(mode, base, stride, count);
            region_outside(draft, &region)
        }
        _ => None,
    }
}

/// The fault of a line of a shape, after `n` lines that spell the draft.
pub(crate) fn verdict(
    version: u32,
    labels: &Index<'_>,
    names: &Index<'_>,
    n: usize,
    draft: &Draft,
    line: &MapLine,
) -> Option<MapKind>
    requires few { length draft.now.earlier.items ≤ 256 }
    requires quotas { instance_count (draft_parts draft.now) ≤ 65536 }
    ensures verdict { IsVerdict rank (HasKind version labels.now names.now n (draft_parts draft.now) line.now) result }
    ensures inside { IfNone result (IsInsideAt (draft_parts draft.now) line.now) }
{
    if is_out_of_place(version, n, draft, line) {
        return Some(MapKind::Form);
    }
    if is_out_of_range(version, line) {
        return Some(MapKind::Number);
    }
    if is_misnamed(version, labels, names, draft, line) {
        return Some(MapKind::Name);
    }
    if is_too_many(version, draft, line) {
        return Some(MapKind::Count);
    }
    match first_outside(version, draft, line) {
        Some(k) => Some(MapKind::Outside { k }),
        None => None,
    }
}

fn open_task(draft: &mut Draft, task: Task) -> Result<(), AllocFailed<Task>>
    ensures { OnOk result (draft_parts draft.new
        ≡ record (draft_parts draft.old) { earlier = tasks_of (draft_parts draft.old); current = Some task }) }
{
    match draft.current.replace(task) {
        None => Ok(()),
        Some(before) => draft.earlier.push(before),
    }
}

fn add_dep(draft: &mut Draft, dep: Dep)
    requires { option_map_or (λ t. nat_le 16 (length t.deps)) draft.old.current false ≡ false }
    ensures { draft_parts draft.new
        ≡ record (draft_parts draft.old) { current = option_map (with_dep dep) draft.old.current } }
{
    match &mut draft.current {
        None => {}
        Some(task) => task.add_dep(dep),
    }
}

fn join_some(draft: &mut Draft)
    ensures { draft_parts draft.new
        ≡ record (draft_parts draft.old) { current = option_map with_some draft.old.current } }
{
    match &mut draft.current {
        None => {}
        Some(task) => task.join_some(),
    }
}

fn add_region(draft: &mut Draft, region: Region)
    requires { option_map_or (λ t. nat_le 8 (length t.regions)) draft.old.current false ≡ false }
    ensures { draft_parts draft.new
        ≡ record (draft_parts draft.old) { current = option_map (with_region region) draft.old.current } }
{
    match &mut draft.current {
        None => {}
        Some(task) => task.add_region(region),
    }
}

fn add_line(
    version: u32,
    names: &Index<'_>,
    draft: &mut Draft,
    line: &MapLine,
) -> Result<(), AllocFailed<Task>>
    requires range { is_out_of_range version line.now ≡ false }
    requires room { is_too_many version (draft_parts draft.old) line.now ≡ false }
    requires names { length names.now < 4294967296 }
    ensures { OnOk result (draft_parts draft.new ≡ with_line names.now (draft_parts draft.old) line.now) }
{
    match *line {
        MapLine::Memory { words } => {
            draft.words = words as u32;
            Ok(())
        }
        MapLine::Cache { sets, ways } => {
            draft.sets = sets as u32;
            draft.ways = ways as u32;
            Ok(())
        }
        MapLine::Task {
            name,
            kind,
            entry,
            budget,
        } => {
            let task = Task::of(TaskParts {
                name,
                dup: is_dup(kind),
                quota: quota_of(kind) as u32,
                entry,
                budget: budget as u32,
                some: false,
                deps: ArrayVec::new(),
                regions: ArrayVec::new(),
            });
            open_task(draft, task)
        }
        MapLine::After { name, when } => {
            let task = names.place_of(&name) as u32;
            add_dep(draft, Dep { task, when });
            Ok(())
        }
        MapLine::Join => {
            join_some(draft);
            Ok(())
        }
        MapLine::Region {
            mode,
            base,
            stride,
            count,
        } => {
            add_region(draft, region_of(mode, base, stride, count));
            Ok(())
        }
    }
}

/// Adds what a line without a fault was read as; the line that closes the section adds nothing.
pub(crate) fn add(
    version: u32,
    names: &Index<'_>,
    draft: &mut Draft,
    read: &Option<MapLine>,
) -> Result<(), AllocFailed<Task>>
    requires range { MatchOption read.now ⊤ (λ line. is_out_of_range version line ≡ false) }
    requires room { MatchOption read.now ⊤ (λ line. is_too_many version (draft_parts draft.old) line ≡ false) }
    requires names { length names.now < 4294967296 }
    ensures { OnOk result (draft_parts draft.new ≡ with_read names.now (draft_parts draft.old) read.now) }
{
    match read {
        None => Ok(()),
        Some(line) => add_line(version, names, draft, line),
    }
}
