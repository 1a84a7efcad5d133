//! Whether a log line fits after the lines before it.
ghost use Rattle.std.specs.Prelude.{◌≡◌, ◌+◌, ◌<◌, ◌≤◌, ℕ, List, length, false, IfErr, IfOk, Some, None};
ghost use Rattle.std.specs.BTreeMap.{get_by};
ghost use Rattle.std.specs.Cmp.Lexicographic.{slice_cmp};
ghost use Rattle.std.specs.Ordering.{nat_cmp};
ghost use Rattle.plural_sections.specs.LineKinds.{ClosesEarly, HasNone, IsVerdict};
ghost use Rattle.plural_log.specs.declared.fault.LogKind.TheVariants.{Form};
ghost use Rattle.plural_log.specs.Numbers.{number_for, task_of};
ghost use Rattle.plural_log.specs.Shape.{shape_of};
ghost use Rattle.plural_log.specs.Faults.{is_out_of_place, is_no_end, is_large, has_large_count, has_large_time, is_out_of_range, is_misnamed, is_too_many, HasKind, rank};
ghost use Rattle.plural_log.specs.Verdicts.{IsFine, IsShapeFault, IsFaultAt};

use crate::fault::LogKind;
use crate::line::{Counts, EndShape, LogLine, Times};
use crate::numbers::number_of;
use crate::shape::shape_of;
use plural_bytes::Name;
use plural_map::Task;
use std::collections::BTreeMap;

fn is_out_of_place(tasks: usize, n: usize, line: &LogLine) -> bool
    ensures { result ≡ is_out_of_place tasks n line.now }
{
    match line {
        LogLine::First { .. } => n != 0,
        LogLine::Task { .. } => !(1 <= n && n <= tasks),
        LogLine::Run { .. } => n <= tasks,
    }
}

fn is_no_end(end: EndShape) -> bool
    ensures { result ≡ is_no_end end }
{
    match end {
        EndShape::Trap { cause, .. } => !(1 <= cause && cause <= 9),
        EndShape::Code0 | EndShape::Code1 | EndShape::Spent => false,
    }
}

fn is_large(n: u64) -> bool
    ensures { result ≡ is_large n }
{
    n > 4_294_967_295
}

fn has_large_count(counts: Counts) -> bool
    ensures { result ≡ has_large_count counts }
{
    is_large(counts.instructions)
        || is_large(counts.loads)
        || is_large(counts.misses)
        || is_large(counts.stores)
}

fn has_large_time(times: Times) -> bool
    ensures { result ≡ has_large_time times }
{
    is_large(times.core) || is_large(times.start) || is_large(times.end_at)
}

fn is_out_of_range(line: &LogLine) -> bool
    ensures { result ≡ is_out_of_range line.now }
{
    match *line {
        LogLine::First { cores } => !(1 <= cores && cores <= 64),
        LogLine::Run {
            k,
            end,
            counts,
            times,
            ..
        } => is_large(k) || is_no_end(end) || has_large_count(counts) || has_large_time(times),
        LogLine::Task { .. } => false,
    }
}

/// The number of the task that a line names, if it is an entry's; the number of tasks if none has the name, and for
/// other lines.
fn task_of(tasks: &[Task], numbers: &BTreeMap<Name, u32>, line: &LogLine) -> u32
    requires few { length tasks.now ≤ 256 }
    requires numbers { (q : List ℕ) → get_by (λ k. slice_cmp nat_cmp q k) numbers.now ≡ number_for tasks.now q }
    ensures { result ≡ task_of tasks.now line.now }
{
    match line {
        LogLine::Run { name, .. } => number_of(tasks, numbers, name),
        LogLine::First { .. } | LogLine::Task { .. } => tasks.len() as u32,
    }
}

fn is_misnamed(tasks: &[Task], task: u32, n: usize, line: &LogLine) -> bool
    requires task { task ≡ task_of tasks.now line.now }
    requires place { is_out_of_place (length tasks.now) n line.now ≡ false }
    ensures { result ≡ is_misnamed tasks.now n line.now }
{
    match line {
        LogLine::Task { name, .. } => tasks[n - 1].name() != name,
        LogLine::Run { .. } => task as usize == tasks.len(),
        LogLine::First { .. } => false,
    }
}

fn is_too_many(entries: usize, line: &LogLine) -> bool
    ensures { result ≡ is_too_many entries line.now }
{
    match line {
        LogLine::Run { .. } => entries >= 65_536,
        LogLine::First { .. } | LogLine::Task { .. } => false,
    }
}

/// The fault of a line of a shape after `n` lines that spell so many entries, if it has one, by the number of the task
/// that it names.
fn verdict(tasks: &[Task], task: u32, n: usize, entries: usize, line: &LogLine) -> Option<LogKind>
    requires { task ≡ task_of tasks.now line.now }
    ensures { IsVerdict rank (HasKind tasks.now n entries line.now) result }
{
    if is_out_of_place(tasks.len(), n, line) {
        return Some(LogKind::Form);
    }
    if is_out_of_range(line) {
        return Some(LogKind::Number);
    }
    if is_misnamed(tasks, task, n, line) {
        return Some(LogKind::Name);
    }
    if is_too_many(entries, line) {
        return Some(LogKind::Count);
    }
    None
}

/// A log line without a fault, and the number of the task that it names, if it is an entry's.
#[derive(Clone, Copy)]
pub(crate) struct FaultlessLine {
    pub line: LogLine,
    pub task: u32,
}

/// What a line that closes the section after `n` lines is read as, or its fault.
fn closing(tasks: usize, n: usize) -> Result<Option<FaultlessLine>, LogKind>
    requires { tasks ≤ 256 }
    ensures ok { IfOk result (λ o. (o ≡ None) × (tasks < n)) }
    ensures fault { IfErr result (λ kind. ClosesEarly Form (tasks + 1) n kind) }
{
    if n < tasks + 1 {
        Err(LogKind::Form)
    } else {
        Ok(None)
    }
}

/// What a line with a text after `n` lines that spell so many entries is read as, or its fault.
fn shaped(
    tasks: &[Task],
    numbers: &BTreeMap<Name, u32>,
    n: usize,
    entries: usize,
    text: &[u8],
) -> Result<FaultlessLine, LogKind>
    requires few { length tasks.now ≤ 256 }
    requires numbers { (q : List ℕ) → get_by (λ k. slice_cmp nat_cmp q k) numbers.now ≡ number_for tasks.now q }
    ensures shape { IfOk result (λ s. Some s.line ≡ shape_of text.now) }
    ensures fine { IfOk result (λ s. HasNone (HasKind tasks.now n entries s.line)) }
    ensures task { IfOk result (λ s. s.task ≡ task_of tasks.now s.line) }
    ensures fault { IfErr result (λ kind. IsShapeFault tasks.now n entries text.now kind) }
{
    let Some(line) = shape_of(text) else {
        return Err(LogKind::Form);
    };
    let task = task_of(tasks, numbers, &line);
    match verdict(tasks, task, n, entries, &line) {
        Some(kind) => Err(kind),
        None => Ok(FaultlessLine { line, task }),
    }
}

/// What a line after `n` lines that spell so many entries is read as, or its fault. A line without text closes the
/// section.
pub(crate) fn checked(
    tasks: &[Task],
    numbers: &BTreeMap<Name, u32>,
    n: usize,
    entries: usize,
    text: &[u8],
) -> Result<Option<FaultlessLine>, LogKind>
    requires few { length tasks.now ≤ 256 }
    requires numbers { (q : List ℕ) → get_by (λ k. slice_cmp nat_cmp q k) numbers.now ≡ number_for tasks.now q }
    ensures fine { IfOk result (λ o. IsFine tasks.now n entries text.now o) }
    ensures fault { IfErr result (λ kind. IsFaultAt tasks.now n entries text.now kind) }
{
    if text.is_empty() {
        return closing(tasks.len(), n);
    }
    let line = shaped(tasks, numbers, n, entries, text)?;
    Ok(Some(line))
}
