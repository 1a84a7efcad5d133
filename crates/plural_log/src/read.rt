//! Reading log lines.
ghost use Rattle.std.specs.Prelude.{◌≡◌, ◌≤◌, ◌<◌, ◌^◌, ℕ, List, length, false, OnOk, IfOk, IfErr, MatchOption, MatchResult, ⊤};
ghost use Rattle.std.specs.List.{All};
ghost use Rattle.plural_sections.specs.Faults.{IsFaultless, closed};
ghost use Rattle.plural_bytes.specs.Spelled.{text_lines};
ghost use Rattle.plural_map.specs.Lookup.{number_of};
ghost use Rattle.plural_map.specs.Value.{TaskValue};
ghost use Rattle.plural_trace.specs.declared.entry.Entry.{Entry};
ghost use Rattle.plural_sections.specs.declared.line_error.LineError.TheVariants.{Memory};
ghost use Rattle.plural_log.specs.Numbers.{task_of};
ghost use Rattle.plural_log.specs.Spelled.{end_value, entry_value, with_line, log_by, log_of};
ghost use Rattle.plural_log.specs.Faults.{is_no_end, is_out_of_range, Breaks, Faults};
ghost use Rattle.plural_log.specs.Verdicts.{with_read};

use crate::fault::{LogError, LogKind};
use crate::judge_line::{FaultlessLine, checked};
use crate::line::{Counts, EndShape, LogLine, Times};
use crate::numbers::numbers;
use plural_bytes::Line;
use plural_core::End;
use plural_map::{Map, Outcome};
use plural_serial::Record;
use plural_trace::{Entry, Log};
use std::alloc::Global;

fn end_value(end: EndShape) -> End
    requires { is_no_end end ≡ false }
    ensures { result ≡ end_value end }
{
    match end {
        EndShape::Code0 => End::Code0,
        EndShape::Code1 => End::Code1,
        EndShape::Trap { cause, pc } => End::Trap {
            cause: cause as u8,
            pc,
        },
        EndShape::Spent => End::Exhausted,
    }
}

/// The entry of a line that names the task of this number.
fn entry_value(task: u32, k: u64, end: EndShape, counts: Counts, times: Times) -> Entry
    requires k { k < 2 ^ 32 }
    requires end { is_no_end end ≡ false }
    requires counts { (counts.instructions < 2 ^ 32) × (counts.loads < 2 ^ 32)
        × (counts.misses < 2 ^ 32) × (counts.stores < 2 ^ 32) }
    requires times { (times.core < 2 ^ 32) × (times.start < 2 ^ 32) × (times.end_at < 2 ^ 32) }
    ensures { (tasks : List TaskValue) (name : List ℕ) → task ≡ number_of name tasks
        → result ≡ entry_value tasks name k end counts times }
{
    let rec = Record {
        t: task,
        k: k as u32,
        end: end_value(end),
        instructions: counts.instructions as u32,
        loads: counts.loads as u32,
        misses: counts.misses as u32,
        stores: counts.stores as u32,
    };
    Entry {
        rec,
        core: times.core as u32,
        start: times.start as u32,
        end_at: times.end_at as u32,
    }
}

/// Adds a line that has no fault, by the number of the task that it names.
fn add_line(
    cores: &mut u32,
    outcomes: &mut Vec<Outcome>,
    entries: &mut Vec<Entry>,
    task: u32,
    line: &LogLine,
) -> Result<(), LogError>
    requires range { is_out_of_range line.now ≡ false }
    ensures ok { OnOk result ((tasks : List TaskValue) → task ≡ task_of tasks line.now
        → log_by cores.new outcomes.new.items entries.new.items
        ≡ with_line tasks (log_by cores.old outcomes.old.items entries.old.items) line.now) }
    ensures err { IfErr result (λ e. e ≡ Memory) }
{
    match *line {
        LogLine::First { cores: given } => *cores = given as u32,
        LogLine::Task { outcome, .. } => outcomes.push(outcome)?,
        LogLine::Run {
            k,
            end,
            counts,
            times,
            ..
        } => entries.push(entry_value(task, k, end, counts, times))?,
    }
    Ok(())
}

/// Adds what a line without a fault was read as; the line that closes the section adds nothing.
fn add(
    cores: &mut u32,
    outcomes: &mut Vec<Outcome>,
    entries: &mut Vec<Entry>,
    read: &Option<FaultlessLine>,
) -> Result<(), LogError>
    requires range { MatchOption read.now ⊤ (λ s. is_out_of_range s.line ≡ false) }
    ensures ok { OnOk result ((tasks : List TaskValue) → MatchOption read.now ⊤ (λ s. s.task ≡ task_of tasks s.line)
        → log_by cores.new outcomes.new.items entries.new.items
        ≡ with_read tasks (log_by cores.old outcomes.old.items entries.old.items) read.now) }
    ensures err { IfErr result (λ e. e ≡ Memory) }
{
    match read {
        None => Ok(()),
        Some(found) => add_line(cores, outcomes, entries, found.task, &found.line),
    }
}

/// The log that log lines of a run of the map spell, or their first fault.
///
/// `end` is the number of the line that closes the section.
pub fn read_log(alloc: Global, map: &Map, lines: &[Line<'_>], end: u32) -> Result<Log, LogError>
    ensures answer { MatchResult result
        (λ log. IsFaultless (Breaks map.now.tasks) (closed (text_lines lines.now) end)
        × (log ≡ log_of map.now.tasks (text_lines lines.now)))
        (λ e. Faults map.now.tasks (closed (text_lines lines.now) end) e) }
    ensures one_each { IfOk result (λ log. length log.outcomes ≡ length map.now.tasks) }
    ensures few { IfOk result (λ log. length log.entries ≤ 65536) }
    ensures tasks { IfOk result (λ log. All (λ (e : Entry). e.rec.t < length map.now.tasks) log.entries) }
{
    let tasks = map.tasks();
    let numbers = numbers(alloc, tasks)?;
    let mut cores = 0;
    let mut outcomes = Vec::new(alloc);
    let mut entries = Vec::new(alloc);
    for (n, line) in lines.iter().enumerate() {
        match checked(tasks, &numbers, n, entries.len(), line.text) {
            Ok(read) => add(&mut cores, &mut outcomes, &mut entries, &read)?,
            Err(kind) => {
                let line = line.number;
                return Err(LogError::At { line, kind });
            }
        }
    }
    if lines.len() <= tasks.len() {
        let kind = LogKind::Form;
        return Err(LogError::At { line: end, kind });
    }
    Ok(Log::of(cores, outcomes, entries))
}
