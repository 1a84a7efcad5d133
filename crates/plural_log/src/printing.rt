//! The canonical lines of a log.
ghost use Rattle.std.specs.Prelude.{◌≡◌, ◌<◌, ◌++◌, flat_map, length, OnOk, IfOk};
ghost use Rattle.std.specs.List.{All};
ghost use Rattle.plural_bytes.specs.Hexadecimal.{hex_text};
ghost use Rattle.plural_trace.specs.declared.entry.Entry.{Entry};
ghost use Rattle.plural_core.specs.declared.end.End.TheVariants.{Trap};
ghost use Rattle.plural_log.specs.Print.{outcome_text, task_text, task_texts, end_text, counts_text, times_text, entry_text, log_text};

use plural_bytes::{Memory, hex, put, put_number};
use plural_core::End;
use plural_map::{Map, Outcome, Task};
use plural_map_text::put_name_at;
use plural_serial::Record;
use plural_trace::{Entry, Log};
use std::alloc::Global;

fn outcome_text(outcome: Outcome) -> &'static [u8]
    ensures { result.now ≡ outcome_text outcome }
{
    match outcome {
        Outcome::Ended0 => b"ended 0",
        Outcome::Ended1 => b"ended 1",
        Outcome::Skipped => b"skipped",
        Outcome::Failed => b"failed",
    }
}

fn put_task(out: &mut Vec<u8>, task: &Task, outcome: Outcome) -> Result<(), Memory>
    ensures { OnOk result (out.new.items ≡ out.old.items ++ task_text task.now outcome) }
{
    put(out, b"task ")?;
    put(out, task.name().bytes())?;
    put(out, b" ")?;
    put(out, outcome_text(outcome))?;
    put(out, b"\n")
}

fn put_tasks(out: &mut Vec<u8>, tasks: &[Task], outcomes: &[Outcome]) -> Result<(), Memory>
    requires { length outcomes.now ≡ length tasks.now }
    ensures { OnOk result (out.new.items ≡ out.old.items ++ task_texts tasks.now outcomes.now) }
{
    for (t, task) in tasks.iter().enumerate() {
        put_task(out, task, outcomes[t])?;
    }
    Ok(())
}

/// Puts the eight hexadecimal digits of a word.
fn put_word(out: &mut Vec<u8>, word: u32) -> Result<(), Memory>
    ensures { OnOk result (out.new.items ≡ out.old.items ++ hex_text 8 word) }
{
    put(out, &hex(word))
}

fn put_trap(out: &mut Vec<u8>, cause: u8, pc: u32) -> Result<(), Memory>
    ensures { OnOk result (out.new.items ≡ out.old.items ++ end_text (Trap cause pc)) }
{
    put(out, b"trap ")?;
    put_number(out, u32::from(cause))?;
    put(out, b" pc ")?;
    put_word(out, pc)
}

fn put_end(out: &mut Vec<u8>, end: End) -> Result<(), Memory>
    ensures { OnOk result (out.new.items ≡ out.old.items ++ end_text end) }
{
    match end {
        End::Code0 => put(out, b"code 0"),
        End::Code1 => put(out, b"code 1"),
        End::Trap { cause, pc } => put_trap(out, cause, pc),
        End::Exhausted => put(out, b"spent"),
    }
}

fn put_counts(out: &mut Vec<u8>, rec: &Record) -> Result<(), Memory>
    ensures { OnOk result (out.new.items ≡ out.old.items ++ counts_text rec.now) }
{
    put(out, b" n ")?;
    put_number(out, rec.instructions)?;
    put(out, b" loads ")?;
    put_number(out, rec.loads)?;
    put(out, b" misses ")?;
    put_number(out, rec.misses)?;
    put(out, b" stores ")?;
    put_number(out, rec.stores)
}

fn put_times(out: &mut Vec<u8>, entry: &Entry) -> Result<(), Memory>
    ensures { OnOk result (out.new.items ≡ out.old.items ++ times_text entry.now) }
{
    put(out, b" core ")?;
    put_number(out, entry.core)?;
    put(out, b" from ")?;
    put_number(out, entry.start)?;
    put(out, b" to ")?;
    put_number(out, entry.end_at)?;
    put(out, b"\n")
}

fn put_entry(out: &mut Vec<u8>, tasks: &[Task], entry: &Entry) -> Result<(), Memory>
    ensures { OnOk result (out.new.items ≡ out.old.items ++ entry_text tasks.now entry.now) }
{
    put(out, b"run ")?;
    put_name_at(out, tasks, entry.rec.t)?;
    put(out, b" ")?;
    put_number(out, entry.rec.k)?;
    put(out, b" ")?;
    put_end(out, entry.rec.end)?;
    put_counts(out, &entry.rec)?;
    put_times(out, entry)
}

fn put_entries(out: &mut Vec<u8>, tasks: &[Task], entries: &[Entry]) -> Result<(), Memory>
    ensures { OnOk result (out.new.items ≡ out.old.items ++ flat_map (entry_text tasks.now) entries.now) }
{
    for entry in entries {
        put_entry(out, tasks, entry)?;
    }
    Ok(())
}

/// The canonical lines of a log of a run of the map, which has one outcome for each task, and whose entries are of
/// its tasks.
pub fn print_log(alloc: Global, map: &Map, log: &Log) -> Result<Vec<u8>, Memory>
    requires one_each { length log.now.outcomes ≡ length map.now.tasks }
    requires tasks { All (λ (e : Entry). e.rec.t < length map.now.tasks) log.now.entries }
    ensures { IfOk result (λ v. v.items ≡ log_text map.now log.now) }
{
    let mut out = Vec::new(alloc);
    put(&mut out, b"log 1 cores ")?;
    put_number(&mut out, log.cores())?;
    put(&mut out, b"\n")?;
    put_tasks(&mut out, map.tasks(), log.outcomes())?;
    put_entries(&mut out, map.tasks(), log.entries())?;
    Ok(out)
}
