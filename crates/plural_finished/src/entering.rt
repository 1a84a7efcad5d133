//! The entries of done instances, read off the closed words.
ghost use Rattle.std.specs.Prelude.{◌≡◌, ◌+◌, ◌≤◌, ◌<◌, ◌/◌, ◌^◌, [], vec_capacity};
ghost use Rattle.std.specs.List.Sorted.{IsPermutation, IsNonDecreasingBy};
ghost use Rattle.plural_trace.specs.RecordWords.{end_of_word};
ghost use Rattle.plural_trace.specs.declared.entry.Entry.{Entry};
ghost use Rattle.plural_rule.specs.Opening.{IsInstance, task_count, quota_of};
ghost use Rattle.plural_words.specs.Fields.{number_of};
ghost use Rattle.plural_finished.specs.Rooms.{instance_count};
ghost use Rattle.plural_finished.specs.Finishing.{IsClosedRun, IsDone, word_of, entry_in, AreEntries};
ghost use Rattle.plural_finished.specs.Entering.{HasEntered};

use plural_core::End;
use plural_serial::{Program, Record};
use plural_trace::Entry;
use plural_words::{Closed, Field};

// The end that a word tells.
fn end_of(word: u64) -> End
    requires { word / 2 ^ 32 < 2 ^ 8 }
    ensures { result ≡ end_of_word word }
{
    match word {
        0 => End::Code0,
        1 => End::Code1,
        2 => End::Exhausted,
        _ => End::Trap {
            cause: (word / (1 << 32)) as u8,
            pc: (word % (1 << 32)) as u32,
        },
    }
}

// A number of the record of instance k of task t.
fn number(closed: &Closed, t: u32, k: u32, field: Field) -> u32
    requires instance { IsInstance closed.now.opening.program t k }
    requires low { word_of closed.now t k (number_of field) < 2 ^ 32 }
    ensures { result ≡ word_of closed.now t k (number_of field) }
{
    closed.record(t, k, field) as u32
}

// The entry of instance k of task t, which is done.
fn entry(closed: &Closed, t: u32, k: u32) -> Entry
    requires run { IsClosedRun closed.now }
    requires done { IsDone closed.now t k }
    ensures { result ≡ entry_in closed.now t k }
{
    let rec = Record {
        t,
        k,
        end: end_of(closed.record(t, k, Field::End)),
        instructions: number(closed, t, k, Field::Instructions),
        loads: number(closed, t, k, Field::Loads),
        misses: number(closed, t, k, Field::Misses),
        stores: number(closed, t, k, Field::Stores),
    };
    Entry {
        rec,
        core: number(closed, t, k, Field::Core),
        start: number(closed, t, k, Field::Start),
        end_at: number(closed, t, k, Field::Done) - 1,
    }
}

// Enters instance k of task t if it is done.
fn enter(closed: &Closed, entries: &mut Vec<Entry>, t: u32, k: u32)
    requires run { IsClosedRun closed.now }
    requires instance { IsInstance closed.now.opening.program t k }
    requires room { instance_count closed.now.opening.program ≤ vec_capacity entries.old }
    requires entered { HasEntered closed.now t k entries.old.items }
    ensures room { vec_capacity entries.new ≡ vec_capacity entries.old }
    ensures entered { HasEntered closed.now t (k + 1) entries.new.items }
{
    if closed.record(t, k, Field::Done) != 0 {
        entries.push_reserved(entry(closed, t, k));
    }
}

// Enters the done instances of task t.
fn enter_task(closed: &Closed, entries: &mut Vec<Entry>, t: u32, quota: u32)
    requires run { IsClosedRun closed.now }
    requires task { t < task_count closed.now.opening.program }
    requires quota { quota ≡ quota_of closed.now.opening.program t }
    requires room { instance_count closed.now.opening.program ≤ vec_capacity entries.old }
    requires entered { HasEntered closed.now t 0 entries.old.items }
    ensures room { vec_capacity entries.new ≡ vec_capacity entries.old }
    ensures entered { HasEntered closed.now (t + 1) 0 entries.new.items }
{
    for k in 0..quota {
        enter(closed, entries, t, k);
    }
}

// Enters all done instances.
fn enter_tasks(closed: &Closed, program: &Program, entries: &mut Vec<Entry>)
    requires run { IsClosedRun closed.now }
    requires program { program.now ≡ closed.now.opening.program }
    requires room { instance_count program.now ≤ vec_capacity entries.old }
    requires empty { entries.old.items ≡ [] }
    ensures { HasEntered closed.now (task_count program.now) 0 entries.new.items }
{
    for t in 0..program.map().tasks().len() as u32 {
        enter_task(closed, entries, t, program.task(t).quota());
    }
}

// Puts the entries in the order of their starts.
fn sort(entries: &mut Vec<Entry>)
    ensures permutation { IsPermutation entries.old.items entries.new.items }
    ensures sorted { IsNonDecreasingBy (λ (e : Entry). e.start) entries.new.items }
{
    entries.sort_unstable_by_key(|e| e.start);
}

/// Reads the entries of all done instances, in the order of their starts.
pub(crate) fn fill_entries(closed: &Closed, program: &Program, entries: &mut Vec<Entry>)
    requires run { IsClosedRun closed.now }
    requires program { program.now ≡ closed.now.opening.program }
    requires room { instance_count program.now ≤ vec_capacity entries.old }
    requires empty { entries.old.items ≡ [] }
    ensures { AreEntries closed.now entries.new.items }
{
    enter_tasks(closed, program, entries);
    sort(entries);
}
