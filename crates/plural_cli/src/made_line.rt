//! The line of a run of a made bundle.

ghost use Rattle.std.specs.Prelude.{◌≡◌, ◌<◌, ◌≤◌, ◌++◌, length, map, sum_by, IfOk, OnOk};
ghost use Rattle.std.specs.Fmt.{decimal};
ghost use Rattle.plural_map.specs.Value.{TaskValue};
ghost use Rattle.plural_trace.specs.declared.entry.Entry.{Entry};
ghost use Rattle.plural_cli.specs.Made.{made_line, line_of};

use crate::checking::instance_count;
use plural_bytes::Memory;
use plural_map::Task;
use plural_trace::Entry;
use std::alloc::Global;

/// The word of the memory in which the best of the outputs is left.
const BEST: usize = 32_808;

/// The word in which the result is left.
const RESULT: usize = 32_812;

/// The instructions that the instances of all entries completed, and their stores.
fn work_of(entries: &[Entry]) -> (u64, u64)
    requires { length entries.now ≤ 65536 }
    ensures instructions { result.0 ≡ sum_by (λ (e : Entry). e.rec.instructions) entries.now }
    ensures stores { result.1 ≡ sum_by (λ (e : Entry). e.rec.stores) entries.now }
{
    let mut instructions: u64 = 0;
    let mut stores: u64 = 0;
    for entry in entries {
        instructions += entry.rec.instructions as u64;
        stores += entry.rec.stores as u64;
    }
    (instructions, stores)
}

/// Puts a word and a number after a text.
fn put_number(alloc: Global, text: &mut Vec<u8>, word: &[u8], number: u64) -> Result<(), Memory>
    ensures { OnOk result (text.new.items ≡ (text.old.items ++ word.now) ++ decimal number) }
{
    text.extend_from_slice(word)?;
    text.extend_from_slice(number.to_string(alloc)?.as_bytes())?;
    Ok(())
}

/// The line of so many instances, of which so many ran, with their instructions and stores, and the words of the best
/// and of the result.
fn made_line(
    alloc: Global,
    instances: u32,
    ran: usize,
    work: (u64, u64),
    words: (u32, u32),
) -> Result<Vec<u8>, Memory>
    ensures { IfOk result (λ v. v.items ≡ made_line instances ran work.0 work.1 words.0 words.1) }
{
    let mut text = Vec::new(alloc);
    put_number(alloc, &mut text, b"made: instances ", instances as u64)?;
    put_number(alloc, &mut text, b" ran ", ran as u64)?;
    put_number(alloc, &mut text, b" instructions ", work.0)?;
    put_number(alloc, &mut text, b" stores ", work.1)?;
    put_number(alloc, &mut text, b" best ", words.0 as u64)?;
    put_number(alloc, &mut text, b" result ", words.1 as u64)?;
    text.push(b'\n')?;
    Ok(text)
}

/// The line of the tasks of a made bundle, the entries of its run and the last memory.
pub(crate) fn line_of(
    alloc: Global,
    tasks: &[Task],
    entries: &[Entry],
    last: &[u32],
) -> Result<Vec<u8>, Memory>
    requires instances { sum_by (λ (t : TaskValue). t.quota) tasks.now ≤ 65536 }
    requires few { length entries.now ≤ 65536 }
    requires words { 32812 < length last.now }
    ensures { IfOk result (λ v. v.items ≡ line_of tasks.now (map (λ (e : Entry). e.rec) entries.now) last.now) }
{
    made_line(
        alloc,
        instance_count(tasks),
        entries.len(),
        work_of(entries),
        (last[BEST], last[RESULT]),
    )
}
