//! The rows of a text, one after another.

use crate::input::{changed, lost_changes, spelled};
use crate::runs::{is_wanted_run, legal_verdict};
use plural_bytes::{MemSink, MemSource, Memory, put, put_number};
use plural_cli::{OpenGate, plural};
use std::alloc::Global;
use std::thread::Threads;

/// What the rows so far came to.
#[derive(Drop)]
struct Tally {
    rows: u32,
    commands: u32,
    /// The commands that were answered otherwise.
    others: u32,
    /// The changes that speak of a line that isn't there.
    lost: u32,
    /// Those commands, each with its answer.
    report: Vec<u8>,
}

/// What the program answers to a command over an input: its status in a line, and its text.
fn answer<R: Threads + Sync>(
    rt: &R,
    alloc: Global,
    command: &str,
    input: &str,
) -> Result<Vec<u8>, Memory> {
    let mut words = Vec::new(alloc);
    for word in command.split_whitespace() {
        words.push(String::from_str(alloc, word)?)?;
    }
    let bytes = Vec::from_slice(alloc, input.as_bytes())?;
    let mut source = MemSource::new(bytes, 1000, Vec::new(alloc));
    let mut sink = MemSink::new(alloc, 1_000_000, 10_000, Vec::new(alloc))?;
    let mut kept = None;
    let status = plural(
        rt,
        alloc,
        &words,
        &mut source,
        &mut sink,
        &OpenGate,
        &mut kept,
    );
    let mut answer = Vec::new(alloc);
    put_number(&mut answer, status.into())?;
    put(&mut answer, b"\n")?;
    put(&mut answer, sink.bytes())?;
    Ok(answer)
}

/// A command of a row.
#[derive(Clone, Copy)]
struct Command<'r> {
    words: &'r str,
    /// Whether its text may tell the entries in any order.
    is_run: bool,
}

/// The command that a line of a row speaks of; none if it is no command.
fn command_of(line: &str) -> Option<Command<'_>> {
    if let Some(words) = line.strip_prefix("$ ") {
        Some(Command {
            words,
            is_run: false,
        })
    } else if let Some(words) = line.strip_prefix("~ ") {
        Some(Command {
            words,
            is_run: true,
        })
    } else {
        None
    }
}

/// Whether `verify` finds the output of a run legal, which was given this input and was answered so.
fn is_legal<R: Threads + Sync>(
    rt: &R,
    alloc: Global,
    input: &str,
    answered: &str,
) -> Result<bool, Memory> {
    let mut whole = String::from_str(alloc, input)?;
    if let Some((_, output)) = answered.split_once("\n") {
        whole.push_str(output)?;
        whole.push_str("\n")?;
    }
    let verdict = answer(rt, alloc, "verify", &whole)?;
    Ok(verdict.as_slice() == legal_verdict(alloc, answered)?.as_bytes())
}

/// Whether an answer is the one that a row wants; the end of its last line isn't in the row's text.
fn is_wanted<R: Threads + Sync>(
    rt: &R,
    alloc: Global,
    command: &Command<'_>,
    input: &str,
    answer: &[u8],
    want: &str,
) -> Result<bool, Memory> {
    let Some(answer) = answer.strip_suffix(b"\n") else {
        return Ok(false);
    };
    if !command.is_run {
        return Ok(answer == want.as_bytes());
    }
    let Ok(answer) = str::from_utf8(answer) else {
        return Ok(false);
    };
    Ok(is_wanted_run(alloc, command.words, answer, want)? && is_legal(rt, alloc, input, answer)?)
}

/// Lets the program answer one command of the row with this title.
fn try_command<R: Threads + Sync>(
    rt: &R,
    alloc: Global,
    tally: &mut Tally,
    title: &str,
    command: &Command<'_>,
    input: &str,
    want: &str,
) -> Result<(), Memory> {
    let answer = answer(rt, alloc, command.words, input)?;
    tally.commands = tally.commands.saturating_add(1);
    if !is_wanted(rt, alloc, command, input, &answer, want)? {
        tally.others = tally.others.saturating_add(1);
        put(&mut tally.report, b"== ")?;
        put(&mut tally.report, title.as_bytes())?;
        put(&mut tally.report, b"\n$ ")?;
        put(&mut tally.report, command.words.as_bytes())?;
        put(&mut tally.report, b"\n=> ")?;
        put(&mut tally.report, &answer)?;
    }
    Ok(())
}

/// Answers the commands of one row, and gives what it spells out, or nothing if it changes what was spelled out before.
fn try_row<R: Threads + Sync>(
    rt: &R,
    alloc: Global,
    tally: &mut Tally,
    row: &str,
    before: &str,
) -> Result<Option<String>, Memory> {
    let (head, want) = row.split_once("\n=> ").unwrap_or((row, ""));
    let change = changed(alloc, head, before)?;
    let text = spelled(alloc, head)?;
    let input = match &change {
        Some(change) => change,
        None => &text,
    };
    tally.rows = tally.rows.saturating_add(1);
    tally.lost = tally.lost.saturating_add(lost_changes(head, before));
    let title = head.lines().next().unwrap_or("");
    for line in head.lines().skip(1) {
        if let Some(command) = command_of(line) {
            try_command(rt, alloc, tally, title, &command, input, want)?;
        }
    }
    match change {
        Some(_) => Ok(None),
        None => Ok(Some(text)),
    }
}

/// What the rows of a text come to: whether each command was answered as its row wants, and a text with the commands
/// that weren't, each with its answer, and a line with the counts.
pub(crate) fn report<R: Threads + Sync>(
    rt: &R,
    alloc: Global,
    rows: &str,
) -> Result<(bool, Vec<u8>), Memory> {
    let mut tally = Tally {
        rows: 0,
        commands: 0,
        others: 0,
        lost: 0,
        report: Vec::new(alloc),
    };
    let mut before = String::new(alloc);
    let rows = rows.strip_suffix("\n").unwrap_or(rows);
    for row in rows.split("\n\n== ").skip(1) {
        if let Some(text) = try_row(rt, alloc, &mut tally, row, &before)? {
            before = text;
        }
    }
    let is_well = tally.others == 0 && tally.lost == 0;
    let mut report = tally.report;
    put(&mut report, b"rows ")?;
    put_number(&mut report, tally.rows)?;
    put(&mut report, b" commands ")?;
    put_number(&mut report, tally.commands)?;
    put(&mut report, b" answered otherwise ")?;
    put_number(&mut report, tally.others)?;
    put(&mut report, b" changes of no line ")?;
    put_number(&mut report, tally.lost)?;
    put(&mut report, b"\n")?;
    Ok((is_well, report))
}
