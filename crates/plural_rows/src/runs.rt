//! Runs on some cores, whose texts tell the entries in any order.
//!
//! Which core ran an instance, its tickets and the order of the entries are not the same at each run. All else is: the
//! outcomes, what each entry says of its instance, and the memory.

use plural_bytes::Memory;
use std::alloc::Global;

/// A line without what differs between two runs: of an entry its core and its tickets. A line that is none is whole.
fn without_order(line: &str) -> &str {
    if line.starts_with("run ") {
        match line.rsplit_once(" core ") {
            Some((record, _)) => record,
            None => line,
        }
    } else {
        line
    }
}

/// The lines after the first two of an answer, without what differs between two runs, in the order of their bytes. The
/// first two are its status and the line that begins a log.
fn settled(alloc: Global, answer: &str) -> Result<Vec<&str>, Memory> {
    let mut lines = Vec::new(alloc);
    for line in answer.lines().skip(2) {
        lines.push(without_order(line))?;
    }
    lines.sort()?;
    Ok(lines)
}

/// The word after `--cores` among those of a command, which is the number of its cores; none if there is no such word.
fn cores_of(command: &str) -> &str {
    let after = command.split_once("--cores ");
    let word = after.and_then(|(_, rest)| rest.split_whitespace().next());
    word.unwrap_or("")
}

/// The first two lines that the answer to such a command begins with, if it ends with this status.
fn beginning(alloc: Global, command: &str, status: &str) -> Result<String, Memory> {
    let mut text = String::new(alloc);
    for piece in [status, "\nlog 1 cores ", cores_of(command), "\n"] {
        text.push_str(piece)?;
    }
    Ok(text)
}

/// Whether the answer to a run on some cores is the one that a row wants, but for which core ran which instance, the
/// tickets, and the order of the entries.
pub(crate) fn is_wanted_run(
    alloc: Global,
    command: &str,
    answer: &str,
    want: &str,
) -> Result<bool, Memory> {
    let status = want.lines().next().unwrap_or("");
    if !answer.starts_with(beginning(alloc, command, status)?.as_str()) {
        return Ok(false);
    }
    Ok(settled(alloc, answer)? == settled(alloc, want)?)
}

/// What `verify` has to answer to a legal output with as many entries as an answer has.
pub(crate) fn legal_verdict(alloc: Global, answer: &str) -> Result<String, Memory> {
    let entries = answer
        .lines()
        .filter(|line| line.starts_with("run "))
        .count();
    Ok(format!(in alloc; "0\nlegal: entries {entries}\n")?)
}
