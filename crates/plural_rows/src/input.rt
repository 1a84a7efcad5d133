//! The input of a row.

use plural_bytes::Memory;
use std::alloc::Global;

/// A text with another line in the place of the one of this number, counted from 1.
fn with_line(alloc: Global, text: &str, number: usize, other: &str) -> Result<String, Memory> {
    let mut out = String::new(alloc);
    for (i, line) in text.lines().enumerate() {
        let is_that = i.checked_add(1) == Some(number);
        out.push_str(if is_that { other } else { line })?;
        out.push_str("\n")?;
    }
    Ok(out)
}

/// The number of the line that a change of a row speaks of, and the line that stands there instead; none if `line` is
/// no change.
fn change_of(line: &str) -> Option<(usize, &str)> {
    let change = line.strip_prefix("% ")?;
    let (number, other) = change.split_once(" ").unwrap_or((change, ""));
    Some((number.parse::<usize>().unwrap_or(0), other))
}

/// How many changes of a row speak of a line that the text doesn't have.
pub(crate) fn lost_changes(head: &str, text: &str) -> u32 {
    let lines = text.lines().count();
    let mut lost: u32 = 0;
    for line in head.lines().skip(1) {
        if let Some((number, _)) = change_of(line)
            && (number == 0 || number > lines)
        {
            lost = lost.saturating_add(1);
        }
    }
    lost
}

/// The lines that a row spells out: those that are neither its title, nor a command, nor a change.
pub(crate) fn spelled(alloc: Global, head: &str) -> Result<String, Memory> {
    let mut out = String::new(alloc);
    for line in head.lines().skip(1) {
        let is_command = line.starts_with("$ ") || line.starts_with("~ ");
        if !is_command && !line.starts_with("% ") {
            out.push_str(line)?;
            out.push_str("\n")?;
        }
    }
    Ok(out)
}

/// A text with the changes of a row, and nothing if it has none.
pub(crate) fn changed(alloc: Global, head: &str, text: &str) -> Result<Option<String>, Memory> {
    let mut out: Option<String> = None;
    for line in head.lines().skip(1) {
        if let Some((number, other)) = change_of(line) {
            let next = match &out {
                None => with_line(alloc, text, number, other)?,
                Some(before) => with_line(alloc, before, number, other)?,
            };
            out = Some(next);
        }
    }
    Ok(out)
}
