//! A map line by its tokens.
ghost use Rattle.std.specs.Prelude.{◌≡◌};
ghost use Rattle.plural_bytes.specs.Lines.{tokens};
ghost use Rattle.plural_map_text.specs.Shape.{when_of, memory_line, cache_line, task_end, dup_task, task_line, after_line, join_line, region_line, shape_of};

use crate::line::{MapLine, TaskKind};
use plural_bytes::{Name, is_word, next_token};
use plural_map::When;
use plural_regions::Mode;
use plural_sections::capped_numeral;

fn when_of(text: &[u8]) -> Option<When>
    ensures { result ≡ when_of text.now }
{
    if is_word(text, b"any") {
        Some(When::Any)
    } else if is_word(text, b"0") {
        Some(When::Code0)
    } else if is_word(text, b"1") {
        Some(When::Code1)
    } else {
        None
    }
}

fn memory_line(text: &[u8]) -> Option<MapLine>
    ensures { result ≡ memory_line (tokens text.now) }
{
    let (words, rest) = next_token(text)?;
    if next_token(rest).is_some() {
        return None;
    }
    let words = capped_numeral(words)?;
    Some(MapLine::Memory { words })
}

fn cache_line(text: &[u8]) -> Option<MapLine>
    ensures { result ≡ cache_line (tokens text.now) }
{
    let (sets, rest) = next_token(text)?;
    let (ways, rest) = next_token(rest)?;
    if next_token(rest).is_some() {
        return None;
    }
    let sets = capped_numeral(sets)?;
    let ways = capped_numeral(ways)?;
    Some(MapLine::Cache { sets, ways })
}

fn after_line(text: &[u8]) -> Option<MapLine>
    ensures { result ≡ after_line (tokens text.now) }
{
    let (name, rest) = next_token(text)?;
    let (when, rest) = next_token(rest)?;
    if next_token(rest).is_some() {
        return None;
    }
    let name = Name::of(name)?;
    let when = when_of(when)?;
    Some(MapLine::After { name, when })
}

fn join_line(text: &[u8]) -> Option<MapLine>
    ensures { result ≡ join_line (tokens text.now) }
{
    let (word, rest) = next_token(text)?;
    if next_token(rest).is_some() || !is_word(word, b"some") {
        return None;
    }
    Some(MapLine::Join)
}

fn region_line(mode: Mode, text: &[u8]) -> Option<MapLine>
    ensures { result ≡ region_line mode (tokens text.now) }
{
    let (base, rest) = next_token(text)?;
    let (stride, rest) = next_token(rest)?;
    let (count, rest) = next_token(rest)?;
    if next_token(rest).is_some() {
        return None;
    }
    let base = capped_numeral(base)?;
    let stride = capped_numeral(stride)?;
    let count = capped_numeral(count)?;
    Some(MapLine::Region {
        mode,
        base,
        stride,
        count,
    })
}

fn task_end(name: &[u8], kind: TaskKind, text: &[u8]) -> Option<MapLine>
    ensures { result ≡ task_end name.now kind (tokens text.now) }
{
    let (entry, rest) = next_token(text)?;
    let (label, rest) = next_token(rest)?;
    let (budget, rest) = next_token(rest)?;
    let (count, rest) = next_token(rest)?;
    if next_token(rest).is_some() {
        return None;
    }
    if !(is_word(entry, b"entry") && is_word(budget, b"budget")) {
        return None;
    }
    let name = Name::of(name)?;
    let entry = Name::of(label)?;
    let budget = capped_numeral(count)?;
    Some(MapLine::Task {
        name,
        kind,
        entry,
        budget,
    })
}

fn dup_task(name: &[u8], text: &[u8]) -> Option<MapLine>
    ensures { result ≡ dup_task name.now (tokens text.now) }
{
    let (quota, rest) = next_token(text)?;
    let quota = capped_numeral(quota)?;
    task_end(name, TaskKind::Dup { quota }, rest)
}

fn task_line(text: &[u8]) -> Option<MapLine>
    ensures { result ≡ task_line (tokens text.now) }
{
    let (name, rest) = next_token(text)?;
    let (word, rest) = next_token(rest)?;
    if is_word(word, b"regular") {
        task_end(name, TaskKind::Regular, rest)
    } else if is_word(word, b"dup") {
        dup_task(name, rest)
    } else {
        None
    }
}

/// The shape of a line, if it has one.
pub(crate) fn shape_of(text: &[u8]) -> Option<MapLine>
    ensures { result ≡ shape_of text.now }
{
    let (word, rest) = next_token(text)?;
    if is_word(word, b"memory") {
        memory_line(rest)
    } else if is_word(word, b"cache") {
        cache_line(rest)
    } else if is_word(word, b"task") {
        task_line(rest)
    } else if is_word(word, b"after") {
        after_line(rest)
    } else if is_word(word, b"join") {
        join_line(rest)
    } else if is_word(word, b"read") {
        region_line(Mode::Read, rest)
    } else if is_word(word, b"write") {
        region_line(Mode::Write, rest)
    } else {
        None
    }
}
