//! A log line by its tokens.
ghost use Rattle.std.specs.Prelude.{◌≡◌, ◌≤◌, ℕ, true, List, Some, None, MatchOption, codes, [], ◌∷◌, length};
ghost use Rattle.plural_bytes.specs.Lines.{tokens};
ghost use Rattle.plural_bytes.specs.Words.{is_one_word, spaced, inner};
ghost use Rattle.plural_log.specs.Shape.{first_line, outcome_of, task_line, field, counts_of, times_of, trap_of, code_of, end_of, run_line, shape_of};

use crate::line::{Counts, EndShape, LogLine, Times};
use plural_bytes::{Name, ends_token, is_word, next_token, trim_start};
use plural_map::Outcome;
use plural_sections::{capped_numeral, next_numeral, word_of};

fn first_line(text: &[u8]) -> Option<LogLine>
    ensures { result ≡ first_line (tokens text.now) }
{
    let (version, rest) = next_token(text)?;
    let (word, rest) = next_token(rest)?;
    let (count, rest) = next_token(rest)?;
    if next_token(rest).is_some() {
        return None;
    }
    if !(is_word(version, b"1") && is_word(word, b"cores")) {
        return None;
    }
    let cores = capped_numeral(count)?;
    Some(LogLine::First { cores })
}

fn ended(code: &[u8]) -> Option<Outcome>
    ensures { result ≡ outcome_of (codes "ended" ∷ code.now ∷ []) }
{
    if is_word(code, b"0") {
        Some(Outcome::Ended0)
    } else if is_word(code, b"1") {
        Some(Outcome::Ended1)
    } else {
        None
    }
}

fn without_code(word: &[u8]) -> Option<Outcome>
    ensures { result ≡ outcome_of (word.now ∷ []) }
{
    if is_word(word, b"skipped") {
        Some(Outcome::Skipped)
    } else if is_word(word, b"failed") {
        Some(Outcome::Failed)
    } else {
        None
    }
}

fn outcome_of(text: &[u8]) -> Option<Outcome>
    ensures { result ≡ outcome_of (tokens text.now) }
{
    let (word, rest) = next_token(text)?;
    let (code, rest) = match next_token(rest) {
        None => return without_code(word),
        Some(found) => found,
    };
    if next_token(rest).is_some() {
        return None;
    }
    if !is_word(word, b"ended") {
        return None;
    }
    ended(code)
}

fn task_line(text: &[u8]) -> Option<LogLine>
    ensures { result ≡ task_line (tokens text.now) }
{
    let (name, rest) = next_token(text)?;
    let name = Name::of(name)?;
    let outcome = outcome_of(rest)?;
    Some(LogLine::Task { name, outcome })
}

/// What stands after a word that is a text's first token.
#[inline(always)]
fn after_token<'a>(text: &'a [u8], word: &[u8]) -> Option<&'a [u8]>
    requires { is_one_word word.now ≡ true }
    ensures { MatchOption result ((ts : List (List ℕ)) → tokens text.now ≡ word.now ∷ ts → ⊥)
        (λ r. tokens text.now ≡ word.now ∷ tokens r.now) }
{
    let rest = trim_start(text).strip_prefix(word)?;
    if ends_token(rest) { Some(rest) } else { None }
}

/// The same, for a word that has other blanks before and after it than a printed one.
#[cold]
#[inline(never)]
fn after_other_blanks<'a>(text: &'a [u8], word: &[u8]) -> Option<&'a [u8]>
    requires { is_one_word word.now ≡ true }
    ensures { MatchOption result ((ts : List (List ℕ)) → tokens text.now ≡ word.now ∷ ts → ⊥)
        (λ r. tokens text.now ≡ word.now ∷ tokens r.now) }
{
    after_token(text, word)
}

/// What stands after a word that is a text's first token, given as it is printed: with a space before and after it.
#[inline(always)]
fn after_word<'a>(text: &'a [u8], printed: &[u8]) -> Option<&'a [u8]>
    requires printed { printed.now ≡ spaced (inner printed.now) }
    requires word { is_one_word (inner printed.now) ≡ true }
    requires long { 2 ≤ length printed.now }
    ensures { MatchOption result ((ts : List (List ℕ)) → tokens text.now ≡ inner printed.now ∷ ts → ⊥)
        (λ r. tokens text.now ≡ inner printed.now ∷ tokens r.now) }
{
    match text.strip_prefix(printed) {
        Some(rest) => Some(rest),
        None => after_other_blanks(text, &printed[1..printed.len() - 1]),
    }
}

/// The number after a word, which is given as it is printed, and what stands after that.
#[inline(always)]
fn field<'a>(text: &'a [u8], printed: &[u8]) -> Option<(u64, &'a [u8])>
    requires printed { printed.now ≡ spaced (inner printed.now) }
    requires word { is_one_word (inner printed.now) ≡ true }
    requires long { 2 ≤ length printed.now }
    ensures { MatchOption result (field (inner printed.now) (tokens text.now) ≡ None)
        (λ r. field (inner printed.now) (tokens text.now) ≡ Some (r.0, tokens r.1.now)) }
{
    let rest = after_word(text, printed)?;
    next_numeral(rest)
}

fn counts_of(text: &[u8]) -> Option<(Counts, &[u8])>
    ensures { MatchOption result (counts_of (tokens text.now) ≡ None)
        (λ r. counts_of (tokens text.now) ≡ Some (r.0, tokens r.1.now)) }
{
    let (instructions, rest) = field(text, b" n ")?;
    let (loads, rest) = field(rest, b" loads ")?;
    let (misses, rest) = field(rest, b" misses ")?;
    let (stores, rest) = field(rest, b" stores ")?;
    let counts = Counts {
        instructions,
        loads,
        misses,
        stores,
    };
    Some((counts, rest))
}

fn times_of(text: &[u8]) -> Option<Times>
    ensures { result ≡ times_of (tokens text.now) }
{
    let (core, rest) = field(text, b" core ")?;
    let (start, rest) = field(rest, b" from ")?;
    let (end_at, rest) = field(rest, b" to ")?;
    if next_token(rest).is_some() {
        return None;
    }
    Some(Times {
        core,
        start,
        end_at,
    })
}

fn trap_of(text: &[u8]) -> Option<(EndShape, &[u8])>
    ensures { MatchOption result (trap_of (tokens text.now) ≡ None)
        (λ r. trap_of (tokens text.now) ≡ Some (r.0, tokens r.1.now)) }
{
    let (cause, rest) = next_token(text)?;
    let (word, rest) = next_token(rest)?;
    let (pc, rest) = next_token(rest)?;
    if !is_word(word, b"pc") {
        return None;
    }
    let cause = capped_numeral(cause)?;
    let pc = word_of(pc)?;
    Some((EndShape::Trap { cause, pc }, rest))
}

fn code_of(text: &[u8]) -> Option<(EndShape, &[u8])>
    ensures { MatchOption result (code_of (tokens text.now) ≡ None)
        (λ r. code_of (tokens text.now) ≡ Some (r.0, tokens r.1.now)) }
{
    if let Some(rest) = after_token(text, b"0") {
        return Some((EndShape::Code0, rest));
    }
    let rest = after_token(text, b"1")?;
    Some((EndShape::Code1, rest))
}

fn end_of(text: &[u8]) -> Option<(EndShape, &[u8])>
    ensures { MatchOption result (end_of (tokens text.now) ≡ None)
        (λ r. end_of (tokens text.now) ≡ Some (r.0, tokens r.1.now)) }
{
    if let Some(rest) = after_word(text, b" code ") {
        return code_of(rest);
    }
    if let Some(rest) = after_word(text, b" trap ") {
        return trap_of(rest);
    }
    let rest = after_word(text, b" spent ")?;
    Some((EndShape::Spent, rest))
}

#[inline(never)]
fn run_line(text: &[u8]) -> Option<LogLine>
    ensures { result ≡ run_line (tokens text.now) }
{
    let (name, rest) = next_token(text)?;
    let name = Name::of(name)?;
    let (k, rest) = next_numeral(rest)?;
    let (end, rest) = end_of(rest)?;
    let (counts, rest) = counts_of(rest)?;
    let times = times_of(rest)?;
    Some(LogLine::Run {
        name,
        k,
        end,
        counts,
        times,
    })
}

/// The shape of a line, if it has one.
#[inline(never)]
pub(crate) fn shape_of(text: &[u8]) -> Option<LogLine>
    ensures { result ≡ shape_of text.now }
{
    if let Some(rest) = after_token(text, b"run") {
        return run_line(rest);
    }
    if let Some(rest) = after_token(text, b"task") {
        return task_line(rest);
    }
    let rest = after_token(text, b"log")?;
    first_line(rest)
}
