//! Rules 6 and 7: the outcomes and the last memory of the serial run.
ghost use Rattle.std.specs.Prelude.{◌≡◌, ◌<◌, length, map, IfSome, Some};
ghost use Rattle.plural_trace.specs.Least.{least};
ghost use Rattle.plural_trace.specs.Rules.{is_same_outcome, breaks_outcomes, breaks_words};

use plural_map::Outcome;

fn is_same_outcome(a: Outcome, b: Outcome) -> bool
    ensures { result ≡ is_same_outcome a b }
{
    a == b
}

/// Whether outcome i differs.
fn is_other_outcome(serial: &[Outcome], outcomes: &[Outcome], i: usize) -> bool
    requires one_each { length outcomes.now ≡ length serial.now }
    requires i { i < length serial.now }
    ensures { result ≡ breaks_outcomes (map (λ o. Some o) serial.now) outcomes.now i }
{
    !is_same_outcome(outcomes[i], serial[i])
}

/// The first outcome that differs.
pub(crate) fn outcome_fault(serial: &[Outcome], outcomes: &[Outcome]) -> Option<usize>
    requires { length outcomes.now ≡ length serial.now }
    ensures least { result ≡ least (breaks_outcomes (map (λ o. Some o) serial.now) outcomes.now) (length serial.now) }
    ensures within { IfSome result (λ i. i < length serial.now) }
{
    for i in 0..serial.len() {
        if is_other_outcome(serial, outcomes, i) {
            return Some(i);
        }
    }
    None
}

/// Whether word i differs.
fn is_other_word(serial: &[u32], last: &[u32], i: usize) -> bool
    requires words { length last.now ≡ length serial.now }
    requires i { i < length serial.now }
    ensures { result ≡ breaks_words serial.now last.now i }
{
    last[i] != serial[i]
}

/// The first word that differs.
pub(crate) fn word_fault(serial: &[u32], last: &[u32]) -> Option<usize>
    requires { length last.now ≡ length serial.now }
    ensures least { result ≡ least (breaks_words serial.now last.now) (length serial.now) }
    ensures within { IfSome result (λ i. i < length serial.now) }
{
    for i in 0..serial.len() {
        if is_other_word(serial, last, i) {
            return Some(i);
        }
    }
    None
}
