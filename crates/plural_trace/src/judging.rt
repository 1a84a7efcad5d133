//! The verdict on a log.
ghost use Rattle.std.specs.Prelude.{◌≡◌, ◌<◌, ◌≤◌, ◌^◌, List, length, None, IfOk};
ghost use Rattle.std.specs.List.{All};
ghost use Rattle.plural_map.specs.Value.{TaskValue};
ghost use Rattle.plural_map.specs.Limits.{IsMap};
ghost use Rattle.plural_serial.specs.declared.record_.Record.{Record};
ghost use Rattle.plural_trace.specs.declared.verdict.Verdict.TheVariants.{No};
ghost use Rattle.plural_trace.specs.Instances.{StandByInstance};
ghost use Rattle.plural_trace.specs.declared.entry.Entry.{Entry};
ghost use Rattle.plural_trace.specs.Least.{least};
ghost use Rattle.plural_trace.specs.Rules.{breaks_tickets};
ghost use Rattle.plural_trace.specs.Verdicts.{expected_in, expected_by, expected_of, HoldBefore, IsVerdict};

use crate::compare::{outcome_fault, word_fault};
use crate::cores::core_fault;
use crate::log::Log;
use crate::order::order_fault;
use crate::records::record_fault;
use crate::rise::rise_fault;
use crate::tickets::ticket_fault;
use crate::verdict::Verdict;
use plural_base::Memory;
use plural_map::Map;
use plural_serial::{Answer, Program, serial};
use std::alloc::Global;

fn no(rule: u8, at: usize) -> Verdict
    requires { at < 2 ^ 32 }
    ensures { result ≡ No rule at }
{
    Verdict::No {
        rule,
        at: at as u32,
    }
}

/// The verdict by the outcomes and the last memory, if no rule on entries fails.
fn judge_results(answer: &Answer, log: &Log, last: &[u32]) -> Verdict
    requires few { length answer.now.outcomes < 2 ^ 32 }
    requires words { length answer.now.image < 2 ^ 32 }
    requires one_each { length log.now.outcomes ≡ length answer.now.outcomes }
    requires last { length last.now ≡ length answer.now.image }
    ensures { (tasks : List TaskValue) → HoldBefore (expected_in tasks answer.now) log.now last.now 6
        → IsVerdict (expected_in tasks answer.now) log.now last.now result }
{
    if let Some(at) = outcome_fault(answer.outcomes(), log.outcomes()) {
        return no(6, at);
    }
    if let Some(at) = word_fault(answer.image(), last) {
        return no(7, at);
    }
    Verdict::Yes
}

/// The verdict by the order of the entries and what follows, if the rules on records and tickets hold.
fn judge_order(
    alloc: Global,
    map: &Map,
    log: &Log,
    answer: &Answer,
    last: &[u32],
) -> Result<Verdict, Memory>
    requires own { All (λ (e : Entry). e.rec.t < length map.now.tasks) log.now.entries }
    requires tickets { least (breaks_tickets log.now.entries) (length log.now.entries) ≡ None }
    requires few { length log.now.entries ≤ 65536 }
    requires few_outcomes { length answer.now.outcomes < 2 ^ 32 }
    requires few_words { length answer.now.image < 2 ^ 32 }
    requires one_each { length log.now.outcomes ≡ length answer.now.outcomes }
    requires last { length last.now ≡ length answer.now.image }
    requires before { HoldBefore (expected_by map.now answer.now) log.now last.now 3 }
    ensures { IfOk result (λ v. IsVerdict (expected_by map.now answer.now) log.now last.now v) }
{
    if let Some(at) = order_fault(alloc, log.entries(), map)? {
        return Ok(no(3, at));
    }
    if let Some(at) = core_fault(alloc, log.entries(), log.cores() as usize)? {
        return Ok(no(4, at));
    }
    if let Some(at) = rise_fault(log.entries()) {
        return Ok(no(5, at));
    }
    Ok(judge_results(answer, log, last))
}

/// The verdict on a log, by what the serial run of the map left.
fn judge(
    alloc: Global,
    answer: &Answer,
    map: &Map,
    log: &Log,
    last: &[u32],
) -> Result<Verdict, Memory>
    requires tasks { All (λ (r : Record). r.t < length map.now.tasks) answer.now.records }
    requires by_instance { IsMap map.now → StandByInstance answer.now.records }
    requires few_records { length answer.now.records ≤ 65536 }
    requires few { length log.now.entries ≤ 65536 }
    requires outcomes { length answer.now.outcomes ≡ length map.now.tasks }
    requires one_each { length log.now.outcomes ≡ length map.now.tasks }
    requires image { length answer.now.image ≡ map.now.words }
    requires last { length last.now ≡ map.now.words }
    ensures { IfOk result (λ v. IsVerdict (expected_by map.now answer.now) log.now last.now v) }
{
    if let Some(at) = record_fault(alloc, answer.records(), log.entries(), map.tasks().len())? {
        return Ok(no(1, at));
    }
    if let Some(at) = ticket_fault(alloc, log.entries())? {
        return Ok(no(2, at));
    }
    judge_order(alloc, map, log, answer, last)
}

/// Whether a log of a run of the program from this opening image, which left the memory `last`, is legal.
///
/// The log has one outcome for each task and at most 65,536 entries.
pub fn legal(
    alloc: Global,
    program: &Program,
    start: &[u32],
    log: &Log,
    last: &[u32],
) -> Result<Verdict, Memory>
    requires start { length start.now ≡ program.now.map.words }
    requires last { length last.now ≡ program.now.map.words }
    requires one_each { length log.now.outcomes ≡ length program.now.map.tasks }
    requires few { length log.now.entries ≤ 65536 }
    ensures { IfOk result (λ v. IsVerdict (expected_of program.now start.now) log.now last.now v) }
{
    let answer = serial(alloc, program, start)?;
    judge(alloc, &answer, program.map(), log, last)
}
