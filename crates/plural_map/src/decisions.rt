ghost use Rattle.std.specs.Prelude.{◌≡◌, ◌||◌, None, true, ◌↔◌};
ghost use Rattle.std.specs.List.{list_any, list_all};
ghost use Rattle.plural_map.specs.declared.outcome.Decision.TheVariants.{Skip, Fail};
ghost use Rattle.plural_map.specs.Decisions.{satisfies, decided, is_failed, is_satisfied, outcome_at, has_failed, is_enough, HasPredecessors, IsSkipped};

use crate::outcome::{Decision, Dep, Outcome, When};
use crate::task::Task;

fn satisfies(when: When, outcome: Outcome) -> bool
    ensures { result ≡ satisfies when outcome }
{
    match when {
        When::Any => outcome != Outcome::Failed,
        When::Code0 => outcome == Outcome::Ended0,
        When::Code1 => outcome == Outcome::Ended1,
    }
}

fn outcome_at(outcomes: &[Option<Outcome>], t: u32) -> Option<Outcome>
    ensures { result ≡ outcome_at outcomes.now t }
{
    match outcomes.get(t as usize) {
        Some(outcome) => *outcome,
        None => None,
    }
}

fn is_failed(outcomes: &[Option<Outcome>], t: u32) -> bool
    ensures { result ≡ is_failed (outcome_at outcomes.now t) }
{
    match outcome_at(outcomes, t) {
        Some(outcome) => outcome == Outcome::Failed,
        None => false,
    }
}

fn is_satisfied(when: When, outcomes: &[Option<Outcome>], t: u32) -> bool
    ensures { result ≡ is_satisfied when (outcome_at outcomes.now t) }
{
    match outcome_at(outcomes, t) {
        Some(outcome) => satisfies(when, outcome),
        None => false,
    }
}

fn any_failed(deps: &[Dep], outcomes: &[Option<Outcome>]) -> bool
    ensures { result ≡ list_any (λ d. is_failed (outcome_at outcomes.now d.task)) deps.now }
{
    deps.iter().any(|dep| is_failed(outcomes, dep.task))
}

fn any_satisfied(deps: &[Dep], outcomes: &[Option<Outcome>]) -> bool
    ensures { result ≡ list_any (λ d. is_satisfied d.when (outcome_at outcomes.now d.task)) deps.now }
{
    deps.iter()
        .any(|dep| is_satisfied(dep.when, outcomes, dep.task))
}

fn all_satisfied(deps: &[Dep], outcomes: &[Option<Outcome>]) -> bool
    ensures { result ≡ list_all (λ d. is_satisfied d.when (outcome_at outcomes.now d.task)) deps.now }
{
    deps.iter()
        .all(|dep| is_satisfied(dep.when, outcomes, dep.task))
}

fn is_enough(some: bool, deps: &[Dep], outcomes: &[Option<Outcome>]) -> bool
    ensures { result ≡ is_enough some deps.now outcomes.now }
{
    if some {
        deps.is_empty() || any_satisfied(deps, outcomes)
    } else {
        all_satisfied(deps, outcomes)
    }
}

/// What is to become of a task by the outcomes of the tasks before it, which stand at their numbers.
pub fn decide(task: &Task, outcomes: &[Option<Outcome>]) -> Decision
    requires predecessors { HasPredecessors task.now outcomes.now }
    ensures value { result ≡ decided task.now outcomes.now }
    ensures fail { (result ≡ Fail) ↔ (has_failed task.now outcomes.now ≡ true) }
    ensures skip { (result ≡ Skip) ↔ IsSkipped task.now outcomes.now }
{
    if any_failed(task.deps(), outcomes) {
        Decision::Fail
    } else if is_enough(task.joins_some(), task.deps(), outcomes) {
        Decision::Run
    } else {
        Decision::Skip
    }
}
