//! Which codes of which tasks each task needs.
ghost use Rattle.std.specs.Prelude.{◌≡◌, ◌<◌, ◌↔◌, ℕ, length, true};
ghost use Rattle.std.specs.List.{All, list_any};
ghost use Rattle.plural_reach.specs.Sets.{has};
ghost use Rattle.plural_reach.specs.Branches.{code_of, gives, all_give, is_given, NeedsCode};
ghost use Rattle.plural_reach.specs.Rows.{row, family};
ghost use Rattle.plural_reach.specs.Tables.{IsNeedsOf};

use crate::set::TaskSet;
use crate::tables::Needs;
use plural_map::{Dep, Map, Task, When};

/// The code that a condition asks for.
fn code_of(when: When) -> Option<u32>
    ensures { result ≡ code_of when }
{
    match when {
        When::Any => None,
        When::Code0 => Some(0),
        When::Code1 => Some(1),
    }
}

/// The tasks whose code `code` a dependency gives.
fn given_by(dep: Dep, code: u32, sets: &[TaskSet; 256]) -> TaskSet
    requires { dep.task < 256 }
    ensures { (p : ℕ) → has result p ≡ gives (family sets.now) p code dep }
{
    match code_of(dep.when) {
        None => TaskSet::empty(),
        Some(asked) => {
            let set = sets[dep.task as usize];
            if asked == code {
                set.with(dep.task)
            } else {
                set
            }
        }
    }
}

/// The tasks whose code `code` some dependency gives.
fn given_by_one(deps: &[Dep], code: u32, sets: &[TaskSet; 256]) -> TaskSet
    requires { All (λ d. d.task < 256) deps.now }
    ensures { (p : ℕ) → has result p ≡ list_any (gives (family sets.now) p code) deps.now }
{
    let mut all = TaskSet::empty();
    for dep in deps {
        all = all.or(given_by(*dep, code, sets));
    }
    all
}

/// The tasks whose code `code` each dependency gives; none if there is no dependency.
fn given_by_all(deps: &[Dep], code: u32, sets: &[TaskSet; 256]) -> TaskSet
    requires { All (λ d. d.task < 256) deps.now }
    ensures { (p : ℕ) → has result p ≡ all_give (family sets.now) p code deps.now }
{
    if deps.is_empty() {
        return TaskSet::empty();
    }
    let mut all = given_by(deps[0], code, sets);
    for dep in deps {
        all = all.and(given_by(*dep, code, sets));
    }
    all
}

/// The tasks whose code `code` a task is given.
fn given(task: &Task, code: u32, sets: &[TaskSet; 256]) -> TaskSet
    requires { All (λ d. d.task < 256) task.now.deps }
    ensures { (p : ℕ) → has result p ≡ is_given (family sets.now) p code task.now.some task.now.deps }
{
    if task.joins_some() {
        given_by_all(task.deps(), code, sets)
    } else {
        given_by_one(task.deps(), code, sets)
    }
}

/// For each task, the tasks whose code `code` it needs.
fn needs_of(map: &Map, code: u32) -> [TaskSet; 256]
    ensures { (t p : ℕ) → t < length map.now.tasks → (row result t p ≡ true) ↔ NeedsCode map.now.tasks t p code }
{
    let mut sets = [TaskSet::empty(); 256];
    let tasks = map.tasks();
    for t in map.order() {
        let task = &tasks[*t as usize];
        sets[*t as usize] = given(task, code, &sets);
    }
    sets
}

/// Which codes of which tasks each task of the map needs.
pub fn needs(map: &Map) -> Needs
    ensures { IsNeedsOf result map.now.tasks }
{
    Needs {
        zero: needs_of(map, 0),
        one: needs_of(map, 1),
    }
}
