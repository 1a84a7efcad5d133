//! Which tasks come before which.
ghost use Rattle.std.specs.Prelude.{◌≡◌, ◌<◌, ℕ};
ghost use Rattle.std.specs.List.{All};
ghost use Rattle.plural_reach.specs.Sets.{has};
ghost use Rattle.plural_reach.specs.Rows.{is_named};
ghost use Rattle.plural_reach.specs.Tables.{IsReachOf};

use crate::set::TaskSet;
use crate::tables::Reach;
use plural_map::{Dep, Map};

/// The tasks that the dependencies name, and all that come before these.
fn named(deps: &[Dep], before: &[TaskSet; 256]) -> TaskSet
    requires { All (λ d. d.task < 256) deps.now }
    ensures { (p : ℕ) → has result p ≡ is_named before.now deps.now p }
{
    let mut all = TaskSet::empty();
    for dep in deps {
        all = all.or(before[dep.task as usize].with(dep.task));
    }
    all
}

/// Which tasks of the map come before which.
pub fn reach(map: &Map) -> Reach
    ensures { IsReachOf result map.now.tasks }
{
    let mut before = [TaskSet::empty(); 256];
    let tasks = map.tasks();
    for u in map.order() {
        let task = &tasks[*u as usize];
        before[*u as usize] = named(task.deps(), &before);
    }
    Reach { before }
}
