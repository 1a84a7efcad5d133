//! The first clash of a map.
ghost use Rattle.std.specs.Prelude.{◌≡◌, ◌<◌, ◌≤◌, ℕ, true, false, List, length, IfOk, IfErr, IfSome, IfNone};
ghost use Rattle.plural_map.specs.Value.{TaskValue};
ghost use Rattle.plural_reach.specs.Tables.{IsReachOf, IsNeedsOf};
ghost use Rattle.plural_crew.specs.Clashes.{MayOverlap, IsAccepted, IsFirstClash};
ghost use Rattle.plural_crew.specs.Search.{IsLeastOf, IsLeastWith, ClashAt, NoneClash};

use crate::accepted::{Accepted, Clash};
use crate::least::some_meet;
use plural_map::Map;
use plural_reach::{Needs, Reach};
use plural_regions::Meet;

/// Whether instances of tasks `t` and `u` may run at the same time.
fn may_overlap(reach: &Reach, needs: &Needs, t: u32, u: u32) -> bool
    requires first { t < 256 }
    requires second { u < 256 }
    ensures yes { (tasks : List TaskValue) → IsReachOf reach.now tasks → IsNeedsOf needs.now tasks
        → t < length tasks → u < length tasks → result ≡ true → MayOverlap tasks t u }
    ensures no { (tasks : List TaskValue) → IsReachOf reach.now tasks → IsNeedsOf needs.now tasks
        → t < length tasks → u < length tasks → result ≡ false → MayOverlap tasks t u → ⊥ }
{
    t == u || !(reach.before(t, u) || reach.before(u, t) || needs.exclusive(t, u))
}

/// The least clash of instances of tasks `t` and `u`, of which `t` isn't the later.
fn clash_of(map: &Map, reach: &Reach, needs: &Needs, t: u32, u: u32) -> Option<Meet>
    requires reach { IsReachOf reach.now map.now.tasks }
    requires needs { IsNeedsOf needs.now map.now.tasks }
    requires ordered { t ≤ u }
    requires within { u < length map.now.tasks }
    ensures { IsLeastOf (ClashAt map.now.tasks t u) result }
{
    let tasks = map.tasks();
    if !may_overlap(reach, needs, t, u) {
        return None;
    }
    let (first, second) = (&tasks[t as usize], &tasks[u as usize]);
    some_meet(
        first.regions(),
        first.quota(),
        second.regions(),
        second.quota(),
        t == u,
    )
}

/// The first clash of an instance of task `t` with one of a task that isn't earlier.
fn first_clash_of(map: &Map, reach: &Reach, needs: &Needs, t: u32) -> Option<Clash>
    requires reach { IsReachOf reach.now map.now.tasks }
    requires needs { IsNeedsOf needs.now map.now.tasks }
    ensures task { IfSome result (λ c. c.t ≡ t) }
    ensures found { IfSome result (λ c. IsLeastWith (ClashAt map.now.tasks t c.u) c.k c.l c.a) }
    ensures first { IfSome result (λ c. (w : ℕ) → w < c.u → NoneClash map.now.tasks t w) }
    ensures none { IfNone result ((w : ℕ) → NoneClash map.now.tasks t w) }
{
    let count = map.tasks().len() as u32;
    for u in t..count {
        if let Some(Meet { k, l, a }) = clash_of(map, reach, needs, t, u) {
            return Some(Clash { t, k, u, l, a });
        }
    }
    None
}

/// The first clash of a map, if it has one.
fn first_clash(map: &Map, reach: &Reach, needs: &Needs) -> Option<Clash>
    requires reach { IsReachOf reach.now map.now.tasks }
    requires needs { IsNeedsOf needs.now map.now.tasks }
    ensures found { IfSome result (λ c. IsFirstClash map.now.tasks c.t c.k c.u c.l c.a) }
    ensures none { IfNone result (IsAccepted map.now.tasks) }
{
    let count = map.tasks().len() as u32;
    for t in 0..count {
        let found = first_clash_of(map, reach, needs, t);
        if found.is_some() {
            return found;
        }
    }
    None
}

/// The map as one that is accepted, or its first clash.
///
/// `reach` and `needs` are those of the map.
pub fn check<'m>(map: &'m Map, reach: &'m Reach, needs: &'m Needs) -> Result<Accepted<'m>, Clash>
    requires reach { IsReachOf reach.now map.now.tasks }
    requires needs { IsNeedsOf needs.now map.now.tasks }
    ensures map { IfOk result (λ accepted. accepted ≡ map.now) }
    ensures accepted { IfOk result (λ _. IsAccepted map.now.tasks) }
    ensures clash { IfErr result (λ c. IsFirstClash map.now.tasks c.t c.k c.u c.l c.a) }
{
    match first_clash(map, reach, needs) {
        None => Ok(Accepted::of(map)),
        Some(clash) => Err(clash),
    }
}
