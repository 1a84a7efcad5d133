//! The tables that are made once for a map.
ghost use Rattle.std.specs.Prelude.{◌≡◌, ◌<◌, ◌↔◌, List, length, IsTrue};
ghost use Rattle.plural_map.specs.Value.{TaskValue};

use crate::set::TaskSet;

/// Which tasks come before which, for one map.
#[derive(Drop)]
pub struct Reach {
    pub(crate) before: [TaskSet; 256],
}

/// Which codes of which tasks each task needs, for one map.
#[derive(Drop)]
pub struct Needs {
    pub(crate) zero: [TaskSet; 256],
    pub(crate) one: [TaskSet; 256],
}

impl Reach {
    ghost use Rattle.plural_reach.specs.Chains.{Before};
    ghost use Rattle.plural_reach.specs.Tables.{IsReachOf, says_before};

    /// Whether a chain of dependencies leads from task `t` to task `u`.
    pub fn before(&self, t: u32, u: u32) -> bool
        requires first { t < 256 }
        requires second { u < 256 }
        ensures says { result ≡ says_before self.now t u }
        ensures exact { (tasks : List TaskValue) → IsReachOf self.now tasks → u < length tasks
            → IsTrue result ↔ Before tasks t u }
    {
        self.before[u as usize].has(t)
    }
}

impl Needs {
    ghost use Rattle.plural_reach.specs.Branches.{Exclusive};
    ghost use Rattle.plural_reach.specs.Tables.{IsNeedsOf};

    /// Whether tasks `t` and `u` are exclusive branches: they differ, and one needs code 0 and the other code 1 of some
    /// task.
    pub fn exclusive(&self, t: u32, u: u32) -> bool
        requires first { t < 256 }
        requires second { u < 256 }
        ensures exact { (tasks : List TaskValue) → IsNeedsOf self.now tasks → t < length tasks → u < length tasks
            → IsTrue result ↔ Exclusive tasks t u }
    {
        let (t, u) = (t as usize, u as usize);
        t != u && (self.zero[t].meets(&self.one[u]) || self.one[t].meets(&self.zero[u]))
    }
}
