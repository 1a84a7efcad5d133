//! What the checker answers.
ghost use Rattle.std.specs.Prelude.{◌≡◌};
ghost use Rattle.plural_crew.specs.Clashes.{IsAccepted};

use plural_map::Map;
use std::marker::Model;

/// Two instances that clash: instance `k` of task `t` and instance `l` of task `u` may run at the same time, and both
/// may read word `a`, which one of them may write. Tasks, instances and words are numbered from 0.
#[derive(Clone, Copy, Debug, PartialEq, Eq)]
pub struct Clash {
    /// The first task.
    pub t: u32,
    /// The instance of the first task.
    pub k: u32,
    /// The second task.
    pub u: u32,
    /// The instance of the second task.
    pub l: u32,
    /// The word that they share.
    pub a: u32,
}

/// A map without a clash.
#[derive(Drop)]
pub struct Accepted<'m> {
    map: &'m Map,
}

impl<'m> Model for Accepted<'m> {
    ghost use Rattle.plural_map.specs.Value.{MapValue};
    ghost use Rattle.plural_crew.specs.Clashes.{IsAccepted};

    ghost Value = { MapValue };

    ghost view = { λ a. a.map.now };

    ghost invariant = { λ a. IsAccepted a.map.now.tasks };
}

impl<'m> Accepted<'m> {
    /// The map as one that is accepted.
    pub(crate) fn of(map: &'m Map) -> Accepted<'m>
        requires { IsAccepted map.now.tasks }
        ensures { result ≡ map.now }
    {
        Accepted { map }
    }

    /// The map.
    pub fn map(&self) -> &'m Map
        ensures map { result.now ≡ self.now }
        ensures accepted { IsAccepted self.now.tasks }
    {
        self.map
    }
}
