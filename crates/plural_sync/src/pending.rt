//! The tasks that a core is telling, in an array of fixed size.
ghost use Rattle.std.specs.Prelude.{◌≡◌, ◌<◌, ◌++◌, length};
ghost use Rattle.arrayvec.specs.ArrayVec.{array_vec_len};
ghost use Rattle.plural_counters.specs.Steps.{tell_first, owed_in};
ghost use Rattle.plural_sync.specs.Pending.{tells, tells_next};

use arrayvec::ArrayVec;
use plural_map::Outcome;

/// A task that is being told with this outcome, next to its successor at this place, from 0.
#[derive(Clone, Copy)]
pub(crate) struct Telling {
    pub task: u32,
    pub outcome: Outcome,
    pub place: usize,
}

/// Task 0, failed, told to its first successor: the blank of a fixed list.
impl Default for Telling {
    ghost use Rattle.std.specs.Prelude.{◌≡◌};
    ghost use Rattle.plural_map.specs.declared.outcome.Outcome.TheVariants.{Failed};

    fn default() -> Telling
        ensures { result ≡ record { task = 0; outcome = Failed; place = 0 } }
    {
        Telling {
            task: 0,
            outcome: Outcome::Failed,
            place: 0,
        }
    }
}

/// The tasks that are being told, at most one for each task of a program. The last began last and goes on first.
pub(crate) type Pending = ArrayVec<Telling, 256>;

/// A task begins to be told, if it has successors.
pub(crate) fn begin(pending: &mut Pending, successors: &[u32], task: u32, outcome: Outcome)
    requires { array_vec_len pending.old < 256 }
    ensures { tells pending.new.items ≡ owed_in (tell_first successors.now task outcome) ++ tells pending.old.items }
{
    if !successors.is_empty() {
        pending.push(Telling {
            task,
            outcome,
            place: 0,
        });
    }
}

/// A task that was told to one successor goes on to the next, if there is one.
pub(crate) fn go_on(pending: &mut Pending, successors: &[u32], telling: Telling)
    requires room { array_vec_len pending.old < 256 }
    requires place { telling.place < length successors.now }
    ensures { tells pending.new.items ≡ tells_next successors.now telling ++ tells pending.old.items }
{
    let next = telling.place + 1;
    if next < successors.len() {
        pending.push(Telling {
            place: next,
            ..telling
        });
    }
}
