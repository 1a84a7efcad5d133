//! Claiming an instance: the alloc word of its task.
ghost use Rattle.std.specs.Prelude.{◌≡◌, ◌+◌, ◌<◌, ◌≤◌, slice_index, [], IfOk, IfErr};

use crate::law::{Exchange, Look};
use crate::seat::Seat;
use crate::words::Words;

impl Words {
    ghost use Rattle.plural_rule.specs.Opening.{task_count, quota_of};
    ghost use Rattle.plural_rule.specs.Layout.{alloc_at};
    ghost use Rattle.plural_rule.specs.Steps.{looked, lost, took};
    ghost use Rattle.plural_rule.specs.declared.view.Stage.TheVariants.{Free};
    ghost use Rattle.plural_words.specs.Seen.{IsSeatOf, seat_with};

    pub(crate) fn alloc_index(&self, t: u32) -> usize
        requires { t < task_count self.now.opening.program }
        ensures { result ≡ alloc_at self.now.opening.program t }
    {
        self.counters + 5 * t as usize
    }

    /// The alloc word of task t: 0 until the task is armed, then 1 plus the number of its instances that were handed
    /// out. It is no less than what the seat found there before. One load.
    pub fn load_alloc(&self, seat: &mut Seat, t: u32) -> u32
        requires of { IsSeatOf self.now seat.old }
        requires task { t < task_count self.now.opening.program }
        ensures of { IsSeatOf self.now seat.new }
        ensures seat { seat.new ≡ seat_with seat.old (looked seat.old.view t result) }
        ensures rose { slice_index seat.old.view.found t ≤ result }
        ensures few { result ≤ 1 + quota_of self.now.opening.program t }
    {
        let index = self.alloc_index(t);
        self.table.shared.load::<Look>(&mut seat.token, index) as u32
    }

    /// Hands out instance `from - 1` of task t to the seat, if the alloc word is `from`, which the seat found there.
    /// Else the answer is what the word is, which is more. One exchange.
    pub fn swap_alloc(&self, seat: &mut Seat, t: u32, from: u32) -> Result<(), u32>
        requires of { IsSeatOf self.now seat.old }
        requires task { t < task_count self.now.opening.program }
        requires free { seat.old.view.stage ≡ Free }
        requires nothing { seat.old.view.owes ≡ [] }
        requires from { slice_index seat.old.view.found t ≡ from }
        requires left { (1 ≤ from) × (from ≤ quota_of self.now.opening.program t) }
        ensures of { IsSeatOf self.now seat.new }
        ensures got { IfOk result (λ _. seat.new ≡ seat_with seat.old (took seat.old.view t from)) }
        ensures lost { IfErr result (λ saw. seat.new ≡ seat_with seat.old (lost seat.old.view t saw)) }
        ensures more { IfErr result (λ saw. (from < saw) × (saw ≤ 1 + quota_of self.now.opening.program t)) }
    {
        let index = self.alloc_index(t);
        let place = self.places[t as usize].records + 8 * (from as usize - 1);
        let old = from as u64;
        let found = self
            .table
            .shared
            .compare_exchange::<Exchange>(&mut seat.token, index, old, old + 1);
        if found == old {
            seat.record_place = place;
            Ok(())
        } else {
            Err(found as u32)
        }
    }
}
