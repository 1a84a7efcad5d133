//! The settling steps, each with the duty that it does named at its call (`settling` has the calls).
ghost use Rattle.std.specs.Prelude.{◌≡◌, ◌<◌, ◌∷◌, [], true, false, cond, slice_get, slice_index, Some};
ghost use Rattle.std.specs.List.{Contains};
ghost use Rattle.plural_counters.specs.Counters.{IsSound};
ghost use Rattle.plural_counters.specs.Laws.{outcome_of_flags};
ghost use Rattle.plural_counters.specs.declared.duty.Duty.TheVariants.{Flag, Count, Close, Tell, Decide, Arm};
ghost use Rattle.plural_rule.specs.Opening.{task_count, graph_in, ends_of, edges_of, outcome_of};
ghost use Rattle.plural_rule.specs.Layout.{flags_at, left_at, state_at, open_deps_at};
ghost use Rattle.plural_rule.specs.Kept.{duties};
ghost use Rattle.plural_words.specs.Seen.{IsSeatOf, seat_with};
ghost use Rattle.plural_words.specs.Settling.{armed_now, seat_settled, told_first, decided, SaysDecision, edge_marked, edge_counted};

use crate::law::{
    ArmTask, CountEdge, CountInstance, LoadFlags, LoadState, MarkEdge, MarkEnd, Owed,
};
use crate::seat::Seat;
use crate::words::Words;

impl Words {
    fn flags_index(&self, t: u32) -> usize
        requires { t < task_count self.now.opening.program }
        ensures { result ≡ flags_at self.now.opening.program t }
    {
        self.counters + 5 * t as usize + 1
    }

    fn left_index(&self, t: u32) -> usize
        requires { t < task_count self.now.opening.program }
        ensures { result ≡ left_at self.now.opening.program t }
    {
        self.counters + 5 * t as usize + 2
    }

    fn state_index(&self, t: u32) -> usize
        requires { t < task_count self.now.opening.program }
        ensures { result ≡ state_at self.now.opening.program t }
    {
        self.counters + 5 * t as usize + 3
    }

    fn open_deps_index(&self, t: u32) -> usize
        requires { t < task_count self.now.opening.program }
        ensures { result ≡ open_deps_at self.now.opening.program t }
    {
        self.counters + 5 * t as usize + 4
    }

    pub(crate) fn mark_as<N: Owed>(&self, seat: &mut Seat, t: u32, _k: u32, bits: u64)
        requires name { t ≡ N.task }
        requires of { IsSeatOf self.now seat.old }
        requires task { t < task_count self.now.opening.program }
        requires owes { Contains seat.old.view.owes (Flag N.task N.number) }
        requires bits { bits ≡ ends_of self.now.opening N.task N.number }
        ensures of { IsSeatOf self.now seat.new }
        ensures seat { seat.new ≡ seat_settled seat.old (Flag N.task N.number) (Count N.task N.number ∷ []) }
        ensures sound { IsSound (graph_in self.now.opening) (duties seat.new.view) }
    {
        let index = self.flags_index(t);
        self.table
            .shared
            .fetch_or::<MarkEnd<N>>(&mut seat.token, index, bits);
    }

    pub(crate) fn count_as<N: Owed>(&self, seat: &mut Seat, t: u32, _k: u32) -> bool
        requires name { t ≡ N.task }
        requires of { IsSeatOf self.now seat.old }
        requires task { t < task_count self.now.opening.program }
        requires owes { Contains seat.old.view.owes (Count N.task N.number) }
        ensures of { IsSeatOf self.now seat.new }
        ensures seat { seat.new ≡ seat_settled seat.old (Count N.task N.number) (cond result (Close N.task ∷ []) []) }
        ensures sound { IsSound (graph_in self.now.opening) (duties seat.new.view) }
    {
        let index = self.left_index(t);
        let found = self
            .table
            .shared
            .fetch_sub::<CountInstance<N>>(&mut seat.token, index, 1);
        found == 1
    }

    pub(crate) fn load_flags_as<N: Owed>(&self, seat: &mut Seat, t: u32) -> u64
        requires name { t ≡ N.task }
        requires of { IsSeatOf self.now seat.old }
        requires task { t < task_count self.now.opening.program }
        requires owes { Contains seat.old.view.owes (Close N.task) }
        ensures of { IsSeatOf self.now seat.new }
        ensures outcome { outcome_of_flags result ≡ outcome_of self.now.opening N.task }
        ensures seat { seat.new ≡ seat_settled seat.old (Close N.task) (told_first self.now.opening N.task) }
        ensures sound { IsSound (graph_in self.now.opening) (duties seat.new.view) }
    {
        let index = self.flags_index(t);
        self.table
            .shared
            .load::<LoadFlags<N>>(&mut seat.token, index)
    }

    pub(crate) fn mark_edge_as<N: Owed>(&self, seat: &mut Seat, _t: u32, u: u32, bits: u64)
        requires of { IsSeatOf self.now seat.old }
        requires task { u < task_count self.now.opening.program }
        requires owes { Contains seat.old.view.owes (Tell N.task N.outcome N.number false) }
        requires place { slice_get ((graph_in self.now.opening).successors N.task) N.number ≡ Some u }
        requires bits { bits ≡ edges_of self.now.opening N.task u }
        ensures of { IsSeatOf self.now seat.new }
        ensures seat { seat.new ≡ edge_marked seat.old N.task N.outcome N.number }
        ensures sound { IsSound (graph_in self.now.opening) (duties seat.new.view) }
    {
        let index = self.state_index(u);
        self.table
            .shared
            .fetch_or::<MarkEdge<N>>(&mut seat.token, index, bits);
    }

    pub(crate) fn count_edge_as<N: Owed>(&self, seat: &mut Seat, _t: u32, u: u32) -> bool
        requires of { IsSeatOf self.now seat.old }
        requires task { u < task_count self.now.opening.program }
        requires owes { Contains seat.old.view.owes (Tell N.task N.outcome N.number true) }
        requires place { slice_get ((graph_in self.now.opening).successors N.task) N.number ≡ Some u }
        ensures of { IsSeatOf self.now seat.new }
        ensures seat { seat.new ≡ edge_counted self.now.opening seat.old N.task N.outcome N.number u result }
        ensures sound { IsSound (graph_in self.now.opening) (duties seat.new.view) }
    {
        let index = self.open_deps_index(u);
        let found = self
            .table
            .shared
            .fetch_sub::<CountEdge<N>>(&mut seat.token, index, 1);
        found == 1
    }

    pub(crate) fn load_state_as<N: Owed>(&self, seat: &mut Seat, t: u32) -> u64
        requires name { t ≡ N.task }
        requires of { IsSeatOf self.now seat.old }
        requires task { t < task_count self.now.opening.program }
        requires owes { Contains seat.old.view.owes (Decide N.task) }
        ensures of { IsSeatOf self.now seat.new }
        ensures decision { SaysDecision self.now.opening N.task result }
        ensures seat { seat.new ≡ seat_settled seat.old (Decide N.task) (decided self.now.opening N.task) }
        ensures sound { IsSound (graph_in self.now.opening) (duties seat.new.view) }
    {
        let index = self.state_index(t);
        self.table
            .shared
            .load::<LoadState<N>>(&mut seat.token, index)
    }

    pub(crate) fn arm_as<N: Owed>(&self, seat: &mut Seat, t: u32)
        requires name { t ≡ N.task }
        requires of { IsSeatOf self.now seat.old }
        requires task { t < task_count self.now.opening.program }
        requires owes { Contains seat.old.view.owes (Arm N.task) }
        ensures of { IsSeatOf self.now seat.new }
        ensures seat { seat.new ≡ seat_with seat.old (armed_now seat.old.view N.task) }
        ensures sound { IsSound (graph_in self.now.opening) (duties seat.new.view) }
        ensures unarmed { slice_index seat.old.view.found N.task ≡ 0 }
    {
        let index = self.alloc_index(t);
        self.table
            .shared
            .store::<ArmTask<N>>(&mut seat.token, index, 1);
    }
}
