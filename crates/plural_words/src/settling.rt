//! Settling tasks: the ends of their instances are flagged and counted, their outcomes told, and what stands on them
//! is decided and armed. Each call does a duty that the seat owes; what comes of it is owed first, and the other
//! duties stay.
ghost use Rattle.std.specs.Prelude.{◌≡◌, ◌<◌, ◌∷◌, [], true, false, cond, slice_index, Some};
ghost use Rattle.std.specs.Int.{bit_at};
ghost use Rattle.std.specs.List.{Contains};
ghost use Rattle.plural_order.specs.TaskGraph.{outcome_by, decide_by};
ghost use Rattle.plural_counters.specs.Counters.{IsSound};
ghost use Rattle.plural_counters.specs.Laws.{outcome_of_state};
ghost use Rattle.plural_counters.specs.declared.duty.Duty.TheVariants.{Flag, Count, Close, Decide, Arm};
ghost use Rattle.plural_rule.specs.Opening.{task_count, graph_in, ends_of, edges_of, outcome_of};
ghost use Rattle.plural_rule.specs.Kept.{duties};
ghost use Rattle.plural_words.specs.Seen.{IsSeatOf, seat_with};
ghost use Rattle.plural_words.specs.Settling.{armed_now, telling, seat_settled, next_told, told_first, decision_in, decided, next_marked, next_counted};

use crate::place::Place;
use crate::seat::Seat;
use crate::words::Words;
use plural_map::{Decision, Outcome};
use std::marker::Brand;

// A bit of a word, from 0.
fn bit(word: u64, place: u32) -> u64
    requires { place < 3 }
    ensures { result ≡ bit_at word place }
{
    (word >> place) % 2
}

// The outcome that the flags of a task say.
pub(crate) fn outcome_of_flags(flags: u64) -> Outcome
    ensures { result ≡ outcome_by (bit_at flags 1) (bit_at flags 0) }
{
    let failed = bit(flags, 1);
    let one = bit(flags, 0);
    if failed != 0 {
        Outcome::Failed
    } else if one != 0 {
        Outcome::Ended1
    } else {
        Outcome::Ended0
    }
}

// The outcome that the state of a task says, if it isn't to run.
pub(crate) fn outcome_of_state(state: u64) -> Outcome
    ensures { result ≡ outcome_of_state state }
{
    let failed = bit(state, 0);
    if failed != 0 {
        Outcome::Failed
    } else {
        Outcome::Skipped
    }
}

// What the state of a task says is decided of it.
fn decision_of_state(task: &Place, state: u64) -> Decision
    ensures { result ≡ decide_by task.now.some task.now.deps (bit_at state 0) (bit_at state 1) (bit_at state 2) }
{
    let failed = bit(state, 0);
    let unmet = bit(state, 1);
    let met = bit(state, 2);
    if failed != 0 {
        Decision::Fail
    } else if task.deps == 0 {
        Decision::Run
    } else if task.some {
        if met == 0 {
            Decision::Skip
        } else {
            Decision::Run
        }
    } else if unmet == 0 {
        Decision::Run
    } else {
        Decision::Skip
    }
}

impl Words {
    /// Flags instance k of task t, which is done: the bits of its end join the flags of the task. One step.
    pub fn mark(&self, seat: &mut Seat, t: u32, k: u32, bits: u64)
        requires of { IsSeatOf self.now seat.old }
        requires task { t < task_count self.now.opening.program }
        requires owes { Contains seat.old.view.owes (Flag t k) }
        requires bits { bits ≡ ends_of self.now.opening t k }
        ensures of { IsSeatOf self.now seat.new }
        ensures seat { seat.new ≡ seat_settled seat.old (Flag t k) (Count t k ∷ []) }
        ensures sound { IsSound (graph_in self.now.opening) (duties seat.new.view) }
    {
        self.mark_as::<Brand>(seat, t, k, bits);
    }

    /// Counts instance k of task t, which is flagged: whether it was the task's last, and the task is to be closed.
    /// One step.
    pub fn count(&self, seat: &mut Seat, t: u32, k: u32) -> bool
        requires of { IsSeatOf self.now seat.old }
        requires task { t < task_count self.now.opening.program }
        requires owes { Contains seat.old.view.owes (Count t k) }
        ensures of { IsSeatOf self.now seat.new }
        ensures seat { seat.new ≡ seat_settled seat.old (Count t k) (cond result (Close t ∷ []) []) }
        ensures sound { IsSound (graph_in self.now.opening) (duties seat.new.view) }
    {
        self.count_as::<Brand>(seat, t, k)
    }

    /// The outcome of task t, whose instances are all counted: that of the serial run, with which the task begins to
    /// be told. One load.
    pub fn load_flags(&self, seat: &mut Seat, t: u32) -> Outcome
        requires of { IsSeatOf self.now seat.old }
        requires task { t < task_count self.now.opening.program }
        requires owes { Contains seat.old.view.owes (Close t) }
        ensures of { IsSeatOf self.now seat.new }
        ensures outcome { result ≡ outcome_of self.now.opening t }
        ensures seat { seat.new ≡ seat_settled seat.old (Close t) (told_first self.now.opening t) }
        ensures sound { IsSound (graph_in self.now.opening) (duties seat.new.view) }
    {
        let flags = self.load_flags_as::<Brand>(seat, t);
        outcome_of_flags(flags)
    }

    /// Marks the dependency of task u, the successor that task t is to be told to next: its bits join the state of u.
    /// One step.
    pub fn mark_edge(&self, seat: &mut Seat, t: u32, u: u32, bits: u64)
        requires of { IsSeatOf self.now seat.old }
        requires task { u < task_count self.now.opening.program }
        requires owes { Contains seat.old.view.owes (telling seat.old.view.owes t false) }
        requires place { next_told self.now.opening seat.old.view.owes t ≡ Some u }
        requires bits { bits ≡ edges_of self.now.opening t u }
        ensures of { IsSeatOf self.now seat.new }
        ensures seat { seat.new ≡ next_marked seat.old t }
        ensures sound { IsSound (graph_in self.now.opening) (duties seat.new.view) }
    {
        self.mark_edge_as::<Brand>(seat, t, u, bits);
    }

    /// Counts the dependency of task u, which is marked: whether it was the last that u waited for, and u is to be
    /// decided. One step.
    pub fn count_edge(&self, seat: &mut Seat, t: u32, u: u32) -> bool
        requires of { IsSeatOf self.now seat.old }
        requires task { u < task_count self.now.opening.program }
        requires owes { Contains seat.old.view.owes (telling seat.old.view.owes t true) }
        requires place { next_told self.now.opening seat.old.view.owes t ≡ Some u }
        ensures of { IsSeatOf self.now seat.new }
        ensures seat { seat.new ≡ next_counted self.now.opening seat.old t u result }
        ensures sound { IsSound (graph_in self.now.opening) (duties seat.new.view) }
    {
        self.count_edge_as::<Brand>(seat, t, u)
    }

    /// What is decided of task t, whose dependencies are all counted: that of the serial run. If it is to run it is to
    /// be armed, else it begins to be told. One load.
    pub fn load_state(&self, seat: &mut Seat, t: u32) -> Decision
        requires of { IsSeatOf self.now seat.old }
        requires task { t < task_count self.now.opening.program }
        requires owes { Contains seat.old.view.owes (Decide t) }
        ensures of { IsSeatOf self.now seat.new }
        ensures decision { result ≡ decision_in self.now.opening t }
        ensures seat { seat.new ≡ seat_settled seat.old (Decide t) (decided self.now.opening t) }
        ensures sound { IsSound (graph_in self.now.opening) (duties seat.new.view) }
    {
        let state = self.load_state_as::<Brand>(seat, t);
        decision_of_state(&self.places[t as usize], state)
    }

    /// Arms task t, which the seat had not found armed. One store.
    pub fn arm(&self, seat: &mut Seat, t: u32)
        requires of { IsSeatOf self.now seat.old }
        requires task { t < task_count self.now.opening.program }
        requires owes { Contains seat.old.view.owes (Arm t) }
        ensures of { IsSeatOf self.now seat.new }
        ensures seat { seat.new ≡ seat_with seat.old (armed_now seat.old.view t) }
        ensures sound { IsSound (graph_in self.now.opening) (duties seat.new.view) }
        ensures unarmed { slice_index seat.old.view.found t ≡ 0 }
    {
        self.arm_as::<Brand>(seat, t);
    }
}
