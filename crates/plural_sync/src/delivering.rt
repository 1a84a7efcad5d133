//! Delivering an instance: the steps that settle it, and all that they make due.
ghost use Rattle.std.specs.Prelude.{◌≡◌, ◌<◌, ◌≤◌, ◌∷◌, []};
ghost use Rattle.plural_counters.specs.declared.duty.Duty.TheVariants.{Flag, Close, Decide};
ghost use Rattle.plural_rule.specs.Opening.{task_count, record_of};
ghost use Rattle.plural_words.specs.Seen.{IsSeatOf};
ghost use Rattle.plural_sync.specs.Deliveries.{IsKept};
ghost use Rattle.plural_sync.specs.Pending.{IsPending, tell_of, progress_in};

use crate::bits::{bits_of_edge, bits_of_end};
use crate::pending::{Pending, Telling, begin, go_on};
use crate::synchroniser::Synchroniser;
use arrayvec::ArrayVec;
use plural_core::End;
use plural_map::{Decision, Outcome};
use plural_serial::Program;
use plural_words::{Seat, Words};

impl Synchroniser {
    /// Delivers instance k of task t, which the seat has just finished and which ended so: flags and counts it and, if
    /// it was the last of its task, settles all that this makes due. The seat owes nothing then.
    pub fn deliver(
        &self,
        program: &Program,
        words: &Words,
        seat: &mut Seat,
        t: u32,
        k: u32,
        end: End,
    )
        requires opened { self.now ≡ program.now }
        requires program { program.now ≡ words.now.opening.program }
        requires of { IsSeatOf words.now seat.old }
        requires task { t < task_count program.now }
        requires owes { seat.old.view.owes ≡ Flag t k ∷ [] }
        requires end { end ≡ (record_of words.now.opening t k).«end» }
        ensures of { IsSeatOf words.now seat.new }
        ensures nothing { seat.new.view.owes ≡ [] }
        ensures kept { IsKept seat.old seat.new }
    {
        words.mark(seat, t, k, bits_of_end(end));
        if words.count(seat, t, k) {
            self.close(program, words, seat, t);
        }
    }

    // Finds the outcome of task t, all of whose instances are counted, and tells it and what stands on it.
    fn close(&self, program: &Program, words: &Words, seat: &mut Seat, t: u32)
        requires opened { self.now ≡ program.now }
        requires program { program.now ≡ words.now.opening.program }
        requires pending { IsPending words.now seat.old (Close t ∷ []) [] }
        ensures pending { IsPending words.now seat.new [] [] }
        ensures kept { IsKept seat.old seat.new }
    {
        let outcome = words.load_flags(seat, t);
        let mut pending: Pending = ArrayVec::new();
        begin(&mut pending, self.successors(t), t, outcome);
        while let Some(telling) = pending.pop() {
            self.tell_next(program, words, seat, &mut pending, telling);
        }
    }

    // Tells a task to its next successor, which is decided if it waited for this alone.
    fn tell_next(
        &self,
        program: &Program,
        words: &Words,
        seat: &mut Seat,
        pending: &mut Pending,
        telling: Telling,
    )
        requires opened { self.now ≡ program.now }
        requires program { program.now ≡ words.now.opening.program }
        requires pending { IsPending words.now seat.old (tell_of telling ∷ []) pending.old.items }
        ensures pending { IsPending words.now seat.new [] pending.new.items }
        ensures kept { IsKept seat.old seat.new }
        ensures further { progress_in words.now seat.old < progress_in words.now seat.new }
    {
        let t = telling.task;
        let successors = self.successors(t);
        let u = successors[telling.place];
        words.mark_edge(seat, t, u, bits_of_edge(program, t, u, telling.outcome));
        let last = words.count_edge(seat, t, u);
        go_on(pending, successors, telling);
        if last {
            self.decide(words, seat, pending, u);
        }
    }

    // Decides task u, all of whose dependencies are counted: it is armed, or begins to be told.
    fn decide(&self, words: &Words, seat: &mut Seat, pending: &mut Pending, u: u32)
        requires opened { self.now ≡ words.now.opening.program }
        requires pending { IsPending words.now seat.old (Decide u ∷ []) pending.old.items }
        ensures pending { IsPending words.now seat.new [] pending.new.items }
        ensures kept { IsKept seat.old seat.new }
        ensures further { progress_in words.now seat.old ≤ progress_in words.now seat.new }
    {
        let successors = self.successors(u);
        match words.load_state(seat, u) {
            Decision::Run => words.arm(seat, u),
            Decision::Skip => begin(pending, successors, u, Outcome::Skipped),
            Decision::Fail => begin(pending, successors, u, Outcome::Failed),
        }
    }
}
