//! The instructions of an instance.
ghost use Rattle.std.specs.Prelude.{◌≡◌, ◌+◌, MatchOption};
ghost use Rattle.plural_words.specs.Lent.{fixed_of};
ghost use Rattle.plural_words.specs.Seen.{IsSeatOf};
ghost use Rattle.plural_stages.specs.Engines.{IsGoing, IsOver, HasMadeTurn};

use crate::engine::Engine;
use crate::through::{run_through, turn_through};
use plural_core::{End, Turn};
use plural_serial::Program;
use plural_words::{Seat, SeatBus, Words};

impl Engine {
    /// One turn of instance k of task t, which is one instruction, and how the instance ended if it was the last.
    pub fn turn(
        &mut self,
        words: &Words,
        program: &Program,
        seat: &mut Seat,
        t: u32,
        k: u32,
    ) -> Option<End>
        requires of { IsSeatOf words.now seat.old }
        requires program { program.now ≡ words.now.opening.program }
        requires going { IsGoing words.now.opening t k self.old seat.old }
        ensures of { IsSeatOf words.now seat.new }
        ensures fixed { fixed_of seat.new ≡ fixed_of seat.old }
        ensures one { HasMadeTurn words.now.opening t k self.old self.new }
        ensures turned { MatchOption result
            (IsGoing words.now.opening t k self.new seat.new
            × (self.new.core.state.count ≡ self.old.core.state.count + 1))
            (λ end. IsOver words.now.opening t k end self.new seat.new) }
    {
        let task = program.task(t);
        let mut bus = SeatBus { words, seat };
        match turn_through(
            &mut self.hart,
            &mut self.cache,
            &mut self.buffer,
            &mut bus,
            program.code(),
            task.regions(),
        ) {
            Turn::Going => None,
            Turn::Over(end) => {
                self.over = Some(end);
                Some(end)
            }
        }
    }

    /// All instructions that instance k of task t has still to make, and how it ended.
    pub fn run(&mut self, words: &Words, program: &Program, seat: &mut Seat, t: u32, k: u32) -> End
        requires of { IsSeatOf words.now seat.old }
        requires program { program.now ≡ words.now.opening.program }
        requires going { IsGoing words.now.opening t k self.old seat.old }
        ensures of { IsSeatOf words.now seat.new }
        ensures fixed { fixed_of seat.new ≡ fixed_of seat.old }
        ensures over { IsOver words.now.opening t k result self.new seat.new }
    {
        let task = program.task(t);
        let mut bus = SeatBus { words, seat };
        let end = run_through(
            &mut self.hart,
            &mut self.cache,
            &mut self.buffer,
            &mut bus,
            program.code(),
            task.regions(),
        );
        self.over = Some(end);
        end
    }
}
