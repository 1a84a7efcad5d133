//! The end of an instance.
ghost use Rattle.std.specs.Prelude.{◌≡◌, drop};
ghost use Rattle.plural_core.specs.declared.end.End.{End};
ghost use Rattle.plural_trace.specs.RecordWords.{end_word};
ghost use Rattle.plural_words.specs.Lent.{fixed_of};
ghost use Rattle.plural_words.specs.Seen.{IsSeatOf, seat_with};
ghost use Rattle.plural_stages.specs.Engines.{IsRunning, IsOver, IsDrained, all_turns_of, done_with};

use crate::engine::Engine;
use plural_core::End;
use plural_words::{Field, Seat, SeatBus, Words};

/// The word of an end in a record: 0 or 1 for a code, 2 for a budget used up, and for a trap its cause times 2^32 plus
/// its pc.
fn word_of_end(end: End) -> u64
    ensures { result ≡ end_word end }
{
    match end {
        End::Code0 => 0,
        End::Code1 => 1,
        End::Exhausted => 2,
        End::Trap { cause, pc } => cause as u64 * 0x1_0000_0000 + pc as u64,
    }
}

impl Engine {
    /// Writes the oldest of the stores that wait, of instance k of task t, all of whose turns are made.
    #[inline(always)]
    fn drain_one(&mut self, words: &Words, seat: &mut Seat, t: u32, k: u32)
        requires of { IsSeatOf words.now seat.old }
        requires running { IsRunning words.now.opening t k (all_turns_of words.now.opening t k) self.old seat.old }
        ensures of { IsSeatOf words.now seat.new }
        ensures fixed { fixed_of seat.new ≡ fixed_of seat.old }
        ensures running { IsRunning words.now.opening t k (all_turns_of words.now.opening t k) self.new seat.new }
        ensures oldest { self.new.pairs ≡ drop 1 self.old.pairs }
        ensures core { self.new.core ≡ self.old.core }
    {
        let mut bus = SeatBus { words, seat };
        self.buffer.drain(&mut bus);
    }

    /// Writes the stores that wait, the oldest first, of instance k of task t, which has ended so.
    pub fn drain(&mut self, words: &Words, seat: &mut Seat, t: u32, k: u32, end: End)
        requires of { IsSeatOf words.now seat.old }
        requires over { IsOver words.now.opening t k end self.old seat.old }
        ensures of { IsSeatOf words.now seat.new }
        ensures fixed { fixed_of seat.new ≡ fixed_of seat.old }
        ensures drained { IsDrained words.now.opening t k end self.new seat.new }
    {
        for _i in 0..self.buffer.held() {
            self.drain_one(words, seat, t, k);
        }
    }

    /// Ends instance k of task t, none of whose stores waits any more: draws its end ticket, notes its record, and
    /// makes it done.
    pub fn finish(&self, words: &Words, seat: &mut Seat, t: u32, k: u32, end: End)
        requires of { IsSeatOf words.now seat.old }
        requires drained { IsDrained words.now.opening t k end self.now seat.old }
        ensures of { IsSeatOf words.now seat.new }
        ensures seat { seat.new ≡ seat_with seat.old (done_with t k seat.old.view) }
    {
        let counts = self.cache.counts();
        words.end(seat);
        words.note(seat, Field::End, word_of_end(end));
        words.note(seat, Field::Instructions, self.hart.counted() as u64);
        words.note(seat, Field::Loads, counts.loads as u64);
        words.note(seat, Field::Misses, counts.misses as u64);
        words.note(seat, Field::Stores, counts.stores as u64);
        words.note(seat, Field::Start, self.start as u64);
        words.note(seat, Field::Core, seat.core() as u64);
        words.finish(seat);
    }
}
