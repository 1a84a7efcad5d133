//! Running an instance, from its start ticket until it is done.
ghost use Rattle.std.specs.Prelude.{◌≡◌, ◌<◌, Some, None};
ghost use Rattle.plural_base.specs.Told.{IsNext};
ghost use Rattle.plural_rule.specs.Layout.{clock_at};
ghost use Rattle.plural_rule.specs.Stages.{noted_of};
ghost use Rattle.plural_rule.specs.Steps.{began, did_read, stored, ended, did_note, finished};
ghost use Rattle.plural_words.specs.Fields.{number_of};
ghost use Rattle.plural_words.specs.Seen.{IsSeatOf, seat_with};
ghost use Rattle.plural_words.specs.Stages.{IsGot, instance_of, IsUnderWay, IsRead, to_come, HasRun, IsEnded, noted_in, IsNoted};

use crate::field::Field;
use crate::law::{Begin, End, Finish, Note, Read, Store};
use crate::seat::Seat;
use crate::words::Words;

impl Words {
    /// The place of the clock.
    fn clock_index(&self) -> usize
        ensures { result ≡ clock_at self.now.opening.program }
    {
        self.counters + 5 * self.places.len()
    }

    /// Begins the instance that the seat was handed, and answers its start ticket. It is an instance of the serial
    /// run, and is under way with the memory that it has there. One step on the clock.
    pub fn begin(&self, seat: &mut Seat) -> u32
        requires of { IsSeatOf self.now seat.old }
        requires got { IsGot seat.old.view.stage }
        ensures of { IsSeatOf self.now seat.new }
        ensures seat { seat.new ≡ seat_with seat.old (began seat.old.view result) }
        ensures under_way { IsUnderWay self.now.opening (instance_of seat.old.view.stage) result seat.new.view.stage }
    {
        let index = self.clock_index();
        self.table
            .shared
            .fetch_add::<Begin>(&mut seat.token, index, 1) as u32
    }

    /// Word `a` of the memory, in words from 0: if the seat's instance is under way and may read it, as the instance
    /// has it in the serial run after the stores that it has made, and else any word. One load.
    #[inline(always)]
    pub fn load_mem(&self, seat: &mut Seat, a: u32) -> u32
        requires of { IsSeatOf self.now seat.old }
        requires word { a < self.now.opening.program.map.words }
        ensures of { IsSeatOf self.now seat.new }
        ensures seat { seat.new ≡ seat_with seat.old (did_read seat.old.view) }
        ensures value { IsRead self.now.opening seat.old.view.stage a result }
    {
        self.table.shared.load::<Read>(&mut seat.token, a as usize) as u32
    }

    /// Stores `v` to word `a` of the memory: the next store of the seat's instance. One store.
    #[inline(always)]
    pub fn store_mem(&self, seat: &mut Seat, a: u32, v: u32)
        requires of { IsSeatOf self.now seat.old }
        requires word { a < self.now.opening.program.map.words }
        requires next { IsNext (Some (to_come self.now.opening seat.old.view.stage)) (a, v) }
        ensures of { IsSeatOf self.now seat.new }
        ensures seat { seat.new ≡ seat_with seat.old (stored seat.old.view) }
    {
        self.table
            .shared
            .store::<Store>(&mut seat.token, a as usize, v as u64);
    }

    /// Ends the seat's instance, which has made all its stores and read eight words for each of its misses, and
    /// answers its end ticket. One step on the clock.
    pub fn end(&self, seat: &mut Seat) -> u32
        requires of { IsSeatOf self.now seat.old }
        requires run { HasRun self.now.opening seat.old.view.stage }
        ensures of { IsSeatOf self.now seat.new }
        ensures seat { seat.new ≡ seat_with seat.old (ended seat.old.view result) }
    {
        let index = self.clock_index();
        let ticket = self
            .table
            .shared
            .fetch_add::<End>(&mut seat.token, index, 1);
        seat.last = ticket;
        ticket as u32
    }

    /// Notes a field of the record of the seat's ended instance, each field but the last once. One store.
    pub fn note(&self, seat: &mut Seat, field: Field, value: u64)
        requires of { IsSeatOf self.now seat.old }
        requires ended { IsEnded seat.old.view.stage }
        requires field { number_of field < 7 }
        requires once { noted_of (number_of field) (noted_in seat.old.view.stage) ≡ None }
        ensures of { IsSeatOf self.now seat.new }
        ensures seat { seat.new ≡ seat_with seat.old (did_note seat.old.view (number_of field) value) }
    {
        let index = seat.record_place + field.number() as usize;
        self.table
            .shared
            .store::<Note>(&mut seat.token, index, value);
    }

    /// Makes the seat's instance done: its record is noted as in the serial run, with this core and its start ticket.
    /// The seat is free again, and owes that the instance's end be flagged. One store.
    pub fn finish(&self, seat: &mut Seat)
        requires of { IsSeatOf self.now seat.old }
        requires noted { IsNoted self.now.opening seat.old.core seat.old.view.stage }
        ensures of { IsSeatOf self.now seat.new }
        ensures seat { seat.new ≡ seat_with seat.old (finished seat.old.view) }
    {
        let index = seat.record_place + 7;
        let done = 1 + seat.last;
        self.table
            .shared
            .store::<Finish>(&mut seat.token, index, done);
    }
}
