//! A finished machine.
ghost use Rattle.std.specs.Prelude.{◌≡◌, map, Some};
ghost use Rattle.plural_finished.specs.Laws.{serial_in, HasLegalLog};

use crate::entering::fill_entries;
use crate::filling::{fill_image, fill_outcomes};
use crate::room::Room;
use plural_map::Outcome;
use plural_serial::Program;
use plural_trace::Entry;
use plural_words::Closed;
use std::marker::Model;

/// What a machine leaves once all cores have left: the number of its cores, its image, the outcome of each task, an
/// entry for each instance that ran, and its closed words. It can't be copied, and nothing but the closed words of a
/// whole run makes one.
#[derive(Drop)]
pub struct Finished {
    closed: Closed,
    cores: u32,
    image: Vec<u32>,
    outcomes: Vec<Outcome>,
    entries: Vec<Entry>,
}

impl Model for Finished {
    ghost use Rattle.plural_finished.specs.Finishing.{FinishedValue, finished_of, IsFinished};

    ghost Value = { FinishedValue };

    ghost view = { λ f. finished_of f.cores f.image.items f.outcomes.items f.entries.items f.closed };

    ghost invariant = { λ f. IsFinished
        (finished_of f.cores f.image.items f.outcomes.items f.entries.items f.closed) };
}

impl Finished {
    ghost use Rattle.plural_finished.specs.Rooms.{room_for};
    ghost use Rattle.plural_finished.specs.Finishing.{IsClosedRun, IsFinished};

    /// What the closed words of a whole run of this program say, in room that was taken for it. Takes no memory.
    pub fn of(closed: Closed, program: &Program, room: Room) -> Finished
        requires run { IsClosedRun closed }
        requires program { program.now ≡ closed.opening.program }
        requires room { room ≡ room_for program.now }
        ensures closed { result.closed ≡ closed }
        ensures finished { IsFinished result }
    {
        let Room {
            mut image,
            mut outcomes,
            mut entries,
        } = room;
        let map = program.map();
        fill_image(&closed, map.words(), &mut image);
        fill_outcomes(&closed, map.tasks().len() as u32, &mut outcomes);
        fill_entries(&closed, program, &mut entries);
        let cores = closed.cores();
        Finished {
            closed,
            cores,
            image,
            outcomes,
            entries,
        }
    }

    /// How many cores the machine was opened for.
    pub fn cores(&self) -> u32
        ensures value { result ≡ self.now.cores }
        ensures own { result ≡ self.now.closed.opening.cores }
    {
        self.cores
    }

    /// The last memory: that of the serial run.
    pub fn image(&self) -> &[u32]
        ensures value { result.now ≡ self.now.image }
        ensures serial { result.now ≡ (serial_in self.now.closed).memory }
    {
        self.image.as_slice()
    }

    /// The outcome of each task, by its number: those of the serial run.
    pub fn outcomes(&self) -> &[Outcome]
        ensures value { result.now ≡ self.now.outcomes }
        ensures serial { map (λ o. Some o) result.now ≡ (serial_in self.now.closed).outcomes }
    {
        self.outcomes.as_slice()
    }

    /// The entries of the instances that ran, in the order of their starts. With the cores and the outcomes they are a
    /// legal log.
    pub fn entries(&self) -> &[Entry]
        ensures value { result.now ≡ self.now.entries }
        ensures legal { HasLegalLog self.now }
    {
        self.entries.as_slice()
    }

    /// The closed words, which all of it comes from.
    pub fn closed(&self) -> &Closed
        ensures value { result.now ≡ self.now.closed }
        ensures finished { IsFinished self.now }
    {
        &self.closed
    }
}
