//! The beginning of an instance.
ghost use Rattle.std.specs.Prelude.{◌≡◌, []};
ghost use Rattle.plural_cache.specs.Cache.{IsFresh};
ghost use Rattle.plural_rule.specs.Steps.{began};
ghost use Rattle.plural_rule.specs.declared.view.Stage.TheVariants.{Got};
ghost use Rattle.plural_serial.specs.Cached.{IsShaped};
ghost use Rattle.plural_words.specs.Seen.{IsSeatOf, seat_with};
ghost use Rattle.plural_stages.specs.Engines.{IsGoing};

use crate::engine::Engine;
use plural_cache::{Cache, StoreBuffer};
use plural_core::{Hart, Job};
use plural_serial::Program;
use plural_words::{Seat, Words};

/// Leaves no line in a cache, and no store in a buffer.
fn empty(cache: &mut Cache, buffer: &mut StoreBuffer)
    ensures cache { IsFresh cache.new cache.old.sets cache.old.ways }
    ensures buffer { buffer.new ≡ [] }
{
    cache.empty();
    *buffer = StoreBuffer::new();
}

impl Engine {
    /// Begins instance k of task t, which the seat was handed: draws its start ticket, empties cache and buffer, and
    /// sets the hart to the instance's start.
    pub fn begin(
        &mut self,
        words: &Words,
        program: &Program,
        seat: &mut Seat,
        t: u32,
        k: u32,
    ) -> u32
        requires of { IsSeatOf words.now seat.old }
        requires program { program.now ≡ words.now.opening.program }
        requires got { seat.old.view.stage ≡ Got t k }
        requires shape { IsShaped program.now.map self.old.cache }
        ensures of { IsSeatOf words.now seat.new }
        ensures seat { seat.new ≡ seat_with seat.old (began seat.old.view result) }
        ensures going { IsGoing words.now.opening t k self.new seat.new }
        ensures start { self.new.start ≡ result }
        ensures none { self.new.core.state.count ≡ 0 }
    {
        // For the map's limits.
        let _words = program.map().words();
        let start = words.begin(seat);
        let task = program.task(t);
        empty(&mut self.cache, &mut self.buffer);
        self.hart = Hart::start(Job {
            entry: program.entry(t),
            k,
            q: task.quota(),
            budget: task.budget(),
        });
        self.over = None;
        self.start = start;
        start
    }
}
