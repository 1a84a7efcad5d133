//! The words after the last step.
ghost use Rattle.std.specs.Prelude.{◌≡◌, ◌<◌, slice_index};

use crate::field::Field;
use crate::key::Key;
use crate::law::Law;
use crate::place::Place;
use crate::settling::{outcome_of_flags, outcome_of_state};
use atomic_table::Table;
use plural_map::Outcome;
use plural_rule::View;
use std::alloc::Global;
use std::marker::Model;
use std::snapshot::Snapshot;

/// Words that no core shares any more. Contracts see what they were opened with, the words, and what the root knew.
pub struct Closed {
    pub(crate) inner: atomic_table::Closed<(), Global>,
    pub(crate) places: Vec<Place>,
    pub(crate) counters: usize,
    pub(crate) cores: u32,
    pub(crate) table: Snapshot<Table<(), View, Key, Law, Global>>,
    pub(crate) root: Snapshot<atomic_table::Seat<(), View>>,
}

impl Model for Closed {
    ghost use Rattle.std.specs.Prelude.{◌≡◌};
    ghost use Rattle.std.specs.Slots.{slots_items, slots_len, IsFull};
    ghost use Rattle.plural_rule.specs.Layout.{word_count};
    ghost use Rattle.plural_words.specs.Closing.{ClosedSeen, closed_seen, IsClosed};
    ghost use Rattle.plural_words.specs.Places.{HasPlaces};

    ghost Value = { ClosedSeen };

    ghost view = { λ c. closed_seen c.table.value.shared.key (slots_items c.inner.words) c.root.value.me.0 };

    ghost invariant = { λ c. (IsFull c.inner.words × (slots_len c.inner.slots ≡ 0)
        × (slots_len c.inner.words ≡ word_count c.table.value.shared.key.program))
        × HasPlaces c.table.value.shared.key.program c.places.items c.counters
        × IsClosed (closed_seen c.table.value.shared.key (slots_items c.inner.words) c.root.value.me.0)
        × (c.cores ≡ c.table.value.shared.key.cores) };
}

impl Closed {
    ghost use Rattle.plural_rule.specs.Opening.{IsInstance, outcome_of};
    ghost use Rattle.plural_rule.specs.Layout.{field_at};
    ghost use Rattle.plural_words.specs.Closing.{HasToldTask};
    ghost use Rattle.plural_words.specs.Fields.{number_of};

    /// Word `a` of the memory, in words from 0.
    pub fn mem(&self, a: u32) -> u32
        requires word { a < self.now.opening.program.map.words }
        ensures { result ≡ slice_index self.now.words a }
    {
        self.inner.word(a as usize) as u32
    }

    /// A field of the record of instance k of task t.
    pub fn record(&self, t: u32, k: u32, field: Field) -> u64
        requires instance { IsInstance self.now.opening.program t k }
        ensures { result ≡ slice_index self.now.words (field_at self.now.opening.program t k (number_of field)) }
    {
        let index = self.places[t as usize].records + 8 * k as usize + field.number() as usize;
        self.inner.word(index)
    }

    /// The outcome of task t, which the root had told: that of the serial run. If the task was armed its flags say it,
    /// else its state does.
    pub fn outcome(&self, t: u32) -> Outcome
        requires told { HasToldTask self.now.root t }
        ensures { result ≡ outcome_of self.now.opening t }
    {
        let task = self.counters + 5 * t as usize;
        if self.inner.word(task) == 0 {
            outcome_of_state(self.inner.word(task + 3))
        } else {
            outcome_of_flags(self.inner.word(task + 1))
        }
    }

    /// How many cores the words were opened for.
    pub fn cores(&self) -> u32
        ensures { result ≡ self.now.opening.cores }
    {
        self.cores
    }
}

impl Drop for Closed {
    fn drop(self) {
        let Closed {
            inner,
            places,
            counters: _,
            cores: _,
            table: _,
            root: _,
        } = self;
        drop(places);
        inner.free();
    }
}
