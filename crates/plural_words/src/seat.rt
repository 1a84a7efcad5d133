//! The tokens: the root of the machine, and a seat for each core. What a token knows has no bytes.
ghost use Rattle.std.specs.Prelude.{◌≡◌};

use plural_rule::View;
use std::marker::Model;

/// A core's token. A call that a core makes takes it, and leaves it knowing what the step told. Contracts see its
/// table, its core number, and its view.
#[derive(Drop)]
pub struct Seat {
    pub(crate) token: atomic_table::Seat<(), View>,
    pub(crate) core: u32,
    // Where the record of the instance that it holds begins, and the instance's end ticket once that is drawn.
    pub(crate) record_place: usize,
    pub(crate) last: u64,
}

impl Model for Seat {
    ghost use Rattle.std.specs.Prelude.{◌≡◌, length};
    ghost use Rattle.plural_words.specs.Seen.{SeatSeen};
    ghost use Rattle.plural_words.specs.Places.{IsPlaceOf};

    ghost Value = { SeatSeen };

    ghost view = { λ s. record { table = s.token.table_id; core = s.core; view = s.token.me.0 } };

    ghost invariant = { λ s. (length s.token.me.1 ≡ 0)
        × IsPlaceOf s.token.me.0.opening.program s.token.me.0.stage s.record_place s.last };
}

impl Seat {
    /// The core number, from 0.
    pub fn core(&self) -> u32
        ensures { result ≡ self.now.core }
    {
        self.core
    }
}

/// The machine's token, from which seats are split. Contracts see its table and its view.
#[derive(Drop)]
pub struct Root {
    pub(crate) token: atomic_table::Seat<(), View>,
}

impl Model for Root {
    ghost use Rattle.std.specs.Prelude.{◌≡◌, length};
    ghost use Rattle.plural_words.specs.Seen.{RootSeen};

    ghost Value = { RootSeen };

    ghost view = { λ r. record { table = r.token.table_id; view = r.token.me.0 } };

    ghost invariant = { λ r. (length r.token.me.1 ≡ 0) × (r.token.id ≡ 0) };
}
