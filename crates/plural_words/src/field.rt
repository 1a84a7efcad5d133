//! The fields of a record.
ghost use Rattle.std.specs.Prelude.{◌≡◌};

/// A word of an instance's record.
#[derive(Clone, Copy, Debug, PartialEq, Eq)]
pub enum Field {
    /// How it ended: 0 or 1 for a code, 2 for a budget used up, and for a trap its cause times 2^32 plus its pc.
    End,
    /// How many instructions it completed.
    Instructions,
    /// How many of its accesses were loads.
    Loads,
    /// How many of them missed.
    Misses,
    /// How many of its accesses were stores.
    Stores,
    /// Its start ticket.
    Start,
    /// The number of the core that ran it.
    Core,
    /// 1 plus its end ticket once it is done; 0 before.
    Done,
}

impl Field {
    ghost use Rattle.plural_words.specs.Fields.{number_of};

    /// The place of the field in its record, from 0.
    pub fn number(self) -> u32
        ensures { result ≡ number_of self }
    {
        match self {
            Field::End => 0,
            Field::Instructions => 1,
            Field::Loads => 2,
            Field::Misses => 3,
            Field::Stores => 4,
            Field::Start => 5,
            Field::Core => 6,
            Field::Done => 7,
        }
    }
}
