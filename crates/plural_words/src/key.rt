//! What a table is told once, when it is opened. It has no bytes.
ghost use Rattle.std.specs.Prelude.{◌≡◌, take};

use plural_serial::Program;
use std::marker::Model;
use std::snapshot::Snapshot;

/// A program, the words that a table is opened with, of which the image comes first, and how many cores there are.
/// Contracts see the opening that these are.
#[derive(Drop)]
pub(crate) struct Key {
    program: Snapshot<Program>,
    words: Snapshot<Vec<u64>>,
    cores: Snapshot<u32>,
}

impl Model for Key {
    ghost use Rattle.std.specs.Prelude.{take};
    ghost use Rattle.plural_rule.specs.Opening.{Opening};
    ghost use Rattle.plural_words.specs.Seen.{opening_of};

    ghost Value = { Opening };

    ghost view = { λ k. opening_of k.program.value (take k.program.value.map.words k.words.value.items)
        k.cores.value };
}

impl Key {
    /// The key of these.
    pub(crate) fn of(program: &Program, words: &Vec<u64>, cores: &u32) -> Key
        ensures program { result.program ≡ program.now }
        ensures image { result.image ≡ take program.now.map.words words.now.items }
        ensures cores { result.cores ≡ cores.now }
    {
        Key {
            program: Snapshot::of(program),
            words: Snapshot::of(words),
            cores: Snapshot::of(cores),
        }
    }
}
