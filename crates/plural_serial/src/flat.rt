ghost use Rattle.std.specs.Prelude.{◌≡◌, None, length, nat_lt};

use plural_cache::Bus;
use std::marker::Model;

/// A flat memory of words of 32 bits, with the counts of its reads and writes.
#[derive(Drop)]
pub struct Flat {
    words: Vec<u32>,
    reads: u64,
    writes: u64,
}

impl Model for Flat {
    ghost use Rattle.plural_serial.specs.Words.{Words};

    ghost Value = { Words };

    ghost view = { λ f. record { words = f.words.items; reads = f.reads; writes = f.writes } };
}

impl Flat {
    /// The memory of these words. Nothing was read or written.
    pub fn of(words: Vec<u32>) -> Flat
        ensures { result ≡ record { words = words.items; reads = 0; writes = 0 } }
    {
        Flat {
            words,
            reads: 0,
            writes: 0,
        }
    }

    /// Sets both counts to 0.
    pub fn reset(&mut self)
        ensures { self.new ≡ record self.old { reads = 0; writes = 0 } }
    {
        self.reads = 0;
        self.writes = 0;
    }

    /// The words, given back.
    pub fn into_words(self) -> Vec<u32>
        ensures { result.items ≡ self.words }
    {
        let Flat { words, .. } = self;
        words
    }
}

impl Bus for Flat {
    ghost told = { λ f. record { words = f.words; lawful = λ a. nat_lt a (length f.words); expects = None } };

    ghost counts = { λ f. record { reads = f.reads; writes = f.writes } };

    ghost keeps = { λ _ _. Unit {0} };

    ghost is_sound = { λ _. Unit {0} };

    fn read(&mut self, a: u32) -> u32 {
        self.reads += 1;
        self.words[a as usize]
    }

    fn write(&mut self, a: u32, v: u32) {
        self.writes += 1;
        self.words[a as usize] = v;
    }

    ghost use Rattle.std.proofs.Common.{arith};
    ghost use Rattle.std.proofs.lemmas.Bool.Decides.{nat_tests};

    ghost within = { λ s a h. Prim.grind (arith, nat_tests) };

    ghost keeps_none = { λ _. tt };

    ghost keeps_both = { λ _ _ _ _ _. tt };
}
