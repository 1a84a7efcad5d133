//! What a cache reads and writes.
ghost use Rattle.std.specs.Prelude.{◌≡◌, ℕ, ◌<◌, ◌^◌, true, length, slice_index};
ghost use Rattle.plural_base.specs.Told.{Told, Counted, IsNext};
ghost use Rattle.plural_cache.specs.Bus.{Reads, Writes};

/// A memory as one instance has it, one word in each call. Addresses count words from 0.
pub trait Bus {
    /// What it tells: its words as the instance has them, which of them are lawful to read, and the stores to come,
    /// if they are told.
    ghost told: { Self → Told };

    /// How many words were read and written.
    ghost counts: { Self → Counted };

    /// What stays fixed from one state of the bus to a later one.
    ghost keeps: { Self → Self → Type 0 };

    /// Whether the bus may be used.
    ghost is_sound: { Self → Type 0 };

    /// Reads the word at `a`. For a word that isn't lawful the answer is any number.
    fn read(&mut self, a: u32) -> u32
        requires sound { is_sound self.old }
        requires within { a < length (told self.old).words }
        requires room { (counts self.old).reads < 2 ^ 62 }
        ensures value { (told self.old).lawful a ≡ true → result ≡ slice_index (told self.old).words a }
        ensures step { Reads told counts keeps is_sound 1 self.old self.new };

    /// Writes the word at `a`.
    fn write(&mut self, a: u32, v: u32)
        requires sound { is_sound self.old }
        requires within { a < length (told self.old).words }
        requires room { (counts self.old).writes < 2 ^ 62 }
        requires expected { IsNext (told self.old).expects (a, v) }
        ensures step { Writes told counts keeps is_sound a v self.old self.new };

    /// A lawful word is a word of the memory.
    ghost within: { (s : Self) (a : ℕ) → (told s).lawful a ≡ true → a < length (told s).words };

    /// What is fixed stays if nothing changes.
    ghost keeps_none: { (s : Self) → keeps s s };

    /// What is fixed stays through two changes in turn.
    ghost keeps_both: { (s t u : Self) → keeps s t → keeps t u → keeps s u };
}
