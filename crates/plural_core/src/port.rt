//! Where a core's loads and stores go.
ghost use Rattle.std.specs.Prelude.{◌≡◌, ℕ, ◌+◌, ◌<◌, List, [], ◌∷◌, ◌++◌, length, true, slice_index};
ghost use Rattle.plural_base.specs.Told.{Told, Counted, IsNext, with_store};

/// A memory as one instance has it. Addresses count words from 0.
pub trait DataPort {
    /// What it tells: its words as the instance has them, which of them are lawful to read, and the stores to come,
    /// if they are told.
    ghost told: { Self → Told };

    /// How many loads and how many stores it counts.
    ghost counts: { Self → Counted };

    /// Which lists of load accesses, by their addresses, the port stands for.
    ghost stands_for: { Self → List ℕ → Type 0 };

    /// What stays fixed from one state of the port to a later one.
    ghost keeps: { Self → Self → Type 0 };

    /// Whether the port may be used.
    ghost is_sound: { Self → Type 0 };

    /// The word at `a`: one load access.
    fn load(&mut self, a: u32) -> u32
        requires sound { is_sound self.old }
        requires lawful { (told self.old).lawful a ≡ true }
        requires room { (counts self.old).reads < 100000000 }
        ensures value { result ≡ slice_index (told self.old).words a }
        ensures told { told self.new ≡ told self.old }
        ensures stands { (h : List ℕ) → stands_for self.old h → stands_for self.new (h ++ a ∷ []) }
        ensures loads { (counts self.new).reads ≡ (counts self.old).reads + 1 }
        ensures stores { (counts self.new).writes ≡ (counts self.old).writes }
        ensures keeps { keeps self.old self.new }
        ensures kept { is_sound self.new };

    /// Sets the word at `a`: one store.
    fn store(&mut self, a: u32, v: u32)
        requires sound { is_sound self.old }
        requires within { a < length (told self.old).words }
        requires expected { IsNext (told self.old).expects (a, v) }
        requires room { (counts self.old).writes < 100000000 }
        ensures told { told self.new ≡ with_store a v (told self.old) }
        ensures stands { (h : List ℕ) → stands_for self.old h → stands_for self.new h }
        ensures loads { (counts self.new).reads ≡ (counts self.old).reads }
        ensures stores { (counts self.new).writes ≡ (counts self.old).writes + 1 }
        ensures keeps { keeps self.old self.new }
        ensures kept { is_sound self.new };

    /// A lawful word is a word of the memory.
    ghost within: { (s : Self) (a : ℕ) → (told s).lawful a ≡ true → a < length (told s).words };

    /// What is fixed stays if nothing changes.
    ghost keeps_none: { (s : Self) → keeps s s };

    /// What is fixed stays through two changes in turn.
    ghost keeps_both: { (s t u : Self) → keeps s t → keeps t u → keeps s u };
}
