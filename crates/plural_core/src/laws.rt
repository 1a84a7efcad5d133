//! Laws of the definitions.
ghost use Rattle.std.specs.Prelude.{◌≡◌, ℕ, ◌+◌, ◌<◌, None, Some};
ghost use Rattle.plural_core.specs.Life.{life};
ghost use Rattle.plural_core.specs.Footprint.{Agrees, Alike, IsGuarded};
ghost use Rattle.plural_core.specs.Laws.{TurnsJoin, StoresSet, FewInTurns, CausesKnown};

/// What an instance does depends on the words that it may read alone.
pub fn footprint()
    ensures { (i : ℕ) (p : _) (s : _) (m n : _) → Agrees p m n → Alike p (life i p s m) (life i p s n) }
{}

/// An instance loads from what it may read, and stores to what it may write.
pub fn guarded()
    ensures { (i : ℕ) (p : _) (s : _) (m : _) → IsGuarded p (life i p s m) }
{}

/// A life of the whole budget has an end.
pub fn ends()
    ensures { (n : ℕ) (p : _) (s : _) (m : _) → s.over ≡ None → s.count + n ≡ p.budget → 0 < n
        → (e : _) × ((life n p s m).state.over ≡ Some e) }
{}

/// The turns of a life are its first ones and then the next.
pub fn turns_join()
    ensures { TurnsJoin }
{}

/// The memory of a life, after any number of turns, is the opening one with its stores set in order.
pub fn stores_set()
    ensures { StoresSet }
{}

/// A life of n turns completes at most n instructions, and makes at most n load accesses and n stores.
pub fn few_in_turns()
    ensures { FewInTurns }
{}

/// The trap that ends a life has a cause of 1 to 9 and a pc below 2^32.
pub fn causes_known()
    ensures { CausesKnown }
{}
