//! The rights as tests are the rights as relations.
ghost use Rattle.std.specs.Prelude.{ℕ, ◌↔◌, IsTrue};
ghost use Rattle.plural_regions.specs.Rights.{InReads, InWrites, may_read, may_write};

/// The test for reading holds exactly if some region has the word.
pub fn reads()
    ensures { (regions : _) (k a : ℕ) → IsTrue (may_read regions k a) ↔ InReads regions k a }
{}

/// The test for writing holds exactly if some write region has the word.
pub fn writes()
    ensures { (regions : _) (k a : ℕ) → IsTrue (may_write regions k a) ↔ InWrites regions k a }
{}
