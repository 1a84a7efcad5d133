//! The filling of a line.
ghost use Rattle.std.specs.Prelude.{◌≡◌, ℕ, ◌+◌, ◌*◌, ◌<◌, ◌≤◌, ◌^◌, length, true, slice_index};
ghost use Rattle.plural_cache.specs.Bus.{Reads};

use crate::bus::Bus;

/// Reads the eight words of a line in rising order, one read of the bus each.
pub fn fill<B: Bus>(bus: &mut B, line: u32) -> [u32; 8]
    requires sound { B.is_sound bus.old }
    requires within { 8 * line + 8 ≤ length (B.told bus.old).words }
    requires fits { line < 2 ^ 29 }
    requires room { (B.counts bus.old).reads < 2 ^ 61 }
    ensures value { (w : ℕ) → w < 8 → (B.told bus.old).lawful (8 * line + w) ≡ true
        → slice_index result w ≡ slice_index (B.told bus.old).words (8 * line + w) }
    ensures step { Reads B.told B.counts B.keeps B.is_sound 8 bus.old bus.new }
{
    let mut words = [0; 8];
    for w in 0..8 {
        words[w] = bus.read(8 * line + w as u32);
    }
    words
}
