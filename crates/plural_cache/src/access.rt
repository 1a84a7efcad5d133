//! A load access by the set of its line.
ghost use Rattle.std.specs.Prelude.{◌≡◌, ℕ, ◌+◌, ◌*◌, ◌/◌, ◌%◌, ◌<◌, ◌≤◌, ◌^◌, length, true, false, slice_index, if◌then◌else◌};
ghost use Rattle.plural_cache.specs.Bus.{Reads};
ghost use Rattle.plural_cache.specs.Miss.{is_in};
ghost use Rattle.plural_cache.specs.Lines.{keys, front};
ghost use Rattle.plural_cache.specs.Cache.{loaded};

use crate::bus::Bus;
use crate::filling::fill;
use crate::set::{Line, Set};

/// What a load access answers.
#[derive(Clone, Copy, Drop)]
pub struct Loaded {
    /// The word.
    pub value: u32,
    /// 1 if the access missed, else 0.
    pub misses: u32,
}

/// A load access to word `a`, whose line belongs to `set` and is absent: the line is filled.
#[inline(never)]
fn load_absent<B: Bus>(set: &mut Set, ways: usize, bus: &mut B, a: u32) -> u32
    requires ways { (0 < ways) × (ways ≤ 4) }
    requires sound { B.is_sound bus.old }
    requires within { 8 * (a / 8) + 8 ≤ length (B.told bus.old).words }
    requires room { (B.counts bus.old).reads < 2 ^ 61 }
    ensures order { set.new ≡ loaded false ways (a / 8) (front set.new) set.old }
    ensures value { result ≡ slice_index (front set.new) (a % 8) }
    ensures words { (w : ℕ) → w < 8 → (B.told bus.old).lawful (8 * (a / 8) + w) ≡ true
        → slice_index (front set.new) w ≡ slice_index (B.told bus.old).words (8 * (a / 8) + w) }
    ensures step { Reads B.told B.counts B.keeps B.is_sound 8 bus.old bus.new }
{
    let line = a / 8;
    let words = fill(bus, line);
    set.push(ways, Line { line, words });
    set.front_word((a % 8) as usize)
}

/// A load access to word `a`, whose line belongs to `set`: a line that is absent is filled.
#[inline(always)]
pub fn load_in<B: Bus>(set: &mut Set, ways: usize, bus: &mut B, a: u32) -> Loaded
    requires ways { (0 < ways) × (ways ≤ 4) }
    requires sound { B.is_sound bus.old }
    requires within { 8 * (a / 8) + 8 ≤ length (B.told bus.old).words }
    requires room { (B.counts bus.old).reads < 2 ^ 61 }
    ensures order { set.new ≡ loaded (is_in (a / 8) (keys set.old)) ways (a / 8) (front set.new) set.old }
    ensures value { result.value ≡ slice_index (front set.new) (a % 8) }
    ensures words { is_in (a / 8) (keys set.old) ≡ false → (w : ℕ) → w < 8
        → (B.told bus.old).lawful (8 * (a / 8) + w) ≡ true
        → slice_index (front set.new) w ≡ slice_index (B.told bus.old).words (8 * (a / 8) + w) }
    ensures misses { result.misses ≡ (if is_in (a / 8) (keys set.old) then 0 else 1) }
    ensures step { Reads B.told B.counts B.keeps B.is_sound
        (if is_in (a / 8) (keys set.old) then 0 else 8) bus.old bus.new }
{
    if set.seek(a / 8) {
        Loaded {
            value: set.front_word((a % 8) as usize),
            misses: 0,
        }
    } else {
        Loaded {
            value: load_absent(set, ways, bus, a),
            misses: 1,
        }
    }
}
