//! The store buffer.
ghost use Rattle.std.specs.Prelude.{◌≡◌, ◌⊎◌, ◌<◌, ◌≤◌, ◌^◌, ◌%◌, ℕ, List, [], ◌∷◌, ◌++◌, ◌-◌, length, take, drop, nat_lt, slice_index};
ghost use Rattle.plural_base.specs.Stores.{sets};
ghost use Rattle.plural_cache.specs.Buffer.{IsBufferOver, IsLate, Drains, told_through, counted_through};

use crate::bus::Bus;
use std::marker::Model;

/// How many stores a buffer holds.
const PAIRS: usize = 16;

/// Into how many classes word addresses fall: those with one remainder.
const CLASSES: usize = 64;

/// The stores of a core that the memory hasn't got yet, seen as pairs of word address and word, the oldest first. It
/// has room for 16. How many there are of each class is kept beside them, so that most reads of words without a store
/// look at no pair.
#[derive(Drop)]
pub struct StoreBuffer {
    pairs: [(u32, u32); PAIRS],
    used: usize,
    of_class: [u8; CLASSES],
}

impl Model for StoreBuffer {
    ghost use Rattle.std.specs.Prelude.{◌≡◌, ℕ, List, length, take, ◌≤◌};
    ghost use Rattle.plural_cache.specs.Buffer.{AreCounted};

    ghost Value = { List (ℕ × ℕ) };

    ghost view = { λ b. take b.used b.pairs };

    ghost invariant = { λ b. (b.used ≤ 16) × (length b.pairs ≡ 16) × AreCounted (take b.used b.pairs) b.of_class };
}

/// The class of a word address.
#[inline(always)]
fn class_of(a: u32) -> usize
    ensures { result ≡ a % 64 }
{
    a as usize % CLASSES
}

/// Word `a` as these stores leave it, if it is `below` without them.
#[inline(always)]
fn word_after(pairs: &[(u32, u32)], a: u32, below: u32) -> u32
    ensures { (m : List ℕ) → a < length m → slice_index m a ≡ below → result ≡ slice_index (sets m pairs.now) a }
{
    let mut word = below;
    for i in 0..pairs.len() {
        let (at, v) = pairs[i];
        if at == a {
            word = v;
        }
    }
    word
}

/// Moves each pair but the first one place down.
#[inline(always)]
fn shift_down(pairs: &mut [(u32, u32)])
    requires some { 0 < length pairs.old }
    ensures same { length pairs.new ≡ length pairs.old }
    ensures front { take (length pairs.old - 1) pairs.new ≡ drop 1 pairs.old }
{
    for i in 1..pairs.len() {
        pairs[i - 1] = pairs[i];
    }
}

impl StoreBuffer {
    /// A buffer without a store.
    pub fn new() -> StoreBuffer
        ensures { result ≡ [] }
    {
        StoreBuffer {
            pairs: [(0, 0); PAIRS],
            used: 0,
            of_class: [0; CLASSES],
        }
    }

    /// How many stores it holds.
    #[inline(always)]
    pub fn held(&self) -> u32
        ensures held { result ≡ length self.now }
        ensures few { result ≤ 16 }
    {
        self.used as u32
    }

    /// Word `a` as the stores leave it, if it is `below` without them.
    #[inline(always)]
    pub(crate) fn word(&self, a: u32, below: u32) -> u32
        ensures { (m : List ℕ) → a < length m → slice_index m a ≡ below → result ≡ slice_index (sets m self.now) a }
    {
        if self.of_class[class_of(a)] == 0 {
            return below;
        }
        word_after(&self.pairs[..self.used], a, below)
    }

    /// Adds the store of `v` to word `a` as the newest.
    #[inline(always)]
    pub(crate) fn push(&mut self, a: u32, v: u32)
        requires room { length self.old < 16 }
        ensures { self.new ≡ self.old ++ (a, v) ∷ [] }
    {
        self.pairs[self.used] = (a, v);
        self.used += 1;
        self.of_class[class_of(a)] += 1;
    }

    /// Removes the oldest store and answers it.
    #[inline(always)]
    fn pop(&mut self) -> (u32, u32)
        requires some { 0 < length self.old }
        ensures { self.old ≡ result ∷ self.new }
    {
        let oldest = self.pairs[0];
        shift_down(&mut self.pairs[..self.used]);
        self.used -= 1;
        self.of_class[class_of(oldest.0)] -= 1;
        oldest
    }

    /// Writes the oldest store to the bus, and removes it. False if there is none.
    #[inline(always)]
    pub fn drain<B: Bus>(&mut self, bus: &mut B) -> bool
        requires sound { B.is_sound bus.old }
        requires over { IsBufferOver self.old (B.told bus.old) }
        requires room { (B.counts bus.old).writes < 2 ^ 62 }
        ensures drained { result ≡ nat_lt 0 (length self.old) }
        ensures oldest { self.new ≡ drop 1 self.old }
        ensures bus { Drains B.told B.counts B.keeps B.is_sound self.old bus.old bus.new }
        ensures over { IsBufferOver self.new (B.told bus.new) }
        ensures told { told_through self.new (B.told bus.new) ≡ told_through self.old (B.told bus.old) }
    {
        if self.used == 0 {
            return false;
        }
        let (a, v) = self.pop();
        bus.write(a, v);
        true
    }

    /// Writes the oldest store to the bus if the buffer is full.
    #[inline(always)]
    pub(crate) fn make_room<B: Bus>(&mut self, bus: &mut B)
        requires sound { B.is_sound bus.old }
        requires over { IsBufferOver self.old (B.told bus.old) }
        requires late { IsLate self.old (B.counts bus.old) }
        requires room { (B.counts bus.old).writes < 2 ^ 62 }
        ensures room { length self.new < 16 }
        ensures late { (length self.new ≡ 15) ⊎ ((B.counts bus.new).writes ≡ 0) }
        ensures told { told_through self.new (B.told bus.new) ≡ told_through self.old (B.told bus.old) }
        ensures counts { counted_through self.new (B.counts bus.new) ≡ counted_through self.old (B.counts bus.old) }
        ensures over { IsBufferOver self.new (B.told bus.new) }
        ensures keeps { B.keeps bus.old bus.new }
        ensures sound { B.is_sound bus.new }
    {
        if self.used == 16 {
            self.drain(bus);
        }
    }
}
