//! The cache and its four calls.
ghost use Rattle.std.specs.Prelude.{◌≡◌, ℕ, ◌+◌, ◌-◌, ◌*◌, ◌/◌, ◌%◌, ◌<◌, ◌≤◌, ◌^◌, List, [], ◌∷◌, ◌++◌, length, true, slice_index, replicate, if◌then◌else◌, IfOk};
ghost use Rattle.plural_cache.specs.Bus.{Reads, Writes};
ghost use Rattle.plural_base.specs.Told.{IsNext};
ghost use Rattle.plural_cache.specs.Miss.{hits, misses_of};
ghost use Rattle.plural_cache.specs.Cache.{StandsFor, Agrees, IsShape, IsFresh, is_present};
ghost use Rattle.plural_base.specs.CacheShape.{is_set_count};

use crate::access::load_in;
use crate::bus::Bus;
use crate::set::Set;
use plural_base::Memory;
use std::alloc::Global;
use std::marker::Model;

/// What a cache has counted since it was emptied.
#[derive(Clone, Copy, Debug, PartialEq, Eq)]
pub struct Counts {
    /// The load accesses.
    pub loads: u32,
    /// Those of them that missed.
    pub misses: u32,
    /// The stores.
    pub stores: u32,
}

/// A private cache: a number of sets of 1 to 4 lines of 8 words, seen as its shape, the lines that
/// are present, and its counts.
#[derive(Drop)]
pub struct Cache {
    sets: u32,
    ways: u32,
    table: Vec<Set>,
    loads: u32,
    misses: u32,
    stores: u32,
}

impl Model for Cache {
    ghost use Rattle.plural_cache.specs.Cache.{CacheValue, IsCache};

    ghost Value = { CacheValue };

    ghost view = { λ c. record {
      sets = c.sets;
      ways = c.ways;
      held = c.table.items;
      loads = c.loads;
      misses = c.misses;
      stores = c.stores;
    } };

    ghost invariant = { λ c. IsCache
        (record {
          sets = c.sets;
          ways = c.ways;
          held = c.table.items;
          loads = c.loads;
          misses = c.misses;
          stores = c.stores;
        }) };
}

/// This many sets with no line.
fn empty_sets(alloc: Global, n: usize) -> Result<Vec<Set>, Memory>
    ensures { IfOk result (λ v. v.items ≡ replicate n []) }
{
    let mut table = Vec::with_capacity(alloc, n)?;
    for i in 0..n {
        table.push(Set::empty())?;
    }
    Ok(table)
}

/// Drops every line of each set.
fn clear_sets(table: &mut Vec<Set>)
    ensures { table.new.items ≡ replicate (length table.old.items) [] }
{
    for i in 0..table.len() {
        table[i].clear();
    }
}

/// The set that a line belongs to.
#[inline(always)]
fn set_index(line: u32, sets: u32) -> usize
    requires { is_set_count sets ≡ true }
    ensures { result ≡ line % sets }
{
    (line & (sets - 1)) as usize
}

impl Cache {
    /// A cache with no line, of `sets` sets of `ways` lines. It fails only if memory ran out.
    pub fn open(alloc: Global, sets: u32, ways: u32) -> Result<Cache, Memory>
        requires shape { IsShape sets ways }
        ensures fresh { IfOk result (λ c. IsFresh c sets ways) }
    {
        Ok(Cache {
            sets,
            ways,
            table: empty_sets(alloc, sets as usize)?,
            loads: 0,
            misses: 0,
            stores: 0,
        })
    }

    /// Drops every line, and sets the counts to 0.
    pub fn empty(&mut self)
        ensures fresh { IsFresh self.new self.old.sets self.old.ways }
    {
        clear_sets(&mut self.table);
        self.loads = 0;
        self.misses = 0;
        self.stores = 0;
    }

    /// The counts since the cache was emptied.
    pub fn counts(&self) -> Counts
        ensures all { result ≡ record { loads = self.now.loads; misses = self.now.misses; stores = self.now.stores } }
        ensures stands { (h : List ℕ) → StandsFor self.now h → (result.loads ≡ length h)
            × (result.misses ≡ misses_of self.now.sets self.now.ways h) }
    {
        Counts {
            loads: self.loads,
            misses: self.misses,
            stores: self.stores,
        }
    }

    /// A store to word `a`: one write of the bus. It fills no line, and changes no age.
    #[inline(always)]
    pub fn store<B: Bus>(&mut self, bus: &mut B, a: u32, v: u32)
        requires sound { B.is_sound bus.old }
        requires within { a < length (B.told bus.old).words }
        requires room { (B.counts bus.old).writes < 2 ^ 62 }
        requires expected { IsNext (B.told bus.old).expects (a, v) }
        requires agrees { Agrees self.old (B.told bus.old) }
        requires few { self.old.stores < 100000000 }
        ensures step { Writes B.told B.counts B.keeps B.is_sound a v bus.old bus.new }
        ensures stands { (h : List ℕ) → StandsFor self.old h → StandsFor self.new h }
        ensures agrees { Agrees self.new (B.told bus.new) }
        ensures loads { self.new.loads ≡ self.old.loads }
        ensures misses { self.new.misses ≡ self.old.misses }
        ensures stores { self.new.stores ≡ self.old.stores + 1 }
        ensures sets { self.new.sets ≡ self.old.sets }
        ensures ways { self.new.ways ≡ self.old.ways }
    {
        let s = set_index(a / 8, self.sets);
        self.table[s].update(a / 8, (a % 8) as usize, v);
        self.stores += 1;
        bus.write(a, v);
    }

    /// A load access to word `a`. A line that is absent is filled by eight reads of the bus; if its
    /// set is full, the line whose last load access is oldest is dropped.
    #[inline(always)]
    pub fn load<B: Bus>(&mut self, bus: &mut B, a: u32) -> u32
        requires sound { B.is_sound bus.old }
        requires lawful { (B.told bus.old).lawful a ≡ true }
        requires within { 8 * (a / 8) + 8 ≤ length (B.told bus.old).words }
        requires room { (B.counts bus.old).reads < 2 ^ 61 }
        requires agrees { Agrees self.old (B.told bus.old) }
        requires few { self.old.loads < 100000000 }
        ensures value { result ≡ slice_index (B.told bus.old).words a }
        ensures stands { (h : List ℕ) → StandsFor self.old h → StandsFor self.new (h ++ a ∷ []) }
        ensures reads { (h : List ℕ) → StandsFor self.old h → (B.counts bus.new).reads ≡ (B.counts bus.old).reads
            + (if hits self.old.sets self.old.ways h a then 0 else 8) }
        ensures step { Reads B.told B.counts B.keeps B.is_sound
            (if is_present self.old a then 0 else 8) bus.old bus.new }
        ensures misses { self.new.misses ≡ self.old.misses + (if is_present self.old a then 0 else 1) }
        ensures agrees { Agrees self.new (B.told bus.new) }
        ensures loads { self.new.loads ≡ self.old.loads + 1 }
        ensures stores { self.new.stores ≡ self.old.stores }
        ensures sets { self.new.sets ≡ self.old.sets }
        ensures ways { self.new.ways ≡ self.old.ways }
    {
        let s = set_index(a / 8, self.sets);
        let got = load_in(&mut self.table[s], self.ways as usize, bus, a);
        self.loads += 1;
        self.misses += got.misses;
        got.value
    }
}
