//! Accesses over a small bus, against rows worked by hand.
ghost use Rattle.std.specs.Prelude.{◌≡◌, ◌≤◌, vec_len, length, None};
ghost use Rattle.plural_cache.specs.Cache.{IsFresh};

use plural_cache::{Buffered, Bus, Cache, Counts, StoreBuffer};
use std::test::Fail;

/// A memory whose words are all lawful, and which tells no stores.
#[derive(Drop)]
struct Words {
    words: Vec<u32>,
    reads: u64,
    writes: u64,
}

impl Bus for Words {
    ghost use Rattle.std.specs.Prelude.{length, nat_lt, None};
    ghost use Rattle.std.proofs.Common.{arith};
    ghost use Rattle.std.proofs.lemmas.Bool.Decides.{nat_tests};

    ghost told = { λ w. record {
      words = w.words.items;
      lawful = λ a. nat_lt a (length w.words.items);
      expects = None;
    } };

    ghost counts = { λ w. record { reads = w.reads; writes = w.writes } };

    ghost keeps = { λ _ _. Unit {0} };

    ghost is_sound = { λ _. Unit {0} };

    fn read(&mut self, a: u32) -> u32 {
        self.reads += 1;
        self.words[a as usize]
    }

    fn write(&mut self, a: u32, v: u32) {
        self.writes += 1;
        self.words[a as usize] = v;
    }

    ghost within = { λ s a h. Prim.grind (arith, nat_tests) };

    ghost keeps_none = { λ _. tt };

    ghost keeps_both = { λ _ _ _ _ _. tt };
}

/// Loads the words 0, 8 and 0 of 16.
fn replaced(cache: &mut Cache, bus: &mut Words) -> Counts
    requires fresh { IsFresh cache.old cache.old.sets cache.old.ways }
    requires words { vec_len bus.old.words ≡ 16 }
    requires reads { bus.old.reads ≡ 0 }
{
    cache.load(bus, 0);
    cache.load(bus, 8);
    cache.load(bus, 0);
    cache.counts()
}

#[test]
fn a_line_comes_back_only_where_it_was_dropped(rt: HostRuntime) -> Result<(), Fail> {
    let alloc = rt.alloc();
    let words = [0; 16];
    let mut one = Cache::open(alloc, 1, 1)?;
    let mut bus = Words {
        words: words.to_vec(alloc)?,
        reads: 0,
        writes: 0,
    };
    let counts = replaced(&mut one, &mut bus);
    assert_eq!(rt; (counts.loads, counts.misses, bus.reads), (3, 3, 24));
    let mut two_ways = Cache::open(alloc, 1, 2)?;
    let mut bus = Words {
        words: words.to_vec(alloc)?,
        reads: 0,
        writes: 0,
    };
    let counts = replaced(&mut two_ways, &mut bus);
    assert_eq!(rt; (counts.loads, counts.misses, bus.reads), (3, 2, 16));
    let mut two_sets = Cache::open(alloc, 2, 1)?;
    let mut bus = Words {
        words: words.to_vec(alloc)?,
        reads: 0,
        writes: 0,
    };
    let counts = replaced(&mut two_sets, &mut bus);
    assert_eq!(rt; (counts.loads, counts.misses, bus.reads), (3, 2, 16));
    Ok(())
}

#[test]
fn a_store_goes_through_and_fills_no_line(rt: HostRuntime) -> Result<(), Fail> {
    let mut cache = Cache::open(rt.alloc(), 1, 1)?;
    let mut bus = Words {
        words: [0; 16].to_vec(rt.alloc())?,
        reads: 0,
        writes: 0,
    };
    cache.store(&mut bus, 1, 5);
    let filled = cache.load(&mut bus, 1);
    cache.store(&mut bus, 2, 6);
    cache.store(&mut bus, 9, 7);
    let kept = cache.load(&mut bus, 2);
    assert_eq!(rt; (filled, kept, bus.reads, bus.writes), (5, 6, 8, 3));
    let counts = cache.counts();
    assert_eq!(rt; (counts.loads, counts.misses, counts.stores), (2, 1, 3));
    cache.empty();
    let again = cache.load(&mut bus, 9);
    assert_eq!(rt; (again, bus.reads, cache.counts().misses), (7, 16, 1));
    Ok(())
}

/// Writes 10 and more to the first words.
fn write_words<B: Bus>(bus: &mut B, n: u32)
    requires sound { B.is_sound bus.old }
    requires within { n ≤ length (B.told bus.old).words }
    requires untold { (B.told bus.old).expects ≡ None }
    requires few { n ≤ 100 }
    requires room { (B.counts bus.old).writes ≡ 0 }
    ensures keeps { B.keeps bus.old bus.new }
{
    for i in 0..n {
        bus.write(i, 10 + i);
    }
}

#[test]
fn a_full_buffer_passes_on_its_oldest_store(rt: HostRuntime) -> Result<(), Fail> {
    let mut bus = Words {
        words: [0; 17].to_vec(rt.alloc())?,
        reads: 0,
        writes: 0,
    };
    let mut buffer = StoreBuffer::new();
    let mut buffered = Buffered {
        buffer: &mut buffer,
        bus: &mut bus,
    };
    write_words(&mut buffered, 17);
    assert_eq!(rt; (buffer.held(), bus.writes), (16, 1));
    assert_eq!(rt; bus.words.first(), Some(&10));
    assert_eq!(rt; bus.words.get(1), Some(&0));
    Ok(())
}

#[test]
fn a_read_finds_the_newest_store_and_drains_make_it_the_last(rt: HostRuntime) -> Result<(), Fail> {
    let mut bus = Words {
        words: [0; 8].to_vec(rt.alloc())?,
        reads: 0,
        writes: 0,
    };
    let mut buffer = StoreBuffer::new();
    let mut buffered = Buffered {
        buffer: &mut buffer,
        bus: &mut bus,
    };
    buffered.write(3, 5);
    buffered.write(3, 6);
    let newest = buffered.read(3);
    assert_eq!(rt; (newest, bus.reads, bus.writes), (6, 1, 0));
    assert_eq!(rt; bus.words.get(3), Some(&0));
    let first = buffer.drain(&mut bus);
    let second = buffer.drain(&mut bus);
    let third = buffer.drain(&mut bus);
    assert_eq!(rt; (first, second, third), (true, true, false));
    assert_eq!(rt; bus.words.get(3), Some(&6));
    Ok(())
}
