//! A bus that tells the store to come, and notes the addresses that it reads, in their order.
ghost use Rattle.std.specs.Prelude.{◌≡◌, ◌%◌, Some, IfOk, vec_len};
ghost use Rattle.plural_cache.specs.Cache.{IsFresh};

use plural_cache::{Bus, Cache};
use plural_core::DataPort;
use plural_serial::Cached;
use std::alloc::{AllocError, Global};
use std::test::Fail;

/// A memory whose words are all lawful, with one store to come or none.
#[derive(Drop)]
struct Told {
    words: Vec<u32>,
    coming: Option<(u32, u32)>,
    order: [u32; 8],
    reads: u64,
    writes: u64,
}

impl Bus for Told {
    ghost use Rattle.std.specs.Prelude.{length, nat_lt, Some, None, [], ◌∷◌};
    ghost use Rattle.std.specs.Option.{option_map_or};
    ghost use Rattle.std.proofs.Common.{arith};
    ghost use Rattle.std.proofs.lemmas.Bool.Decides.{nat_tests};

    ghost told = { λ b. record {
      words = b.words.items;
      lawful = λ a. nat_lt a (length b.words.items);
      expects = Some (option_map_or (λ s. s ∷ []) b.coming []);
    } };

    ghost counts = { λ b. record { reads = b.reads; writes = b.writes } };

    ghost keeps = { λ _ _. Unit {0} };

    ghost is_sound = { λ _. Unit {0} };

    fn read(&mut self, a: u32) -> u32 {
        self.order[(self.reads % 8) as usize] = a;
        self.reads += 1;
        self.words[a as usize]
    }

    fn write(&mut self, a: u32, v: u32) {
        self.writes += 1;
        self.words[a as usize] = v;
        if self.coming.is_some() {
            self.coming = None;
        }
    }

    ghost within = { λ s a h. Prim.grind (arith, nat_tests) };

    ghost keeps_none = { λ _. tt };

    ghost keeps_both = { λ _ _ _ _ _. tt };
}

/// A memory of sixteen zeros, of which nothing was read and to which nothing was written.
fn sixteen_words(alloc: Global, coming: Option<(u32, u32)>) -> Result<Told, AllocError>
    ensures words { IfOk result (λ b. vec_len b.words ≡ 16) }
    ensures coming { IfOk result (λ b. b.coming ≡ coming) }
    ensures counts { IfOk result (λ b. (b.reads ≡ 0) × (b.writes ≡ 0)) }
{
    let words = [0; 16].to_vec(alloc)?;
    Ok(Told {
        words,
        coming,
        order: [0; 8],
        reads: 0,
        writes: 0,
    })
}

#[test]
fn a_line_is_filled_by_rising_addresses(rt: HostRuntime) -> Result<(), Fail> {
    let mut cache = Cache::open(rt.alloc(), 1, 1)?;
    let mut bus = sixteen_words(rt.alloc(), None)?;
    cache.load(&mut bus, 11);
    assert_eq!(rt; bus.order, [8, 9, 10, 11, 12, 13, 14, 15]);
    Ok(())
}

#[test]
fn a_told_bus_takes_the_store_that_it_expects(rt: HostRuntime) -> Result<(), Fail> {
    let mut cache = Cache::open(rt.alloc(), 1, 1)?;
    let mut bus = sixteen_words(rt.alloc(), Some((3, 7)))?;
    cache.store(&mut bus, 3, 7);
    assert!(rt; bus.coming.is_none());
    assert_eq!(rt; bus.words[3], 7);
    Ok(())
}

/// Stores 7 at word 3 by way of a port that tells this one store.
fn stored(cache: &mut Cache, bus: &mut Told) -> u32
    requires fresh { IsFresh cache.old cache.old.sets cache.old.ways }
    requires words { vec_len bus.old.words ≡ 16 }
    requires coming { bus.old.coming ≡ Some (3, 7) }
    requires reads { bus.old.reads ≡ 0 }
    requires writes { bus.old.writes ≡ 0 }
{
    let mut port = Cached::new(cache, bus);
    port.store(3, 7);
    port.load(3)
}

#[test]
fn a_told_port_takes_the_store_that_it_expects(rt: HostRuntime) -> Result<(), Fail> {
    let mut cache = Cache::open(rt.alloc(), 1, 1)?;
    let mut bus = sixteen_words(rt.alloc(), Some((3, 7)))?;
    let value = stored(&mut cache, &mut bus);
    assert_eq!(rt; (value, bus.reads), (7, 8));
    Ok(())
}
