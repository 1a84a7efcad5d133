//! A cache over a bus, as the port of a core.
ghost use Rattle.std.specs.Prelude.{◌≡◌};
ghost use Rattle.plural_cache.specs.Cache.{StandsFor};
ghost use Rattle.plural_serial.specs.Cached.{KeepsCounts, IsCacheOver};

use plural_cache::{Bus, Cache};
use plural_core::DataPort;

/// A cache that is lent, over a bus that is lent. A load goes to the cache, which reads the bus if it misses;
/// a store goes through to the bus.
#[derive(Drop)]
pub struct Cached<'a, B: Bus> {
    pub cache: &'a mut Cache,
    pub bus: &'a mut B,
}

impl<'a, B: Bus> Cached<'a, B> {
    /// The port of this cache over this bus.
    pub fn new(cache: &'a mut Cache, bus: &'a mut B) -> Cached<'a, B>
        ensures cache { (result.cache.now ≡ cache.old) × (result.cache.ghost_name ≡ cache.entry.ghost_name) }
        ensures bus { (result.bus.now ≡ bus.old) × (result.bus.ghost_name ≡ bus.entry.ghost_name) }
    {
        Cached { cache, bus }
    }
}

impl<B: Bus> DataPort for Cached<'_, B> {
    ghost told = { λ c. B.told c.bus.now };

    ghost counts = { λ c. record { reads = c.cache.now.loads; writes = c.cache.now.stores } };

    ghost stands_for = { λ c. StandsFor c.cache.now };

    ghost keeps = { λ c d. (d.bus.ghost_name ≡ c.bus.ghost_name) × (d.cache.ghost_name ≡ c.cache.ghost_name)
        × B.keeps c.bus.now d.bus.now
        × KeepsCounts c.cache.now d.cache.now (B.counts c.bus.now) (B.counts d.bus.now) };

    ghost is_sound = { λ c. B.is_sound c.bus.now × IsCacheOver c.cache.now (B.told c.bus.now) (B.counts c.bus.now) };

    #[inline(always)]
    fn load(&mut self, a: u32) -> u32 {
        self.cache.load(self.bus, a)
    }

    #[inline(always)]
    fn store(&mut self, a: u32, v: u32) {
        self.cache.store(self.bus, a, v);
    }

    ghost use Rattle.std.proofs.Common.{refl, ◌∙◌};
    ghost use Rattle.plural_serial.specs.Keeping.{counts_none, counts_both};

    ghost within = { λ s a h. B.within s.bus.now a h };

    ghost keeps_none = { λ s. (refl, refl, B.keeps_none s.bus.now, counts_none s.cache.now (B.counts s.bus.now)) };

    ghost keeps_both = { λ s t u h k. (
      k.0 ∙ h.0,
      k.1 ∙ h.1,
      B.keeps_both s.bus.now t.bus.now u.bus.now h.2 k.2,
      counts_both s.cache.now t.cache.now u.cache.now (B.counts s.bus.now) (B.counts t.bus.now)
          (B.counts u.bus.now) h.3 k.3,
    ) };
}
