//! A store buffer before a bus, as a bus.
ghost use Rattle.std.specs.Prelude.{◌≡◌};
ghost use Rattle.plural_cache.specs.Buffer.{told_through, counted_through, IsBufferOver, IsLate};

use crate::buffer::StoreBuffer;
use crate::bus::Bus;

/// A store buffer that is lent, before a bus that is lent. A store goes to the buffer, and if that is full, its oldest
/// one goes on to the bus; a read finds the newest store of its word, or else what the bus holds.
#[derive(Drop)]
pub struct Buffered<'a, B: Bus> {
    pub buffer: &'a mut StoreBuffer,
    pub bus: &'a mut B,
}

impl<B: Bus> Bus for Buffered<'_, B> {
    ghost told = { λ b. told_through b.buffer.now (B.told b.bus.now) };

    ghost counts = { λ b. counted_through b.buffer.now (B.counts b.bus.now) };

    ghost keeps = { λ b c. (c.bus.ghost_name ≡ b.bus.ghost_name) × (c.buffer.ghost_name ≡ b.buffer.ghost_name)
        × B.keeps b.bus.now c.bus.now };

    ghost is_sound = { λ b. B.is_sound b.bus.now × IsBufferOver b.buffer.now (B.told b.bus.now)
        × IsLate b.buffer.now (B.counts b.bus.now) };

    #[inline(always)]
    fn read(&mut self, a: u32) -> u32 {
        let below = self.bus.read(a);
        self.buffer.word(a, below)
    }

    // A call: inlined, it makes an instruction too large to be inlined into the loop over them.
    #[inline(never)]
    fn write(&mut self, a: u32, v: u32) {
        self.buffer.make_room(self.bus);
        self.buffer.push(a, v);
    }

    ghost use Rattle.std.proofs.Common.{refl, ◌∙◌};
    ghost use Rattle.plural_cache.specs.Buffering.{within_through};

    ghost within = { λ s a h. within_through s.buffer.now (B.told s.bus.now) a (B.within s.bus.now a h) };

    ghost keeps_none = { λ s. (refl, refl, B.keeps_none s.bus.now) };

    ghost keeps_both = { λ s t u h k. (k.0 ∙ h.0, k.1 ∙ h.1, B.keeps_both s.bus.now t.bus.now u.bus.now h.2 k.2) };
}
