//! A bus that is lent, as a bus of its own.
ghost use Rattle.std.specs.Prelude.{◌≡◌};

use plural_cache::Bus;

/// A bus that is lent, as a bus. Since it is another type, what an instruction does over it is compiled apart from what
/// one does over the bus that is lent: so the loop of a whole run, and no single turn, has that code to itself.
#[derive(Drop)]
pub(crate) struct Lent<'a, B: Bus> {
    pub(crate) bus: &'a mut B,
}

impl<B: Bus> Bus for Lent<'_, B> {
    ghost told = { λ b. B.told b.bus.now };

    ghost counts = { λ b. B.counts b.bus.now };

    ghost keeps = { λ b c. (c.bus.ghost_name ≡ b.bus.ghost_name) × B.keeps b.bus.now c.bus.now };

    ghost is_sound = { λ b. B.is_sound b.bus.now };

    #[inline(always)]
    fn read(&mut self, a: u32) -> u32 {
        self.bus.read(a)
    }

    #[inline(always)]
    fn write(&mut self, a: u32, v: u32) {
        self.bus.write(a, v);
    }

    ghost use Rattle.std.proofs.Common.{refl, ◌∙◌};

    ghost within = { λ s a h. B.within s.bus.now a h };

    ghost keeps_none = { λ s. (refl, B.keeps_none s.bus.now) };

    ghost keeps_both = { λ s t u h k. (k.0 ∙ h.0, B.keeps_both s.bus.now t.bus.now u.bus.now h.1 k.1) };
}
