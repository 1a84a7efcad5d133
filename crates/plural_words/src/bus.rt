//! The shared words as the bus of a running instance.
ghost use Rattle.std.specs.Prelude.{◌≡◌};
ghost use Rattle.plural_words.specs.Lent.{counts_in, told_in, fixed_of, IsLent};

use crate::seat::Seat;
use crate::words::Words;
use plural_cache::Bus;

/// The words, with a seat that is lent and whose instance is under way. It holds the memory of the instance in the
/// serial run, after the stores that the instance has made.
#[derive(Drop)]
pub struct SeatBus<'a> {
    pub words: &'a Words,
    pub seat: &'a mut Seat,
}

impl Bus for SeatBus<'_> {
    ghost told = { λ b. told_in b.words.now.opening b.seat.now.view.stage };

    ghost counts = { λ b. counts_in b.seat.now.view.stage };

    ghost keeps = { λ b c. (c.seat.ghost_name ≡ b.seat.ghost_name) × (c.words.now ≡ b.words.now)
        × (fixed_of c.seat.now ≡ fixed_of b.seat.now) };

    ghost is_sound = { λ b. IsLent b.words.now b.seat.now };

    #[inline(always)]
    fn read(&mut self, a: u32) -> u32 {
        self.words.load_mem(self.seat, a)
    }

    #[inline(always)]
    fn write(&mut self, a: u32, v: u32) {
        self.words.store_mem(self.seat, a, v);
    }

    ghost use Rattle.std.proofs.Common.{refl, ◌∙◌};
    ghost use Rattle.plural_words.specs.LawfulWords.{lawful_within};

    ghost within = { λ s a h. lawful_within s.words.now.opening s.seat.now.view.stage a h };

    ghost keeps_none = { λ _. (refl, refl, refl) };

    ghost keeps_both = { λ s t u h k. (k.0 ∙ h.0, k.1 ∙ h.1, k.2 ∙ h.2) };
}
