//! The image, drawn word by word.
ghost use Rattle.std.specs.Prelude.{◌≡◌, ◌<◌, length, IfOk};
ghost use Rattle.plural_generator.specs.Draws.{made_image};
ghost use Rattle.plural_generator.specs.Places.{word_by, generator_after};

use plural_bytes::Memory;
use rand_core::SeedableRng;
use rand_core::utils::NextWord;
use rand_pcg::Pcg32;
use std::alloc::Global;

/// How many words the memory has.
const WORDS: u32 = 32_816;

/// How many words at the start of the memory are samples.
const SAMPLES: u32 = 16_399;

/// The first word of the taps.
const TAPS: u32 = 16_400;

/// How many taps there are.
const TAP_COUNT: u32 = 16;

/// The word that has the limit.
const LIMIT: u32 = 32_810;

/// Word `i` of the image, by the generator's next word if it is drawn.
fn next_word(rng: &mut Pcg32, i: u32) -> u32
    ensures word { result ≡ word_by rng.old i }
    ensures rest { rng.new ≡ generator_after rng.old i }
{
    if i < SAMPLES {
        rng.next_word() % 4096
    } else if TAPS <= i && i < TAPS + TAP_COUNT {
        1 + rng.next_word() % 16
    } else if i == LIMIT {
        rng.next_word() % 1_048_576
    } else {
        0
    }
}

/// The image of a seed.
pub(crate) fn image(alloc: Global, seed: u64) -> Result<Vec<u32>, Memory>
    ensures words { IfOk result (λ v. v.items ≡ made_image seed) }
    ensures len { IfOk result (λ v. length v.items ≡ 32816) }
{
    let mut rng = Pcg32::seed_from_u64(seed);
    let mut words = Vec::new(alloc);
    for i in 0..WORDS {
        words.push(next_word(&mut rng, i))?;
    }
    Ok(words)
}
