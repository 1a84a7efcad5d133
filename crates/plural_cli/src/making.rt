//! The command `make`: the bundle of a seed out.

ghost use Rattle.std.specs.Prelude.{◌≡◌, IfOk};
ghost use Rattle.plural_made.specs.Laws.{made_bundle};
ghost use Rattle.plural_cli.specs.Made.{made_bytes};

use crate::reading::{Reading, read};
use plural_bundle::Bundle;
use plural_bytes::Memory;
use plural_generator::make;
use std::alloc::Global;

/// The bytes of the bundle of a seed.
#[tactic(auto, unfolding(crate::specs::Made::made_bytes))]
pub(crate) fn made(alloc: Global, seed: u64) -> Result<Vec<u8>, Memory>
    ensures { IfOk result (λ v. v.items ≡ made_bytes seed) }
{
    make(alloc, seed)
}

/// The bundle of a seed, read from its bytes.
pub(crate) fn made_bundle(alloc: Global, seed: u64) -> Result<Bundle, Memory>
    ensures { IfOk result (λ b. b ≡ made_bundle seed) }
{
    let bytes = made(alloc, seed)?;
    match read(alloc, &bytes)? {
        Reading::Whole(bundle) => Ok(bundle),
        // The bytes of each seed are a bundle without a fault.
        Reading::Faulty(_) => unreachable!(),
    }
}
