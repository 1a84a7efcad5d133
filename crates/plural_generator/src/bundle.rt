//! The whole bundle.
ghost use Rattle.std.specs.Prelude.{◌≡◌, IfOk};
ghost use Rattle.plural_generator.specs.Text.{made_text};

use crate::draws::image;
use crate::kernels::put_kernels;
use crate::tasks::map;
use plural_bytes::Memory;
use plural_image::print_image;
use plural_map_text::print;
use std::alloc::Global;

/// The text of the large filter bundle of a seed.
pub fn make(alloc: Global, seed: u64) -> Result<Vec<u8>, Memory>
    ensures { IfOk result (λ v. v.items ≡ made_text seed) }
{
    let mut out = Vec::new(alloc);
    out.extend_from_slice(b"plural 1\n[map]\n")?;
    out.extend_from_slice(&print(alloc, &map(alloc)?)?)?;
    out.extend_from_slice(b"[kernels]\n")?;
    put_kernels(&mut out)?;
    out.extend_from_slice(b"[image]\n")?;
    out.extend_from_slice(&print_image(alloc, &image(alloc, seed)?)?)?;
    out.extend_from_slice(b"[end]\n")?;
    Ok(out)
}
