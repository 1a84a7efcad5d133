//! Bundles: a version, a map, kernels and an image in one text.
//!
//! Promise: `read_bundle` answers the program and the image that the lines of a bundle spell
//! (`specs/Value.antt`), or exactly the first line with a fault and its least kind
//! (`specs/Rules.antt`). The lines without a fault are those of the form, part by part
//! (`laws::parts_make_a_bundle`, `laws::a_bundle_has_parts`). `section` cuts lines into sections, and
//! `border` tells what has to stand between them.
//! Stands on `plural_map`, `plural_asm` and `plural_image`, which read the sections, and on
//! `plural_serial`, whose program it makes. `plural_cli` reads what it runs through it, and
//! `plural_output` reads the sections of an output.
#![tactic(auto)]

mod bundle;
mod fault;
mod first_line;
pub mod laws;
mod program;
mod read;

pub use bundle::Bundle;
pub use fault::BundleError;
pub use plural_sections::Fault;
pub use read::read_bundle;
