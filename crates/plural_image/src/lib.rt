//! Images of the memory as text: image lines, read and printed.
//!
//! Promise: reading gives the words that the lines spell, or exactly their first fault
//! (`specs/Image.antt`); printing gives the canonical lines (`specs/Print.antt`), which, read again,
//! have no fault and spell the image (`laws::image_round_trip`).
//!
//! Stands on `plural_bytes`. `plural_bundle`, `plural_output` and `plural_cli` read and print images
//! by it, and `plural_log` single words of eight hexadecimal digits.
#![tactic(auto)]

mod fault;
pub mod laws;
mod print;
mod read;
mod shape;

pub use fault::{ImageError, ImageKind};
pub use plural_bytes::hex;
pub use plural_sections::word_of;
pub use print::print_image;
pub use read::read_image;
