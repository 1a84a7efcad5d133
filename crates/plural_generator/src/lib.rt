//! The generator of a large realistic bundle: a filter of 1,024 instances over samples that a seed draws.
//!
//! Promise: `make` answers exactly the bytes of `specs/Text.antt`: the map of `specs/Tasks.antt`, the kernels of
//! `specs/Kernels.antt`, and the image of `specs/Draws.antt`. The map has no clash (`laws::made_accepted`), and its
//! lines, read again, spell it (`laws::map_round_trip`).
//! Stands on `plural_map`, on `plural_map_text` and `plural_image`, which print the map and the image, and on
//! `rand_pcg`. The program's `make` stands on it.
#![tactic(auto)]

mod bundle;
mod draws;
mod kernels;
pub mod laws;
mod tasks;

pub use bundle::make;
