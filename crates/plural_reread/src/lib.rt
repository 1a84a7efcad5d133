//! Maps that were printed and are read again.
//!
//! Promise: the canonical lines that `plural_map_text::print` writes of a map that a version of the format spells have
//! no fault by this version and spell that map (`specs/Laws.antt`, `laws::map_round_trip`, `laws::map_round_trip_2`).
//! Each map that lines without a fault spell is one of their version (`laws::map_fits`, `laws::map_fits_2`). So a map
//! that `parse` answers, printed and read again, gives itself, or memory ran out.
//! Stands on `plural_map`, whose values it speaks of, on `plural_map_text`, whose lines, and on `plural_bytes`, whose
//! lemmas on printed lines it uses (`proofs/Tokens.antt`). `plural_made` stands on it.
#![tactic(auto)]

pub mod laws;
