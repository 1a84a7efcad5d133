//! The lines of maps: read and printed.
//!
//! Promise: `parse` answers the map that lines spell, or exactly their first fault (`specs/Parts.antt`,
//! `specs/Rules.antt`), and `print` writes the canonical lines (`specs/Print.antt`).
//! Stands on `plural_map`, whose values it spells, and on `plural_bytes` (lines, tokens, numerals). `plural_bundle`
//! reads the map's section through it, and `plural_generator` prints one.
#![tactic(auto)]

mod draft;
mod fault;
mod index;
mod line;
mod printing;
mod read;
mod shape;

pub use fault::{MapError, MapKind};
pub use line::{MapLine, TaskKind};
pub use printing::{print, put_name_at};
pub use read::parse;
