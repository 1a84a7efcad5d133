//! The checker of clashes: concurrent reads, exclusive writes.
//!
//! Promise: `check` accepts a map exactly if no two instances that may run at the same time share a word that one of
//! them may write, and otherwise names the first clash (`specs/Clashes.antt`). An `Accepted` is seen as its map, and
//! keeps in its type that the map has no clash.
//! Stands on `plural_regions` (the least meeting of two regions), `plural_map` (tasks) and `plural_reach` (which tasks
//! are ordered, and which exclusive). The program runs accepted maps alone.
#![tactic(auto)]

mod accepted;
mod checking;
mod least;

pub use accepted::{Accepted, Clash};
pub use checking::check;
