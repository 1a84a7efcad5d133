//! Affine regions of the shared memory: which words each instance of a task may read and write.
//!
//! Promise: `Region::contains` is membership, `Region::inside` finds the least instance that
//! leaves the memory, and `meet` the least instances of two regions that share a word
//! (`specs/Meeting.antt`), without going over all of them if it need not. The rights of an
//! instance over a list of regions are the definitions of `specs/Rights.antt`, where the laws tie
//! each test to "some region has the word".
//! Stands on no other crate. `plural_core` guards loads and stores by these rights, `plural_map`
//! reads regions, and the checker of clashes, `plural_crew`, meets them.
#![tactic(auto)]

pub mod laws;
mod meeting;
mod region;
mod residue;
mod triple;
mod window;

pub use meeting::{meet, meet_by_scan};
pub use region::{Mode, Outside, Region};
pub use residue::least_residue;
pub use triple::Meet;
pub use window::Window;
