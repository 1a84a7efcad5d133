//! Which tasks of a map come before which, and which exclude each other.
//!
//! Promise: `Reach::before` answers whether a chain of dependencies leads from one task to another
//! (`specs/Chains.antt`), and `Needs::exclusive` whether two tasks are exclusive branches, of which at most one runs
//! (`specs/Branches.antt`). Both tables are made in one pass over the map's order, and take no memory. The laws say
//! that coming before is decided by a test over the tasks alone, is transitive, and follows the order.
//! Stands on `plural_map` (tasks and their order). The checker of clashes, `plural_crew`, and the legality of logs,
//! `plural_trace`, stand on it.
#![tactic(auto)]

mod branches;
mod chains;
pub mod laws;
mod set;
mod tables;

pub use branches::needs;
pub use chains::reach;
pub use set::TaskSet;
pub use tables::{Needs, Reach};
