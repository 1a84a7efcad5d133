//! Task maps: tasks with dependencies and regions, the order that the tasks run in, and what decides whether a task
//! runs.
//!
//! Promise: a `Map` keeps all limits of a map in its type (`specs/Limits.antt`), its order is the one that takes the
//! least ready task first (`specs/Order.antt`), and `decide` is the definition's decision (`specs/Decisions.antt`).
//! `order` computes that order, and `cycle` the names of the cycle if it doesn't reach each task (`specs/Cycle.antt`).
//! Stands on `plural_base` (names), `plural_regions` (regions) and `arrayvec`. The checker and the serial machine stand
//! on it; `plural_map_text` reads and prints its lines.
#![tactic(auto)]

mod decisions;
pub mod laws;
mod lookup;
mod map;
mod names;
mod ordering;
mod outcome;
mod task;

pub use decisions::decide;
pub use lookup::{has_task, number_of};
pub use map::Map;
pub use names::Names;
pub use ordering::{Reached, cycle, order};
pub use outcome::{Decision, Dep, Outcome, When};
pub use task::{Task, TaskParts};
