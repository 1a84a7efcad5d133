//! The counters of a run and the duties of its cores: how instances that end are counted, and tasks told, decided and
//! armed, without a barrier.
//!
//! Promise: flags, left, state and open of each task say what is settled of it so far, and the duties that views owe
//! say the rest (`specs/Counters.antt`). Each step of a core on one of these words keeps this (`specs/Laws.antt`): it
//! changes one word, and lets one duty give way to others. The tasks that one view has duties for or was told of all
//! differ, so there is room for them and their work ends. If nothing is owed and all that was armed is done, every
//! task was told, with its outcome in the serial run.
//! Nothing here knows of a table, of where its words lie, or of harts: counters are functions, and views are any
//! values that tell their duties.
//! Stands on `plural_order` (tasks as a graph, and that of a program).
#![tactic(auto)]

mod duty;
pub mod laws;

pub use duty::Duty;
