//! The rule over the words that cores share: what holds between any two steps of any of them.
//!
//! Promise: the words of a machine are a list of numbers, each in its place (`specs/Layout.antt`), and a view is what
//! the root or a seat knows (`View`). The rule says in seven parts what the words are by the views
//! (`specs/Rule.antt`). Each step on one word keeps it, whatever the other views are (`laws`), and says what the step
//! found; so does the opening, and words of which no seat is out tell the serial memory and every record.
//! Nothing here knows an atomic table, a token or a thread: a step is a change of one number and of one view.
//! Stands on `plural_order` (the serial run as a world, and why any order gives it), `plural_counters` (the duties and
//! the counters) and `plural_trace` (the words of a record).
#![tactic(auto)]

pub mod laws;
mod view;

pub use view::{Role, Stage, View};
