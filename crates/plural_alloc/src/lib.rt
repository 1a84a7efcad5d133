//! Claiming an instance of a task: one look at how many were handed out, and at most one exchange.
//!
//! Promise: each answer has its cause in this call. The call's load, or its exchange, found what the answer says, and
//! what the seat knows then shows it (`specs/Claims.antt`). No instance is claimed twice: the exchange is one step
//! of the shared words.
//! Stands on `plural_words` (the shared words and their steps). It takes no memory and waits for nothing.
#![tactic(auto)]

mod answer;
mod claiming;

pub use answer::Claim;
pub use claiming::claim;
