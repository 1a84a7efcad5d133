//! The table of the words that cores share, and its calls: each is one atomic step on one word.
//!
//! Promise: the rule over the shared words (`plural_rule`) holds between any two steps of any threads. A call says
//! what its step found, and what the seat that took it knows then. No call but `Words::open` takes memory. The words
//! with a seat that is lent are the bus of the seat's instance (`SeatBus`).
//! Stands on `plural_rule` (the rule, and why each step keeps it), `plural_cache` (what a bus is) and the kit's
//! `atomic_table` (words that change in single steps under a rule). Nothing here starts a thread.
#![tactic(auto)]

mod bus;
mod claiming;
mod closed;
mod field;
mod key;
mod law;
mod named;
mod opening;
mod place;
mod running;
mod seat;
mod settling;
mod words;

pub use bus::SeatBus;
pub use closed::Closed;
pub use field::Field;
pub use seat::{Root, Seat};
pub use words::Words;
