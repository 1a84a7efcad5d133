//! The machine: the shared words, a core for each seat, and what they leave.
//!
//! Promise: whatever order the steps of the cores take, a run returns with every task told. What the machine leaves
//! then is the memory and the outcomes of the serial run, and a legal log of exactly its instances
//! (`plural_finished`).
//! Stands on `plural_cores` (each core until it leaves) and `plural_finished`. `Machine::open` takes all the memory
//! that the machine ever needs.
#![tactic(auto)]

mod drawn;
mod machine;
mod seats;
mod together;

pub use machine::Machine;
