//! One private cache over any bus: write-through, with no line filled by a store, and not kept
//! coherent; and a store buffer that may stand between the two.
//!
//! Promise: a load of a lawful word answers what the bus holds there, and the bus is read, eight
//! words, exactly when the access misses by looking back over all accesses (`specs/Miss.antt`). A
//! store is one write of the bus. A store buffer before a bus is a bus: a read finds the newest store of
//! its word, and the oldest store is the next that the bus gets.
//! Stands on `plural_base`. `plural_serial` runs instances over it.
#![tactic(auto)]

mod access;
mod buffer;
mod buffered;
mod bus;
mod cache;
mod filling;
mod set;

pub use buffer::StoreBuffer;
pub use buffered::Buffered;
pub use bus::Bus;
pub use cache::{Cache, Counts};
