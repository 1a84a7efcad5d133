//! What a machine leaves once all cores have left: its image, its outcomes and its log.
//!
//! Promise: a finished machine holds its closed words, and what it gives is what they say: the image is the last
//! memory of the serial run, the outcomes are those of the serial run, and there is one entry for each done instance,
//! with its record words, in the order of the starts (`specs/Finishing.antt`). So its log is legal with its image
//! (`specs/Laws.antt`). Nothing but the closed words of a whole run makes one.
//! `Room` takes the memory for it beforehand; `Finished::of` takes none.
//! Stands on `plural_words` (closed words) and `plural_trace` (entries, legality).
#![tactic(auto)]

mod entering;
mod filling;
mod finished;
pub mod laws;
mod room;

pub use finished::Finished;
pub use room::Room;
