//! Texts of lines that have kinds of faults, and texts of sections of such lines.
//!
//! Promise: the first fault of lines and the least kind of a line are stated once, for every kind of
//! line (`specs/Faults.antt`, `specs/LineKinds.antt`), with what an error says of them
//! (`specs/Errors.antt`).
//! `next_section` cuts lines before the first that closes a section (`specs/Sections.antt`);
//! `after_header` and `nothing_after` tell what has to stand between sections (`specs/Borders.antt`).
//! `capped_numeral`, `next_numeral`, `is_within` and `word_of` read the numbers of a line (`specs/Numbers.antt`).
//!
//! Stands on `plural_bytes`, and on `plural_map` for the names of a cycle. Every reader of lines stands on it.
#![tactic(auto)]

mod border;
mod fault;
mod line_error;
mod numbers;
mod sections;

pub use border::{after_header, first_number, first_text, nothing_after};
pub use fault::Fault;
pub use line_error::{LineError, renamed};
pub use numbers::{capped_numeral, is_within, next_numeral, word_of};
pub use sections::{Section, next_section, section_of};
