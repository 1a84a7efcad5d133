//! Bytes from outside and back, and the texts in them: sources and sinks, lines, numerals, names.
//!
//! Promise: what is read and written whole is exactly what the source had left and what the sink
//! took, a fault is answered only if the count of faults of the object lent for the call rose
//! (`specs/Streams.antt`, `specs/Causes.antt`), and the lines, tokens, numerals and names of a text
//! are those of `specs/Lines.antt`, `specs/Numerals.antt` and `specs/Names.antt`, for every list of
//! bytes; numbers are printed in decimal, and words as `specs/Hexadecimal.antt` says.
//!
//! Stands on std and the kit's `memchr`. Every reader and printer of texts stands on it; what the faults of a
//! section's lines are is stated here once for all of them (`specs/Faults.antt`), and so are the
//! lemmas that printed lines of tokens are read again as these tokens (`proofs/PrintedLines.antt`,
//! `proofs/Tokens.antt`, `proofs/Decimals.antt`, `proofs/Hexadecimals.antt`).
#![tactic(auto)]

mod adapters;
mod hexadecimal;
mod in_memory;
pub mod laws;
mod lines;
mod numerals;
mod outside;
mod reading;
mod text;
mod writing;

pub use adapters::{StdSink, StdSource};
pub use hexadecimal::hex;
pub use in_memory::{MemSink, MemSource};
pub use lines::{Line, content, ends_token, find_blank, line_count, next_token, split, trim_start};
pub use numerals::{NumberError, digits, number};
pub use outside::{Failed, Sink, Source};
pub use plural_base::{Memory, Name};
pub use reading::{ReadError, read_all};
pub use text::{is_word, put, put_number};
pub use writing::{WriteFault, write_all};
