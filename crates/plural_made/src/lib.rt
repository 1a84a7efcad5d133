//! Made bundles, as they are read.
//!
//! Promise: whatever the seed, the text that `plural_generator::make` writes is a bundle without a fault, and it spells
//! its map, the image that the seed draws, and the code and the entries of its kernel lines (`specs/Laws.antt`,
//! `laws::made_is_read`), which are 78 words and begin at known bytes (`laws::made_code`); so
//! `plural_bundle::read_bundle`, handed the lines of such a text, answers that bundle, or memory ran out. The map that
//! the text spells has no clash (`laws::made_is_accepted`).
//! Stands on `plural_generator`, whose text it speaks of, on `plural_bundle`, whose rules it speaks of, and on
//! `plural_reread`, by which a printed map is read again. `plural_promise` has its lemmas on the lines of texts.
#![tactic(auto)]

pub mod laws;
