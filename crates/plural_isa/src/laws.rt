//! Laws of the table: it is unambiguous, and decoding and encoding undo one another.
ghost use Rattle.plural_isa.specs.Laws.{HasOneRow, InstrRoundTrip, WordRoundTrip, DecodesFit};

/// A word has at most one row of the table.
pub fn one_row()
    ensures { HasOneRow }
{}

/// An instruction that fits is what its word decodes to.
pub fn instr_round_trip()
    ensures { InstrRoundTrip }
{}

/// A word that decodes is the one of its instruction.
pub fn word_round_trip()
    ensures { WordRoundTrip }
{}

/// What a word decodes to fits.
pub fn decodes_fit()
    ensures { DecodesFit }
{}
