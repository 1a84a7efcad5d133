//! Laws of the texts of words: each is a line that makes its word again.

ghost use Rattle.plural_asm.specs.Laws.{TextsAreLines, WordRoundTrip, WordsRoundTrip};

/// The line of a word is read as it was written, has no fault, and assembles to that word alone.
pub fn word_round_trip()
    ensures { WordRoundTrip }
{}

/// The lines of words, as a text, are read line by line as they were written.
pub fn texts_are_lines()
    ensures { TextsAreLines }
{}

/// The lines of at most 16,384 words have no fault, and assemble to those words.
pub fn words_round_trip()
    ensures { WordsRoundTrip }
{}
