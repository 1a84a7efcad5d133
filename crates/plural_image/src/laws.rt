//! Laws over the definitions.

ghost use Rattle.plural_image.specs.Laws.{ImageRoundTrip, LinesArePlain, RowRoundTrip, WordRoundTrip};

/// The digits of a word are read as that word.
pub fn word_round_trip()
    ensures { WordRoundTrip }
{}

/// A printed row is read as its address and words.
pub fn row_round_trip()
    ensures { RowRoundTrip }
{}

/// The lines of a printed image are read as that image.
pub fn image_round_trip()
    ensures { ImageRoundTrip }
{}

/// An image line has no other bytes than tabs and those from 0x20 to 0x7E.
pub fn lines_are_plain()
    ensures { LinesArePlain }
{}
