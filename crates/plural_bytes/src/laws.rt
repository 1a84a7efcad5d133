//! Laws over the definitions.

ghost use Rattle.plural_bytes.specs.Laws.{LinesRise, TokensArePlain};

/// The numbers of content lines rise, from 1 to the number of lines at most.
pub fn lines_rise()
    ensures { LinesRise }
{}

/// A line whose tokens have printable bytes alone has no other bytes than these and blanks.
pub fn tokens_are_plain()
    ensures { TokensArePlain }
{}
