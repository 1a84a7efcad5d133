//! Laws over the definitions.

ghost use Rattle.plural_trace.specs.Laws.{LegalExactly, YesExactly, SerialFits, SerialIsLegal, SerialIsLog};
ghost use Rattle.plural_trace.specs.RecordWords.{RecordRoundTrip};

/// A log is legal exactly if no rule fails at any place.
pub fn legal_exactly()
    ensures { LegalExactly }
{}

/// A verdict is yes exactly if the log is legal.
pub fn yes_exactly()
    ensures { YesExactly }
{}

/// What a serial run leaves fits a log of its map.
pub fn serial_fits()
    ensures { SerialFits }
{}

/// The log of a serial run is legal.
pub fn serial_is_legal()
    ensures { SerialIsLegal }
{}

/// The log of a serial run is one that can be printed.
pub fn serial_is_log()
    ensures { SerialIsLog }
{}

/// The record of an instance as words tells the record.
pub fn record_round_trip()
    ensures { RecordRoundTrip }
{}
