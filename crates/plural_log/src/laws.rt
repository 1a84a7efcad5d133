//! Laws over the definitions.

ghost use Rattle.plural_log.specs.Laws.{LogRoundTrip};

/// The lines of a printed log are read as that log.
pub fn log_round_trip()
    ensures { LogRoundTrip }
{}
