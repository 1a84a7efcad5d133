//! Laws over the definitions of maps.
ghost use Rattle.plural_reread.specs.Laws.{MapRoundTrip, MapFits, MapDeclared, MapRoundTrip2, MapFits2};

/// The lines of a printed map of version 1 are read as that map.
pub fn map_round_trip()
    ensures { MapRoundTrip }
{}

/// The map of lines of version 1 without a fault is one whose printed lines are read again.
pub fn map_fits()
    ensures { MapFits }
{}

/// The order of the map of lines of version 1 without a fault is that of declaration.
pub fn map_declared()
    ensures { MapDeclared }
{}

/// The lines of a printed map are read as that map by version 2.
pub fn map_round_trip_2()
    ensures { MapRoundTrip2 }
{}

/// The map of lines of version 2 without a fault is one whose printed lines are read again.
pub fn map_fits_2()
    ensures { MapFits2 }
{}
