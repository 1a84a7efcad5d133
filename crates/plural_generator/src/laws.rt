//! What holds of every bundle that is made.
ghost use Rattle.plural_generator.specs.Laws.{MadeAccepted, MapRoundTrip};

/// The map of a made bundle has no clash, whatever the seed.
pub fn made_accepted()
    ensures { MadeAccepted }
{}

/// The map lines of a made bundle spell its map.
pub fn map_round_trip()
    ensures { MapRoundTrip }
{}
