//! Laws over the bundles that are made.
ghost use Rattle.plural_made.specs.Laws.{MadeCode, MadeIsAccepted, MadeIsRead};

/// The text of a made bundle is read without a fault, as its map, its kernel lines and its image, whatever the seed.
pub fn made_is_read()
    ensures { MadeIsRead }
{}

/// How long the code of a made bundle is, and where its tasks begin in it.
pub fn made_code()
    ensures { MadeCode }
{}

/// The map of a made bundle has no clash, as it is read from the bundle's text, whatever the seed.
pub fn made_is_accepted()
    ensures { MadeIsAccepted }
{}
