//! Laws over whole bundles.

ghost use Rattle.plural_bundle.specs.Laws.{ABundleHasParts, PartsMakeABundle};

/// The lines of parts without a fault, one after the other, are a bundle of what the parts spell.
pub fn parts_make_a_bundle()
    ensures { PartsMakeABundle }
{}

/// The lines of a bundle are such parts, one after the other.
pub fn a_bundle_has_parts()
    ensures { ABundleHasParts }
{}
