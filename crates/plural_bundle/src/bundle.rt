use plural_serial::Program;
use std::marker::Model;

/// A bundle: a program, and the memory's words before it runs, as many as its map has.
#[derive(Drop)]
pub struct Bundle {
    pub program: Program,
    pub image: Vec<u32>,
}

impl Model for Bundle {
    ghost use Rattle.plural_bundle.specs.Value.{BundleValue};

    ghost Value = { BundleValue };

    ghost view = { λ b. record { program = b.program; image = b.image.items } };
}
