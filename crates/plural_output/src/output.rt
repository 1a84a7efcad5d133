use plural_trace::Log;
use std::marker::Model;

/// The output of a run: its log, and the memory's words after it, as many as its map has.
#[derive(Drop)]
pub struct Output {
    pub log: Log,
    pub image: Vec<u32>,
}

impl Model for Output {
    ghost use Rattle.plural_output.specs.Value.{OutputValue};

    ghost Value = { OutputValue };

    ghost view = { λ o. record { log = o.log; image = o.image.items } };
}
