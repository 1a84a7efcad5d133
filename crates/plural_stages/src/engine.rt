//! What a core has of its own to run an instance.
ghost use Rattle.std.specs.Prelude.{◌≡◌, IfOk};
ghost use Rattle.plural_serial.specs.Cached.{IsShaped};

use plural_base::Memory;
use plural_cache::{Cache, StoreBuffer};
use plural_core::{End, Hart, Job};
use plural_serial::Program;
use std::alloc::Global;
use std::marker::Model;

/// A hart, with a cache that nothing keeps coherent and a buffer of 16 stores before it. Contracts see these
/// three, and the start ticket of the instance.
#[derive(Drop)]
pub struct Engine {
    pub(crate) cache: Cache,
    pub(crate) buffer: StoreBuffer,
    pub(crate) hart: Hart,
    // How the instance ended, if it has.
    pub(crate) over: Option<End>,
    // The start ticket of the instance.
    pub(crate) start: u32,
}

impl Model for Engine {
    ghost use Rattle.std.specs.Prelude.{◌≡◌};
    ghost use Rattle.plural_stages.specs.Engines.{EngineSeen};

    ghost Value = { EngineSeen };

    ghost view = { λ e. record { cache = e.cache; pairs = e.buffer; core = e.hart; start = e.start } };

    ghost invariant = { λ e. e.over ≡ e.hart.state.over };
}

impl Engine {
    /// An engine that runs nothing, with a cache of the map's sets and ways.
    pub fn open(alloc: Global, program: &Program) -> Result<Engine, Memory>
        ensures { IfOk result (λ e. IsShaped program.now.map e.cache) }
    {
        let map = program.map();
        let cache = Cache::open(alloc, map.sets(), map.ways())?;
        Ok(Engine {
            cache,
            buffer: StoreBuffer::new(),
            hart: Hart::start(Job {
                entry: 0,
                k: 0,
                q: 0,
                budget: 1,
            }),
            over: None,
            start: 0,
        })
    }

    /// How the instance ended, if it has.
    pub fn over(&self) -> Option<End>
        ensures { result ≡ self.now.core.state.over }
    {
        self.over
    }
}
