ghost use Rattle.std.specs.Prelude.{◌≡◌};

use crate::entry::Entry;
use plural_map::Outcome;
use std::marker::Model;

/// The log of a run: the number of its cores, the outcome of each task by its number, and the entries of the
/// instances that ran, in the log's order.
#[derive(Drop)]
pub struct Log {
    cores: u32,
    outcomes: Vec<Outcome>,
    entries: Vec<Entry>,
}

impl Model for Log {
    ghost use Rattle.plural_trace.specs.Logs.{LogValue};

    ghost Value = { LogValue };

    ghost view = { λ l. record { cores = l.cores; outcomes = l.outcomes.items; entries = l.entries.items } };
}

impl Log {
    /// The log of these parts.
    pub fn of(cores: u32, outcomes: Vec<Outcome>, entries: Vec<Entry>) -> Log
        ensures { result ≡ record { cores = cores; outcomes = outcomes.items; entries = entries.items } }
    {
        Log {
            cores,
            outcomes,
            entries,
        }
    }

    /// The number of cores.
    pub fn cores(&self) -> u32
        ensures { result ≡ self.now.cores }
    {
        self.cores
    }

    /// The outcome of each task, by its number.
    pub fn outcomes(&self) -> &[Outcome]
        ensures { result.now ≡ self.now.outcomes }
    {
        self.outcomes.as_slice()
    }

    /// The entries, in the log's order.
    pub fn entries(&self) -> &[Entry]
        ensures { result.now ≡ self.now.entries }
    {
        self.entries.as_slice()
    }
}
