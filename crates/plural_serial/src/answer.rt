ghost use Rattle.std.specs.Prelude.{◌≡◌};

use crate::record_::Record;
use plural_map::Outcome;
use std::marker::Model;

/// What a serial run leaves: the last memory, the outcome of each task by its number, and the records of
/// the instances in the order in which they ran.
#[derive(Drop)]
pub struct Answer {
    image: Vec<u32>,
    outcomes: Vec<Outcome>,
    records: Vec<Record>,
}

impl Model for Answer {
    ghost use Rattle.plural_serial.specs.Answer.{AnswerValue};

    ghost Value = { AnswerValue };

    ghost view = { λ a. record { image = a.image.items; outcomes = a.outcomes.items; records = a.records.items } };
}

impl Answer {
    /// The answer of these parts.
    pub(crate) fn of(image: Vec<u32>, outcomes: Vec<Outcome>, records: Vec<Record>) -> Answer
        ensures { result ≡ record { image = image.items; outcomes = outcomes.items; records = records.items } }
    {
        Answer {
            image,
            outcomes,
            records,
        }
    }

    /// The last memory.
    pub fn image(&self) -> &[u32]
        ensures { result.now ≡ self.now.image }
    {
        self.image.as_slice()
    }

    /// The outcome of each task, by its number.
    pub fn outcomes(&self) -> &[Outcome]
        ensures { result.now ≡ self.now.outcomes }
    {
        self.outcomes.as_slice()
    }

    /// A record of each instance that ran, in the order in which they ran.
    pub fn records(&self) -> &[Record]
        ensures { result.now ≡ self.now.records }
    {
        self.records.as_slice()
    }
}
