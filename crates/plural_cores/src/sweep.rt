//! The search for an instance to run.
ghost use Rattle.std.specs.Prelude.{◌≡◌, ◌&&◌, []};
ghost use Rattle.plural_rule.specs.declared.view.Stage.TheVariants.{Free};
ghost use Rattle.plural_words.specs.Seen.{IsSeatOf};
ghost use Rattle.plural_cores.specs.Sweeps.{tells_whole, HasSwept};

use plural_alloc::{Claim, claim};
use plural_serial::Program;
use plural_words::{Seat, Words};

/// An instance, by the number of its task and its own number in it, both from 0.
#[derive(Clone, Copy, Debug, PartialEq, Eq)]
pub struct Instance {
    pub t: u32,
    pub k: u32,
}

/// What became of a try of the tasks in turn.
pub(crate) enum Sweep {
    /// The seat holds this instance.
    Got(Instance),
    /// No task had one for it. Each that the seat knows as armed is wholly handed out, or not.
    Spent { whole: bool },
}

// Whether this was so before, and after this claim of an instance of a task with this quota still is.
fn still_whole(whole: bool, claim: Claim, quota: u32) -> bool
    ensures { result ≡ (whole && tells_whole quota claim) }
{
    match claim {
        Claim::Got(_) => false,
        Claim::Unarmed => whole,
        Claim::Handed => whole,
        Claim::Lost { saw } => whole && quota < saw,
    }
}

/// Tries each task once, by rising number, and stops at the first of which the seat gets an instance.
pub(crate) fn try_all(words: &Words, program: &Program, seat: &mut Seat) -> Sweep
    requires of { IsSeatOf words.now seat.old }
    requires program { program.now ≡ words.now.opening.program }
    requires free { seat.old.view.stage ≡ Free }
    requires nothing { seat.old.view.owes ≡ [] }
    ensures of { IsSeatOf words.now seat.new }
    ensures swept { HasSwept words.now.opening seat.old result seat.new }
{
    let tasks = program.map().tasks().len() as u32;
    let mut whole = true;
    for t in 0..tasks {
        let task = program.task(t);
        let said = claim(words, program, seat, t);
        if let Claim::Got(k) = said {
            return Sweep::Got(Instance { t, k });
        }
        whole = still_whole(whole, said, task.quota());
    }
    Sweep::Spent { whole }
}
