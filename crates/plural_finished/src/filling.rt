//! The image and the outcomes, read off the closed words.
ghost use Rattle.std.specs.Prelude.{◌≡◌, ◌≤◌, ◌<◌, [], take, vec_capacity};
ghost use Rattle.plural_rule.specs.Opening.{task_count};
ghost use Rattle.plural_finished.specs.Finishing.{IsClosedRun, AreOutcomes};

use plural_map::Outcome;
use plural_words::Closed;

/// Reads the words of the memory.
pub(crate) fn fill_image(closed: &Closed, words: u32, image: &mut Vec<u32>)
    requires words { words ≡ closed.now.opening.program.map.words }
    requires run { IsClosedRun closed.now }
    requires room { words ≤ vec_capacity image.old }
    requires empty { image.old.items ≡ [] }
    ensures { image.new.items ≡ take words closed.now.words }
{
    for a in 0..words {
        image.push_reserved(closed.mem(a));
    }
}

/// Reads the outcome of each task.
pub(crate) fn fill_outcomes(closed: &Closed, tasks: u32, outcomes: &mut Vec<Outcome>)
    requires tasks { tasks ≡ task_count closed.now.opening.program }
    requires run { IsClosedRun closed.now }
    requires room { tasks ≤ vec_capacity outcomes.old }
    requires empty { outcomes.old.items ≡ [] }
    ensures { AreOutcomes closed.now.opening tasks outcomes.new.items }
{
    for t in 0..tasks {
        outcomes.push_reserved(closed.outcome(t));
    }
}
