//! The call that claims.
ghost use Rattle.std.specs.Prelude.{◌≡◌, ◌<◌, ◌≤◌, [], slice_index};
ghost use Rattle.plural_rule.specs.Opening.{task_count, quota_of};
ghost use Rattle.plural_rule.specs.declared.view.Stage.TheVariants.{Free};
ghost use Rattle.plural_words.specs.Seen.{IsSeatOf, seat_with};
ghost use Rattle.plural_alloc.specs.Claims.{claimed, found_by, IsClaim};

use crate::answer::Claim;
use plural_serial::Program;
use plural_words::{Seat, Words};

/// Claims an instance of task t for a free seat that owes nothing: one load of the task's alloc word and, if it says
/// that instances are left, one exchange of it.
pub fn claim(words: &Words, program: &Program, seat: &mut Seat, t: u32) -> Claim
    requires of { IsSeatOf words.now seat.old }
    requires program { program.now ≡ words.now.opening.program }
    requires task { t < task_count program.now }
    requires free { seat.old.view.stage ≡ Free }
    requires nothing { seat.old.view.owes ≡ [] }
    ensures of { IsSeatOf words.now seat.new }
    ensures seat { seat.new ≡ seat_with seat.old (claimed (quota_of program.now t) t result seat.old.view) }
    ensures rose { slice_index seat.old.view.found t ≤ found_by (quota_of program.now t) result }
    ensures cause { IsClaim (quota_of program.now t) (slice_index seat.old.view.found t) result }
{
    let quota = program.task(t).quota();
    let loaded = words.load_alloc(seat, t);
    if loaded == 0 {
        Claim::Unarmed
    } else if loaded > quota {
        Claim::Handed
    } else {
        match words.swap_alloc(seat, t, loaded) {
            Ok(()) => Claim::Got(loaded - 1),
            Err(saw) => Claim::Lost { saw },
        }
    }
}
