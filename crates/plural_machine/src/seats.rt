//! The seats of all cores: they are sent out by rising number, and come back in the other order.
ghost use Rattle.std.specs.Prelude.{◌≡◌, ◌≤◌, [], length};
ghost use Rattle.plural_rule.specs.Last.{HasTold};
ghost use Rattle.plural_rule.specs.declared.view.Role.TheVariants as role;
ghost use Rattle.plural_words.specs.Seen.{IsRootOf};
ghost use Rattle.plural_machine.specs.Knowing.{numbers_below, with_out, all_joined};
ghost use Rattle.plural_machine.specs.Together.{Each, IsIdle, IsSent, IsBack};

use plural_cores::Core;
use plural_words::{Root, Words};

/// A seat to each core.
pub(crate) fn send_all(words: &Words, root: &mut Root, cores: &mut [Core])
    requires of { IsRootOf words.now root.old }
    requires alone { root.old.view.role ≡ role.Root [] }
    requires few { (length cores.old ≤ words.now.opening.cores) × (length cores.old ≤ 64) }
    requires idle { Each (IsIdle words.now) cores.old }
    ensures of { IsRootOf words.now root.new }
    ensures root { root.new ≡ with_out root.old (length cores.old) }
    ensures sent { Each (IsSent words.now root.old.view.found) cores.new }
    ensures all { length cores.new ≡ length cores.old }
{
    let all = cores.len() as u32;
    for i in 0..all {
        let seat = words.split(root, i);
        cores[i as usize].enter(seat);
    }
}

/// The seats of all cores back, each of which has left. The root has told every task then.
pub(crate) fn take_all(words: &Words, root: &mut Root, cores: &mut [Core])
    requires of { IsRootOf words.now root.old }
    requires out { root.old.view.role ≡ role.Root (numbers_below (length cores.old)) }
    requires some { 1 ≤ length cores.old }
    requires back { Each (IsBack words.now root.old.view.found) cores.old }
    ensures of { IsRootOf words.now root.new }
    ensures alone { root.new.view.role ≡ role.Root [] }
    ensures told { HasTold words.now.opening root.new.view }
    ensures joined { root.new.view ≡ all_joined root.old.view cores.old }
    ensures idle { Each (IsIdle words.now) cores.new }
    ensures all { length cores.new ≡ length cores.old }
{
    let mut i = cores.len();
    while i > 0 {
        i -= 1;
        let seat = cores[i].leave();
        words.join(root, seat);
    }
}
