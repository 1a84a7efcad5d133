//! The whole life of an instance.
ghost use Rattle.std.specs.Prelude.{◌≡◌, ℕ, ◌<◌, ◌≤◌, length, Some, None, true};
ghost use Rattle.plural_regions.specs.Rights.{may_read};
ghost use Rattle.plural_base.specs.Told.{Expects};
ghost use Rattle.plural_core.specs.Port.{Makes};
ghost use Rattle.plural_core.specs.Life.{rest_of};

use crate::end::End;
use crate::guard::Recent;
use crate::hart::{Hart, Turn, turn_by};
use crate::port::DataPort;
use plural_isa::Code;
use plural_regions::Region;

/// Runs an instance from where it is to its end, which comes within its budget.
#[inline(always)]
pub fn run<P: DataPort>(hart: &mut Hart, code: &Code, regions: &[Region], port: &mut P) -> End
    requires going { hart.old.state.over ≡ None }
    requires room { hart.old.state.count < hart.old.budget }
    requires sound { P.is_sound port.old }
    requires lawful { (a : ℕ) → may_read regions.now hart.old.k a ≡ true → (P.told port.old).lawful a ≡ true }
    requires loads { (P.counts port.old).reads ≤ hart.old.state.count }
    requires stores { (P.counts port.old).writes ≤ hart.old.state.count }
    requires expected { Expects (P.told port.old).expects
        (rest_of code.now regions.now hart.old (P.told port.old).words).stores }
    ensures state { hart.new ≡ record hart.old
        { state = (rest_of code.now regions.now hart.old (P.told port.old).words).state } }
    ensures port { Makes P.told P.counts P.stands_for P.keeps P.is_sound port.old port.new
        (rest_of code.now regions.now hart.old (P.told port.old).words) }
    ensures end { hart.new.state.over ≡ Some result }
    ensures words { length (P.told port.new).words ≡ length (P.told port.old).words }
{
    let mut recent = Recent::none();
    let flat = code.laid_out();
    let mut at = hart.progress();
    let mut registers = hart.registers();
    loop {
        match turn_by(
            &mut at,
            &mut registers,
            &mut recent,
            code,
            flat,
            regions,
            port,
        ) {
            Turn::Going => {}
            Turn::Over(end) => {
                *hart = Hart::ended(at, registers, end);
                return end;
            }
        }
    }
}
