ghost use Rattle.std.specs.Prelude.{◌≡◌, ◌∷◌, ◌++◌, [], List, IfOk, map, Some, IsSome, All};
ghost use Rattle.plural_core.specs.declared.end.End.{End};
ghost use Rattle.plural_serial.specs.Serial.{outcome_of};

use plural_base::Memory;
use plural_core::End;
use plural_map::Outcome;
use std::alloc::Global;

/// The outcome of a task once one more of its instances ended.
pub(crate) fn with_end(outcome: Outcome, end: End) -> Outcome
    ensures { (ends : List End) → outcome ≡ outcome_of ends → result ≡ outcome_of (ends ++ end ∷ []) }
{
    match (outcome, end) {
        (Outcome::Failed, _) | (_, End::Trap { .. } | End::Exhausted) => Outcome::Failed,
        (Outcome::Ended1, _) | (_, End::Code1) => Outcome::Ended1,
        (_, End::Code0) => outcome,
    }
}

/// The outcomes, if each is there.
pub(crate) fn settled(alloc: Global, outcomes: &[Option<Outcome>]) -> Result<Vec<Outcome>, Memory>
    requires { All IsSome outcomes.now }
    ensures { IfOk result (λ v. map (λ o. Some o) v.items ≡ outcomes.now) }
{
    let mut all = Vec::new(alloc);
    for outcome in outcomes {
        match *outcome {
            Some(outcome) => all.push(outcome)?,
            None => unreachable!(),
        }
    }
    Ok(all)
}
