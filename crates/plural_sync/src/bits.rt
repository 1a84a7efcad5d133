//! The bits that ends and dependencies set in the words of their tasks.
ghost use Rattle.std.specs.Prelude.{◌≡◌, ◌<◌, length};
ghost use Rattle.std.specs.Option.{option_map_or};
ghost use Rattle.plural_reach.specs.Chains.{deps_of};
ghost use Rattle.plural_order.specs.ProgramGraph.{bits_of_end, bits_of_dep, when_on};

use plural_core::End;
use plural_map::{Dep, Outcome, When};
use plural_serial::Program;

/// The bits of an end.
pub(crate) fn bits_of_end(end: End) -> u64
    ensures { result ≡ bits_of_end end }
{
    match end {
        End::Code0 => 0,
        End::Code1 => 1,
        End::Trap { .. } => 2,
        End::Exhausted => 2,
    }
}

fn bits_of_dep(when: When, outcome: Outcome) -> u64
    ensures { result ≡ bits_of_dep when outcome }
{
    match (when, outcome) {
        (_, Outcome::Failed) => 1,
        (When::Any, _) => 4,
        (When::Code0, Outcome::Ended0) => 4,
        (When::Code1, Outcome::Ended1) => 4,
        _ => 2,
    }
}

fn when_on(deps: &[Dep], t: u32) -> Option<When>
    ensures { result ≡ when_on t deps.now }
{
    for dep in deps {
        if dep.task == t {
            return Some(dep.when);
        }
    }
    None
}

/// The bits of the dependency of task u on task t, which has this outcome.
pub(crate) fn bits_of_edge(program: &Program, t: u32, u: u32, outcome: Outcome) -> u64
    requires { u < length program.now.map.tasks }
    ensures { result ≡ option_map_or (λ w. bits_of_dep w outcome) (when_on t (deps_of program.now.map.tasks u)) 0 }
{
    match when_on(program.task(u).deps(), t) {
        Some(when) => bits_of_dep(when, outcome),
        None => 0,
    }
}
