//! The numbers of tasks by their names.
ghost use Rattle.std.specs.Prelude.{◌≡◌, ◌≤◌, ℕ, List, Some, None, if◌then◌else◌, length, bytes_eq, IfErr, IfOk, OnOk};
ghost use Rattle.std.specs.BTreeMap.{get_by};
ghost use Rattle.std.specs.Cmp.Lexicographic.{slice_cmp};
ghost use Rattle.std.specs.Option.{option_or};
ghost use Rattle.std.specs.Ordering.{nat_cmp};
ghost use Rattle.plural_map.specs.Lookup.{number_of};
ghost use Rattle.plural_sections.specs.declared.line_error.LineError.TheVariants.{Memory};
ghost use Rattle.plural_log.specs.Numbers.{number_for};

use crate::fault::LogError;
use plural_bytes::Name;
use plural_map::Task;
use std::alloc::Global;
use std::collections::BTreeMap;

/// Gives a name its number, if it has none yet.
fn note(numbers: &mut BTreeMap<Name, u32>, name: &Name, t: u32) -> Result<(), LogError>
    ensures ok { OnOk result ((q : List ℕ) → get_by (λ k. slice_cmp nat_cmp q k) numbers.new
        ≡ option_or (get_by (λ k. slice_cmp nat_cmp q k) numbers.old) (if bytes_eq name.now q then Some t else None)) }
    ensures err { IfErr result (λ e. e ≡ Memory) }
{
    if !numbers.contains_key(name) {
        numbers.insert(*name, t)?;
    }
    Ok(())
}

/// The number of the first task of each name.
pub(crate) fn numbers(alloc: Global, tasks: &[Task]) -> Result<BTreeMap<Name, u32>, LogError>
    requires { length tasks.now ≤ 256 }
    ensures ok { IfOk result
        (λ m. (q : List ℕ) → get_by (λ k. slice_cmp nat_cmp q k) m ≡ number_for tasks.now q) }
    ensures err { IfErr result (λ e. e ≡ Memory) }
{
    let mut numbers = BTreeMap::new(alloc);
    for (t, task) in tasks.iter().enumerate() {
        note(&mut numbers, task.name(), t as u32)?;
    }
    Ok(numbers)
}

/// The number of the first task of this name; the number of tasks if none has it.
pub(crate) fn number_of(tasks: &[Task], numbers: &BTreeMap<Name, u32>, name: &Name) -> u32
    requires few { length tasks.now ≤ 256 }
    requires numbers { (q : List ℕ) → get_by (λ k. slice_cmp nat_cmp q k) numbers.now ≡ number_for tasks.now q }
    ensures { result ≡ number_of name.now tasks.now }
{
    numbers.get(name).copied().unwrap_or(tasks.len() as u32)
}
