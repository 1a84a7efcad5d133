//! Tasks by their names.
ghost use Rattle.std.specs.Prelude.{◌≡◌, ◌≤◌, length, bytes_eq, position};
ghost use Rattle.plural_map.specs.Lookup.{number_of, has_task};

use crate::task::Task;
use plural_base::Name;

/// Has one of the tasks this name?
pub fn has_task(tasks: &[Task], name: &Name) -> bool
    ensures { result ≡ has_task tasks.now name.now }
{
    tasks.iter().any(|t| t.name() == name)
}

fn position_named(tasks: &[Task], name: &Name) -> Option<usize>
    ensures { result ≡ position (λ t. bytes_eq t.name name.now) tasks.now }
{
    tasks.iter().position(|t| t.name() == name)
}

/// The number, from 0, of the first task that has this name; how many tasks there are if none has it.
pub fn number_of(tasks: &[Task], name: &Name) -> usize
    ensures number { result ≡ number_of name.now tasks.now }
    ensures bound { result ≤ length tasks.now }
{
    position_named(tasks, name).unwrap_or(tasks.len())
}
