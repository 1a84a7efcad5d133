//! The lists of successors.
ghost use Rattle.std.specs.Prelude.{◌≡◌, ◌≢◌, ◌<◌, [], length, OnOk, IfOk};
ghost use Rattle.std.specs.List.{All, AllPairs};
ghost use Rattle.plural_sync.specs.Lists.{rows_of, with_pushed, AreSuccessors, HasGained};

use plural_base::Memory;
use plural_map::Dep;
use plural_serial::Program;
use std::alloc::Global;

// Puts u at the end of list t.
fn push_to(lists: &mut Vec<Vec<u32>>, t: usize, u: u32) -> Result<(), Memory>
    requires { t < length lists.old.items }
    ensures { OnOk result (rows_of lists.new.items ≡ with_pushed (rows_of lists.old.items) t u) }
{
    lists[t].push(u)?;
    Ok(())
}

// Puts task u at the end of the list of each task that it depends on.
fn add_task(lists: &mut Vec<Vec<u32>>, deps: &[Dep], u: u32) -> Result<(), Memory>
    requires within { All (λ d. d.task < length lists.old.items) deps.now }
    requires differ { AllPairs (λ d e. d.task ≢ e.task) deps.now }
    ensures { OnOk result (HasGained deps.now u (rows_of lists.old.items) (rows_of lists.new.items)) }
{
    for dep in deps {
        push_to(lists, dep.task as usize, u)?;
    }
    Ok(())
}

fn empty_lists(alloc: Global, count: usize) -> Result<Vec<Vec<u32>>, Memory>
    ensures count { IfOk result (λ v. length v.items ≡ count) }
    ensures empty { IfOk result (λ v. All (λ l. l.items ≡ []) v.items) }
{
    let mut lists = Vec::new(alloc);
    for _t in 0..count {
        lists.push(Vec::new(alloc))?;
    }
    Ok(lists)
}

/// Of each task of a program those that depend on it, by rising number.
pub(crate) fn lists_of(alloc: Global, program: &Program) -> Result<Vec<Vec<u32>>, Memory>
    ensures { IfOk result (λ v. AreSuccessors program.now.map.tasks (rows_of v.items)) }
{
    let count = program.map().tasks().len();
    let mut lists = empty_lists(alloc, count)?;
    for u in 0..count as u32 {
        add_task(&mut lists, program.task(u).deps(), u)?;
    }
    Ok(lists)
}
