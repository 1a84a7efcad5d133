//! What the words keep of each task.
ghost use Rattle.std.specs.Prelude.{length, IfOk};

use plural_base::Memory;
use plural_serial::Program;
use std::alloc::Global;

/// Of one task: where the record of its first instance begins, how many dependencies it has, and whether one that is
/// met is enough.
#[derive(Clone, Copy)]
pub struct Place {
    pub records: usize,
    pub deps: usize,
    pub some: bool,
}

ghost use Rattle.plural_words.specs.Places.{ArePlaces};

/// The places of a program's tasks, and where its counters begin, after all records.
pub(crate) fn places_of(alloc: Global, program: &Program) -> Result<(Vec<Place>, usize), Memory>
    ensures { IfOk result (λ r. ArePlaces program.now (length program.now.map.tasks) r.0.items r.1) }
{
    let map = program.map();
    let mut next = map.words() as usize;
    let mut places = Vec::new(alloc);
    for task in map.tasks() {
        places.push(Place {
            records: next,
            deps: task.deps().len(),
            some: task.joins_some(),
        })?;
        next += 8 * task.quota() as usize;
    }
    Ok((places, next))
}
