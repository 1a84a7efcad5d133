//! The synchroniser: what it keeps, and how it is opened.
use crate::lists::lists_of;
use plural_base::Memory;
use plural_serial::Program;
use std::alloc::Global;
use std::marker::Model;
use std::snapshot::Snapshot;

/// What the cores of a machine share to settle tasks: of each task those that depend on it. Contracts see the program
/// that it was opened with.
#[derive(Drop)]
pub struct Synchroniser {
    successors: Vec<Vec<u32>>,
    program: Snapshot<Program>,
}

impl Model for Synchroniser {
    ghost use Rattle.plural_serial.specs.Program.{ProgramValue};
    ghost use Rattle.plural_sync.specs.Lists.{rows_of, AreSuccessors};

    ghost Value = { ProgramValue };

    ghost view = { λ s. s.program.value };

    ghost invariant = { λ s. AreSuccessors s.program.value.map.tasks (rows_of s.successors.items) };
}

impl Synchroniser {
    ghost use Rattle.std.specs.Prelude.{◌≡◌, ◌<◌, ◌≤◌, length, IfOk};
    ghost use Rattle.plural_order.specs.ProgramGraph.{successors_of};

    /// The synchroniser of a program, with a list for each task.
    pub fn open(alloc: Global, program: &Program) -> Result<Synchroniser, Memory>
        ensures { IfOk result (λ s. s ≡ program.now) }
    {
        let successors = lists_of(alloc, program)?;
        Ok(Synchroniser {
            successors,
            program: Snapshot::of(program),
        })
    }

    /// The tasks that depend on task t, by rising number.
    pub(crate) fn successors(&self, t: u32) -> &[u32]
        requires { t < length self.now.map.tasks }
        ensures value { result.now ≡ successors_of self.now.map.tasks t }
        ensures few { length self.now.map.tasks ≤ 256 }
    {
        self.successors[t as usize].as_slice()
    }
}
