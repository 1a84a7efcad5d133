//! The program of a map and its kernels.

ghost use Rattle.std.specs.Prelude.{◌≡◌, ◌%◌, map, IfOk};
ghost use Rattle.std.specs.List.{AllByRecursion};
ghost use Rattle.plural_serial.specs.Program.{IsProgram};
ghost use Rattle.plural_bundle.specs.Value.{pc_of, program_with};

use plural_asm::{Label, Object};
use plural_bytes::{Memory, Name};
use plural_map::{Map, Task};
use plural_serial::Program;
use std::alloc::Global;

/// The pc of the first label of a name, in bytes.
fn pc_of(labels: &[Label], name: &Name) -> u32
    ensures { result ≡ pc_of labels.now name.now }
{
    let mut rest = labels;
    while let [label, after @ ..] = rest {
        if label.name == *name {
            return label.pc;
        }
        rest = after;
    }
    0
}

/// The pc at which each task begins.
fn entries(alloc: Global, tasks: &[Task], labels: &[Label]) -> Result<Vec<u32>, Memory>
    ensures { IfOk result (λ v. v.items ≡ map (λ t. pc_of labels.now t.entry) tasks.now) }
{
    let mut entries = Vec::new(alloc);
    for task in tasks {
        entries.push(pc_of(labels, task.entry()))?;
    }
    Ok(entries)
}

/// The program whose tasks begin at the labels that their entries name.
pub(crate) fn program(alloc: Global, map: Map, object: Object) -> Result<Program, Memory>
    requires { AllByRecursion (λ l. l.pc % 4 ≡ 0) object.1 }
    ensures value { IfOk result (λ p. p ≡ program_with map object.0 object.1) }
    ensures program { IfOk result IsProgram }
{
    let entries = entries(alloc, map.tasks(), object.labels.as_slice())?;
    Ok(Program::of(map, object.code, entries))
}
