//! The command `serial`: a bundle in, the log and the last memory of its serial run out.

ghost use Rattle.std.specs.Prelude.{◌≡◌, ◌≤◌, ◌%◌, length, map, Some, IfOk};
ghost use Rattle.std.specs.List.{list_any};
ghost use Rattle.plural_map.specs.Decisions.{is_failed};
ghost use Rattle.plural_serial.specs.Program.{IsProgram};
ghost use Rattle.plural_cli.specs.Output.{IsTold};
ghost use Rattle.plural_cli.specs.Run.{status_of, IsRan, IsSerialAnswer};

use crate::answer::Answer;
use crate::reading::{Reading, read};
use plural_bundle::Bundle;
use plural_bytes::Memory;
use plural_map::Outcome;
use plural_output::print_output;
use plural_serial::serial;
use plural_trace::serial_log;
use std::alloc::Global;

fn is_failed(outcome: Outcome) -> bool
    ensures { result ≡ is_failed (Some outcome) }
{
    outcome == Outcome::Failed
}

fn any_failed(outcomes: &[Outcome]) -> bool
    ensures { result ≡ list_any (λ o. is_failed (Some o)) outcomes.now }
{
    outcomes.iter().any(|outcome| is_failed(*outcome))
}

/// 1 if a task is failed, else 0.
pub(crate) fn status_of(outcomes: &[Outcome]) -> u8
    ensures { result ≡ status_of (map (λ o. Some o) outcomes.now) }
{
    if any_failed(outcomes) { 1 } else { 0 }
}

/// Runs the program of a bundle, and answers its status, its log and the last memory.
fn ran(alloc: Global, bundle: &Bundle) -> Result<Answer, Memory>
    requires program { IsProgram bundle.now.program }
    requires words { length bundle.now.image ≡ bundle.now.program.map.words }
    requires whole { length bundle.now.image % 8 ≡ 0 }
    requires small { length bundle.now.image ≤ 1048576 }
    ensures answer { IfOk result (λ a. IsRan bundle.now a.status a.text.items) }
    ensures statuses { IfOk result (λ a. a.status ≤ 1) }
{
    let run = serial(alloc, &bundle.program, &bundle.image)?;
    let log = serial_log(alloc, &run)?;
    Ok(Answer {
        status: status_of(run.outcomes()),
        text: print_output(alloc, bundle.program.map(), &log, run.image())?,
    })
}

/// The answer of `serial` to an input that is not too long.
pub(crate) fn serial_answer(alloc: Global, bytes: &[u8]) -> Result<Answer, Memory>
    requires { length bytes.now ≤ 16777216 }
    ensures answer { IfOk result (λ a. IsSerialAnswer bytes.now a.status a.text.items) }
    ensures told { IfOk result (λ a. IsTold a.status) }
{
    match read(alloc, bytes)? {
        Reading::Faulty(answer) => Ok(answer),
        Reading::Whole(bundle) => ran(alloc, &bundle),
    }
}
