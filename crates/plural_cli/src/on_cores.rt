//! The command `run`: a bundle in, the log and the last memory of its run on some cores out.

ghost use Rattle.std.specs.Prelude.{◌≡◌, ◌≤◌, length, IfOk};
ghost use Rattle.std.specs.Option.{IsSomeAnd};
ghost use Rattle.plural_bytes.specs.Lines.{content_lines};
ghost use Rattle.plural_bundle.specs.Value.{bundle_of};
ghost use Rattle.plural_rule.specs.Last.{HasTold};
ghost use Rattle.plural_finished.specs.Finishing.{IsFinished, log_of};
ghost use Rattle.plural_output.specs.Text.{output_text};
ghost use Rattle.plural_cli.specs.Command.{IsCoreCount};
ghost use Rattle.plural_cli.specs.Kept.{IsMachineOf, IsToldBy, IsKeptOf};
ghost use Rattle.plural_cli.specs.Output.{IsTold};
ghost use Rattle.plural_cli.specs.Run.{IsRanOn, IsRunOf, IsRunAnswer};

use crate::answer::{Answer, Reply, alone};
use crate::checking::clash_told;
use crate::command::Order;
use crate::reading::{Reading, read};
use crate::running::status_of;
use plural_bundle::Bundle;
use plural_bytes::Memory;
use plural_cores::Gate;
use plural_crew::{Accepted, check};
use plural_finished::Finished;
use plural_machine::Machine;
use plural_map::Map;
use plural_output::print_output;
use plural_reach::{needs, reach};
use plural_serial::Program;
use plural_trace::Log;
use std::alloc::Global;
use std::thread::Threads;

/// Lets the machine run its program, on threads or in a drawn order.
fn run<R: Threads + Sync, G: Gate + Sync>(
    rt: &R,
    machine: &mut Machine,
    program: &Program,
    order: Order,
    gate: &G,
)
    requires program { program.now ≡ machine.old.opening.program }
    ensures opening { machine.new.opening ≡ machine.old.opening }
    ensures told { HasTold machine.new.opening machine.new.root }
{
    match order {
        Order::Threads => machine.run(rt, program, gate),
        Order::Drawn { seed } => machine.run_in_order(program, gate, seed),
    }
}

/// What a machine of so many cores leaves of a bundle whose map was accepted.
pub(crate) fn finished<R: Threads + Sync, G: Gate + Sync>(
    rt: &R,
    alloc: Global,
    bundle: &Bundle,
    accepted: &Accepted<'_>,
    cores: u32,
    order: Order,
    gate: &G,
) -> Result<Finished, Memory>
    requires map { accepted.now ≡ bundle.now.program.map }
    requires words { length bundle.now.image ≡ bundle.now.program.map.words }
    requires cores { IsCoreCount cores }
    ensures { IfOk result (IsMachineOf cores bundle.now) }
{
    let program = &bundle.program;
    let mut machine = Machine::open(alloc, program, accepted, &bundle.image, cores)?;
    run(rt, &mut machine, program, order, gate);
    let finished = machine.close(program);
    let _closed = finished.closed();
    Ok(finished)
}

/// The log and the image of a finished machine, as a text.
fn finished_text(alloc: Global, map: &Map, finished: &Finished) -> Result<Vec<u8>, Memory>
    requires finished { IsFinished finished.now }
    requires map { map.now ≡ finished.now.closed.opening.program.map }
    ensures { IfOk result (λ v. v.items ≡ output_text map.now (log_of finished.now) finished.now.image) }
{
    let outcomes = Vec::from_slice(alloc, finished.outcomes())?;
    let entries = Vec::from_slice(alloc, finished.entries())?;
    let log = Log::of(finished.cores(), outcomes, entries);
    print_output(alloc, map, &log, finished.image())
}

/// Runs a bundle whose map was accepted, and answers its status, its log and the last memory.
fn ran_on<R: Threads + Sync, G: Gate + Sync>(
    rt: &R,
    alloc: Global,
    bundle: &Bundle,
    accepted: &Accepted<'_>,
    cores: u32,
    order: Order,
    gate: &G,
) -> Result<Reply, Memory>
    requires map { accepted.now ≡ bundle.now.program.map }
    requires words { length bundle.now.image ≡ bundle.now.program.map.words }
    requires cores { IsCoreCount cores }
    ensures answer { IfOk result (λ r. IsRanOn cores bundle.now r.answer.status r.answer.text.items) }
    ensures machine { IfOk result (λ r. IsSomeAnd r.machine (IsToldBy cores bundle.now r.answer.text.items)) }
    ensures statuses { IfOk result (λ r. r.answer.status ≤ 1) }
{
    let finished = finished(rt, alloc, bundle, accepted, cores, order, gate)?;
    let answer = Answer {
        status: status_of(finished.outcomes()),
        text: finished_text(alloc, bundle.program.map(), &finished)?,
    };
    Ok(Reply {
        answer,
        machine: Some(finished),
    })
}

/// Runs a bundle without a clash, and tells the first clash of another.
fn checked_and_ran<R: Threads + Sync, G: Gate + Sync>(
    rt: &R,
    alloc: Global,
    bundle: &Bundle,
    cores: u32,
    order: Order,
    gate: &G,
) -> Result<Reply, Memory>
    requires words { length bundle.now.image ≡ bundle.now.program.map.words }
    requires cores { IsCoreCount cores }
    ensures answer { IfOk result (λ r. IsRunOf cores bundle.now r.answer.status r.answer.text.items) }
    ensures machine { IfOk result (λ r. IsKeptOf cores bundle.now r.answer.status r.answer.text.items r.machine) }
    ensures told { IfOk result (λ r. IsTold r.answer.status) }
{
    let map = bundle.program.map();
    match check(map, &reach(map), &needs(map)) {
        Ok(accepted) => ran_on(rt, alloc, bundle, &accepted, cores, order, gate),
        Err(clash) => Ok(alone(clash_told(alloc, map, clash)?)),
    }
}

/// The answer of `run` to an input that is not too long.
pub(crate) fn run_answer<R: Threads + Sync, G: Gate + Sync>(
    rt: &R,
    alloc: Global,
    bytes: &[u8],
    cores: u32,
    order: Order,
    gate: &G,
) -> Result<Reply, Memory>
    requires short { length bytes.now ≤ 16777216 }
    requires cores { IsCoreCount cores }
    ensures answer { IfOk result (λ r. IsRunAnswer cores bytes.now r.answer.status r.answer.text.items) }
    ensures machine { IfOk result (λ r. IsKeptOf cores (bundle_of (content_lines bytes.now))
        r.answer.status r.answer.text.items r.machine) }
    ensures told { IfOk result (λ r. IsTold r.answer.status) }
{
    match read(alloc, bytes)? {
        Reading::Faulty(answer) => Ok(alone(answer)),
        Reading::Whole(bundle) => checked_and_ran(rt, alloc, &bundle, cores, order, gate),
    }
}
