//! A run of a made bundle.

ghost use Rattle.std.specs.Prelude.{◌≡◌, ◌<◌, ◌≤◌, length, IfOk};
ghost use Rattle.std.specs.Option.{IsSomeAnd};
ghost use Rattle.plural_serial.specs.Serial.{serial_of};
ghost use Rattle.plural_crew.specs.Clashes.{IsAccepted};
ghost use Rattle.plural_made.specs.Laws.{made_bundle};
ghost use Rattle.plural_cli.specs.Command.{IsCoreCount};
ghost use Rattle.plural_cli.specs.Run.{status_of};
ghost use Rattle.plural_cli.specs.Kept.{IsMachineOf};
ghost use Rattle.plural_cli.specs.Made.{serial_line, made_run_line, made_run_status};

use crate::answer::{Answer, Reply};
use crate::command::Order;
use crate::made_line::line_of;
use crate::making::made_bundle;
use crate::on_cores::finished;
use crate::running::status_of;
use plural_bundle::Bundle;
use plural_bytes::Memory;
use plural_cores::Gate;
use plural_crew::check;
use plural_finished::Finished;
use plural_reach::{needs, reach};
use std::alloc::Global;
use std::thread::Threads;

/// What a machine of so many cores leaves of a bundle whose map has no clash.
fn accepted_finished<R: Threads + Sync, G: Gate + Sync>(
    rt: &R,
    alloc: Global,
    bundle: &Bundle,
    cores: u32,
    gate: &G,
) -> Result<Finished, Memory>
    requires words { length bundle.now.image ≡ bundle.now.program.map.words }
    requires accepted { IsAccepted bundle.now.program.map.tasks }
    requires cores { IsCoreCount cores }
    ensures { IfOk result (IsMachineOf cores bundle.now) }
{
    let map = bundle.program.map();
    match check(map, &reach(map), &needs(map)) {
        Ok(accepted) => finished(rt, alloc, bundle, &accepted, cores, Order::Threads, gate),
        // The map has no clash.
        Err(_) => unreachable!(),
    }
}

/// Runs a bundle that has the words of the line, and answers the line of its run.
fn ran_made<R: Threads + Sync, G: Gate + Sync>(
    rt: &R,
    alloc: Global,
    bundle: &Bundle,
    cores: u32,
    gate: &G,
) -> Result<Reply, Memory>
    requires words { length bundle.now.image ≡ bundle.now.program.map.words }
    requires many { 32812 < bundle.now.program.map.words }
    requires accepted { IsAccepted bundle.now.program.map.tasks }
    requires cores { IsCoreCount cores }
    ensures status { IfOk result (λ r.
        r.answer.status ≡ status_of (serial_of bundle.now.program bundle.now.image).outcomes) }
    ensures text { IfOk result (λ r. r.answer.text.items ≡ serial_line bundle.now) }
    ensures machine { IfOk result (λ r. IsSomeAnd r.machine (IsMachineOf cores bundle.now)) }
    ensures statuses { IfOk result (λ r. r.answer.status ≤ 1) }
{
    let finished = accepted_finished(rt, alloc, bundle, cores, gate)?;
    let tasks = bundle.program.map().tasks();
    let answer = Answer {
        status: status_of(finished.outcomes()),
        text: line_of(alloc, tasks, finished.entries(), finished.image())?,
    };
    Ok(Reply {
        answer,
        machine: Some(finished),
    })
}

/// Makes the bundle of a seed and runs it on so many cores, and answers the line of the run.
pub(crate) fn made_run_answer<R: Threads + Sync, G: Gate + Sync>(
    rt: &R,
    alloc: Global,
    seed: u64,
    cores: u32,
    gate: &G,
) -> Result<Reply, Memory>
    requires { IsCoreCount cores }
    ensures status { IfOk result (λ r. r.answer.status ≡ made_run_status seed) }
    ensures text { IfOk result (λ r. r.answer.text.items ≡ made_run_line seed) }
    ensures machine { IfOk result (λ r. IsSomeAnd r.machine (IsMachineOf cores (made_bundle seed))) }
    ensures statuses { IfOk result (λ r. r.answer.status ≤ 1) }
{
    let bundle = made_bundle(alloc, seed)?;
    ran_made(rt, alloc, &bundle, cores, gate)
}
