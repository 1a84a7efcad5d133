//! Machines over a bundle: side by side on threads, and in drawn orders, on 1 to 64 cores. That what they leave is the
//! serial run's is proved; that they run is seen here.
ghost use Rattle.std.specs.Prelude.{◌≡◌, ◌≤◌, length};
ghost use Rattle.plural_rule.specs.Last.{HasTold};

use crate::trial::bundle_of;
use plural_bundle::Bundle;
use plural_cores::OpenGate;
use plural_crew::check;
use plural_finished::Finished;
use plural_machine::Machine;
use plural_reach::{needs, reach};
use plural_serial::{Program, serial};
use std::alloc::Global;
use std::test::*;
use std::thread::Threads;

/// A task of 100 instances after another, each of which adds its number to what the other stored; two branches on the
/// first one's code, of which one is skipped; and a task after all three.
const CHAIN: &str = "plural 1\n[map]\nmemory 128\ncache 4 2\n\
    task first regular entry first budget 9\nwrite 0 0 1\n\
    task each dup 100 entry each budget 9\nafter first any\nread 0 0 1\nwrite 8 1 1\n\
    task yes regular entry yes budget 9\nafter first 0\nwrite 120 0 1\n\
    task no regular entry no budget 9\nafter first 1\nwrite 121 0 1\n\
    task last regular entry last budget 9\nafter each any\nafter yes any\nafter no any\n\
    read 8 0 100\nwrite 122 0 1\n\
    [kernels]\nfirst: li x5, 3\nsw x5, 0(x0)\nli x10, 0\necall\n\
    each: lw x5, 0(x0)\nadd x5, x5, x10\nslli x6, x10, 2\nsw x5, 32(x6)\nli x10, 0\necall\n\
    yes: li x5, 1\nsw x5, 480(x0)\nli x10, 0\necall\n\
    no: li x5, 2\nsw x5, 484(x0)\nli x10, 0\necall\n\
    last: lw x5, 428(x0)\nsw x5, 488(x0)\nli x10, 0\necall\n\
    [image]\n[end]\n";

/// Runs a machine: on threads, or in the order that a seed draws.
fn run_by<R: Threads + Sync>(rt: &R, machine: &mut Machine, program: &Program, seed: Option<u64>)
    requires program { program.now ≡ machine.old.opening.program }
    ensures opening { machine.new.opening ≡ machine.old.opening }
    ensures told { HasTold machine.new.opening machine.new.root }
{
    match seed {
        None => machine.run(rt, program, &OpenGate),
        Some(seed) => machine.run_in_order(program, &OpenGate, seed),
    }
}

/// What a machine of so many cores leaves of a bundle.
fn finished<R: Threads + Sync>(
    rt: &R,
    alloc: Global,
    bundle: &Bundle,
    cores: u32,
    seed: Option<u64>,
) -> Result<Finished, Fail>
    requires words { length bundle.now.image ≡ bundle.now.program.map.words }
    requires cores { (1 ≤ cores) × (cores ≤ 64) }
{
    let program = &bundle.program;
    let map = program.map();
    let (reach, needs) = (reach(map), needs(map));
    let accepted = match check(map, &reach, &needs) {
        Ok(accepted) => accepted,
        Err(_) => return Err("a clash".into()),
    };
    let mut machine = match Machine::open(alloc, program, &accepted, &bundle.image, cores) {
        Ok(machine) => machine,
        Err(_) => return Err("a machine".into()),
    };
    run_by(rt, &mut machine, program, seed);
    Ok(machine.close(program))
}

/// Whether a machine of so many cores leaves the memory and the outcomes of the serial run, and an entry for each of
/// its records.
fn runs_as_serial<R: Threads + Sync>(
    rt: &R,
    alloc: Global,
    cores: u32,
    seed: Option<u64>,
) -> Result<bool, Fail> {
    if cores < 1 || 64 < cores {
        return Err("a number of cores".into());
    }
    let bundle = bundle_of(alloc, CHAIN)?;
    let run = match serial(alloc, &bundle.program, &bundle.image) {
        Ok(run) => run,
        Err(_) => return Err("a run".into()),
    };
    let left = finished(rt, alloc, &bundle, cores, seed)?;
    let same = left.image() == run.image() && left.outcomes() == run.outcomes();
    let last = left.image().get(122) == Some(&102);
    Ok(same && last && left.entries().len() == run.records().len() && left.cores() == cores)
}

#[test]
fn machines_leave_what_the_serial_run_leaves(rt: HostRuntime) -> Result<(), Fail> {
    for cores in [1, 2, 3, 4, 8, 64] {
        assert!(rt;
            runs_as_serial(&rt, rt.alloc(), cores, None)?,
            "{cores} cores"
        );
        for seed in 0..5 {
            assert!(rt;
                runs_as_serial(&rt, rt.alloc(), cores, Some(seed))?,
                "seed {seed}"
            );
        }
    }
    Ok(())
}
