//! Seats over the words of a parsed map, which claim and finish each instance once.
ghost use Rattle.std.specs.Prelude.{◌≡◌, ◌<◌, ◌≤◌, ◌∷◌, [], IfOk, OnOk};
ghost use Rattle.std.specs.List.{All};
ghost use Rattle.plural_order.specs.Sums.{times};
ghost use Rattle.plural_rule.specs.Opening.{task_count};
ghost use Rattle.plural_rule.specs.Stages.{outs_of};
ghost use Rattle.plural_rule.specs.declared.view.Stage.TheVariants.{Got};
ghost use Rattle.plural_serial.specs.Cached.{IsShaped};
ghost use Rattle.plural_words.specs.Seen.{IsSeatOf, IsRootOf};
ghost use Rattle.plural_tests.specs.Workers.{IsIdle};

use crate::trial::{bundle_of, words_of};
use plural_alloc::{Claim, claim};
use plural_serial::Program;
use plural_stages::Engine;
use plural_sync::Synchroniser;
use plural_words::{Root, Seat, Words};
use std::alloc::Global;
use std::sync::atomic::{AtomicU64, Ordering};
use std::test::Fail;
use std::thread;
use std::thread::Threads;

/// How many claims of a task a worker makes at most.
const PATIENCE: u32 = 1_000_000;

/// A seat with what it takes to run an instance.
#[derive(Drop)]
struct Worker {
    seat: Seat,
    engine: Engine,
}

/// How often each instance was claimed, the instances of a task after those of the tasks before it.
#[derive(Drop)]
struct Tally {
    quota: usize,
    counts: Vec<AtomicU64>,
}

impl Tally {
    /// Nothing is claimed, of this many tasks with this quota.
    fn new(alloc: Global, tasks: u32, quota: u32) -> Result<Tally, Fail> {
        let mut counts = Vec::new(alloc);
        for _ in 0..tasks as u64 * quota as u64 {
            counts.push(AtomicU64::new(0)).ok().ok_or("counts")?;
        }
        Ok(Tally {
            quota: quota as usize,
            counts,
        })
    }

    fn count(&self, t: u32, k: u32) {
        let before = (t as usize).saturating_mul(self.quota);
        if let Some(word) = self.counts.get(before.saturating_add(k as usize)) {
            word.fetch_add(1, Ordering::SeqCst);
        }
    }

    /// How many instances were claimed once.
    fn claimed_once(&self) -> usize {
        let mut found: usize = 0;
        for word in &self.counts {
            if word.load(Ordering::SeqCst) == 1 {
                found = found.saturating_add(1);
            }
        }
        found
    }
}

/// Runs the instance that a worker's seat was handed, and settles it.
fn run_claimed(
    words: &Words,
    program: &Program,
    sync: &Synchroniser,
    worker: &mut Worker,
    t: u32,
    k: u32,
)
    requires program { program.now ≡ words.now.opening.program }
    requires sync { sync.now ≡ program.now }
    requires task { t < task_count program.now }
    requires of { IsSeatOf words.now worker.old.seat }
    requires got { worker.old.seat.view.stage ≡ Got t k }
    requires nothing { worker.old.seat.view.owes ≡ [] }
    requires shape { IsShaped program.now.map worker.old.engine.cache }
    ensures idle { IsIdle words.now worker.new.seat worker.new.engine }
{
    let Worker { seat, engine } = worker;
    engine.begin(words, program, seat, t, k);
    let end = engine.run(words, program, seat, t, k);
    engine.drain(words, seat, t, k, end);
    engine.finish(words, seat, t, k, end);
    sync.deliver(program, words, seat, t, k, end);
}

/// Claims an instance of task t and, if the worker gets one, runs it until it is settled.
fn take(words: &Words, program: &Program, sync: &Synchroniser, worker: &mut Worker, t: u32) -> Claim
    requires program { program.now ≡ words.now.opening.program }
    requires sync { sync.now ≡ program.now }
    requires task { t < task_count program.now }
    requires idle { IsIdle words.now worker.old.seat worker.old.engine }
    ensures idle { IsIdle words.now worker.new.seat worker.new.engine }
{
    let said = claim(words, program, &mut worker.seat, t);
    if let Claim::Got(k) = said {
        run_claimed(words, program, sync, worker, t, k);
    }
    said
}

/// Claims instances of a task until all are handed out, and counts each that the worker got.
fn work_on(
    words: &Words,
    program: &Program,
    sync: &Synchroniser,
    worker: &mut Worker,
    tally: &Tally,
    t: u32,
)
    requires program { program.now ≡ words.now.opening.program }
    requires sync { sync.now ≡ program.now }
    requires task { t < task_count program.now }
    requires idle { IsIdle words.now worker.old.seat worker.old.engine }
    ensures idle { IsIdle words.now worker.new.seat worker.new.engine }
{
    for _ in 0..PATIENCE {
        match take(words, program, sync, worker, t) {
            Claim::Got(k) => tally.count(t, k),
            Claim::Handed => return,
            Claim::Unarmed | Claim::Lost { .. } => {}
        }
    }
}

/// Claims instances of each task in turn.
fn work(words: &Words, program: &Program, sync: &Synchroniser, worker: &mut Worker, tally: &Tally)
    requires program { program.now ≡ words.now.opening.program }
    requires sync { sync.now ≡ program.now }
    requires idle { IsIdle words.now worker.old.seat worker.old.engine }
    ensures idle { IsIdle words.now worker.new.seat worker.new.engine }
{
    let tasks = program.map().tasks().len() as u32;
    for t in 0..tasks {
        work_on(words, program, sync, worker, tally, t);
    }
}

/// A worker whose seat has this core number.
fn worker_of(
    alloc: Global,
    words: &Words,
    root: &mut Root,
    program: &Program,
    number: u32,
) -> Result<Worker, Fail>
    requires program { program.now ≡ words.now.opening.program }
    requires low { number < words.now.opening.cores }
    requires away { times number (outs_of root.old.view.role) ≡ 0 }
    requires of { IsRootOf words.now root.old }
    ensures of { IsRootOf words.now root.new }
    ensures out { OnOk result (outs_of root.new.view.role ≡ number ∷ outs_of root.old.view.role) }
    ensures idle { IfOk result (λ w. IsIdle words.now w.seat w.engine) }
{
    let engine = Engine::open(alloc, program)?;
    let seat = words.split(root, number);
    Ok(Worker { seat, engine })
}

/// So many workers, each with a seat of its own.
fn workers_of(
    alloc: Global,
    words: &Words,
    root: &mut Root,
    program: &Program,
    count: u32,
) -> Result<Vec<Worker>, Fail>
    requires program { program.now ≡ words.now.opening.program }
    requires few { count ≤ words.now.opening.cores }
    requires alone { outs_of root.old.view.role ≡ [] }
    requires of { IsRootOf words.now root.old }
    ensures idle { IfOk result (λ v. All (λ w. IsIdle words.now w.seat w.engine) v.items) }
{
    let mut workers = Vec::new(alloc);
    for i in 0..count {
        workers.push(worker_of(alloc, words, root, program, i)?)?;
    }
    Ok(workers)
}

/// Lets each worker claim instances in a thread of its own.
fn claim_side_by_side<R: Threads + Sync>(
    rt: &R,
    words: &Words,
    program: &Program,
    sync: &Synchroniser,
    workers: &mut [Worker],
    tally: &Tally,
)
    requires program { program.now ≡ words.now.opening.program }
    requires sync { sync.now ≡ program.now }
    requires idle { All (λ w. IsIdle words.now w.seat w.engine) workers.old }
{
    let all = workers.len().max(1);
    thread::for_each_mut(
        rt,
        workers,
        all,
        &|_, worker: &mut Worker|
            requires { (program.now ≡ words.now.opening.program) × (sync.now ≡ program.now)
                × IsIdle words.now worker.now.seat worker.now.engine }
        { work(words, program, sync, worker, tally) },
    );
}

/// So many tasks that wait for none, each of so many instances of two instructions.
fn independent(alloc: Global, tasks: u32, quota: u32) -> Result<String, Fail> {
    let mut text = String::from_str(alloc, "plural 1\n[map]\nmemory 8\ncache 1 1\n")?;
    for t in 0..tasks {
        let line = format!(in alloc; "task t{t} dup {quota} entry e budget 2\n")?;
        text.push_str(line.as_str())?;
    }
    text.push_str("[kernels]\ne: li x10, 0\necall\n[image]\n[end]\n")?;
    Ok(text)
}

/// How many instances are claimed once, by so many seats, of so many tasks with this quota.
fn claimed_once<R: Threads + Sync>(
    rt: &R,
    alloc: Global,
    tasks: u32,
    quota: u32,
    seats: u32,
) -> Result<usize, Fail> {
    if seats < 1 || 64 < seats {
        return Err("a number of seats".into());
    }
    let bundle = bundle_of(alloc, &independent(alloc, tasks, quota)?)?;
    let program = &bundle.program;
    let sync = Synchroniser::open(alloc, program)?;
    let (words, mut root) = words_of(alloc, &bundle, seats)?;
    let tally = Tally::new(alloc, tasks, quota)?;
    let mut workers = workers_of(alloc, &words, &mut root, program, seats)?;
    claim_side_by_side(rt, &words, program, &sync, &mut workers, &tally);
    Ok(tally.claimed_once())
}

#[test]
fn each_instance_is_claimed_once(rt: HostRuntime) -> Result<(), Fail> {
    assert_eq!(rt; claimed_once(&rt, rt.alloc(), 1, 100, 4)?, 100);
    assert_eq!(rt; claimed_once(&rt, rt.alloc(), 64, 1024, 64)?, 65_536);
    Ok(())
}
