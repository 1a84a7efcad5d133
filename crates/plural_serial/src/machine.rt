ghost use Rattle.std.specs.Prelude.{◌≡◌, ◌+◌, ◌-◌, ◌<◌, ◌≤◌, [], ◌++◌, length, map, Some, None, IfOk, OnOk, All};
ghost use Rattle.plural_map.specs.Decisions.{HasPredecessors};
ghost use Rattle.plural_serial.specs.Program.{IsMemory, task_at, life_of};
ghost use Rattle.plural_serial.specs.Cached.{IsShaped, MayRun};
ghost use Rattle.plural_serial.specs.Serial.{end_of, outcome_of, instances};
ghost use Rattle.plural_serial.specs.Answer.{record_of, IsTaskRun, IsSerial};
ghost use Rattle.plural_serial.specs.declared.record_.Record.{Record};

use crate::answer::Answer;
use crate::cached::Cached;
use crate::flat::Flat;
use crate::outcome::{settled, with_end};
use crate::program::Program;
use crate::reading::read_each;
use crate::record_::Record;
use plural_base::Memory;
use plural_cache::Cache;
use plural_core::{Hart, Job, run};
use plural_map::{Decision, Outcome, decide};
use std::alloc::Global;

/// Runs instance k of task t over the memory, by way of the cache, which is emptied first, and answers its record.
#[inline(never)]
fn run_instance(cache: &mut Cache, flat: &mut Flat, program: &Program, t: u32, k: u32) -> Record
    requires may_run { MayRun program.now t cache.old flat.old.words }
    requires k { k < (task_at program.now t).quota }
    ensures memory { flat.new.words ≡ (life_of program.now t k flat.old.words).memory }
    ensures words { length flat.new.words ≡ length flat.old.words }
    ensures shape { IsShaped program.now.map cache.new }
    ensures record { result ≡ record_of program.now (record { t = t; k = k; start = flat.old.words }) }
{
    let task = program.task(t);
    cache.empty();
    flat.reset();
    let mut hart = Hart::start(Job {
        entry: program.entry(t),
        k,
        q: task.quota(),
        budget: task.budget(),
    });
    let mut port = Cached::new(cache, flat);
    let end = run(&mut hart, program.code(), task.regions(), &mut port);
    let counts = cache.counts();
    Record {
        t,
        k,
        end,
        instructions: hart.counted(),
        loads: counts.loads,
        misses: counts.misses,
        stores: counts.stores,
    }
}

/// Runs all instances of task t over the memory, by rising number, appends their records, and answers the task's
/// outcome.
fn run_task(
    cache: &mut Cache,
    flat: &mut Flat,
    records: &mut Vec<Record>,
    program: &Program,
    t: u32,
) -> Result<Outcome, Memory>
    requires may_run { MayRun program.now t cache.old flat.old.words }
    ensures memory { OnOk result (flat.new.words ≡
        (instances program.now t (task_at program.now t).quota flat.old.words).memory) }
    ensures words { length flat.new.words ≡ length flat.old.words }
    ensures shape { IsShaped program.now.map cache.new }
    ensures records { OnOk result (records.new.items ≡ records.old.items
        ++ map (record_of program.now) (instances program.now t (task_at program.now t).quota flat.old.words).ran) }
    ensures outcome { IfOk result (λ o. o ≡ outcome_of
        (map (end_of program.now) (instances program.now t (task_at program.now t).quota flat.old.words).ran)) }
{
    let quota = program.task(t).quota();
    let mut outcome = Outcome::Ended0;
    for k in 0..quota {
        let record = run_instance(cache, flat, program, t, k);
        outcome = with_end(outcome, record.end);
        records.push(record)?;
    }
    Ok(outcome)
}

/// Decides task t and runs it if it is to run, and answers its outcome.
fn task_outcome(
    cache: &mut Cache,
    flat: &mut Flat,
    outcomes: &[Option<Outcome>],
    records: &mut Vec<Record>,
    program: &Program,
    t: u32,
) -> Result<Outcome, Memory>
    requires may_run { MayRun program.now t cache.old flat.old.words }
    requires decidable { HasPredecessors (task_at program.now t) outcomes.now }
    ensures all { IfOk result (λ o.
        IsTaskRun program.now t outcomes.now flat.old.words flat.new.words records.old.items records.new.items o) }
    ensures words { length flat.new.words ≡ length flat.old.words }
    ensures shape { IsShaped program.now.map cache.new }
{
    match decide(program.task(t), outcomes) {
        Decision::Fail => Ok(Outcome::Failed),
        Decision::Skip => Ok(Outcome::Skipped),
        Decision::Run => run_task(cache, flat, records, program, t),
    }
}

/// The serial run of a program over an opening image of as many words as its map says. Each instance runs over a
/// cache of the map's sets and ways.
pub fn serial(alloc: Global, program: &Program, image: &[u32]) -> Result<Answer, Memory>
    requires { length image.now ≡ program.now.map.words }
    ensures answer { IfOk result (IsSerial program.now image.now) }
    ensures words { IfOk result (λ a. length a.image ≡ program.now.map.words) }
    ensures memory { IfOk result (λ a. IsMemory program.now.map a.image) }
    ensures one_each { IfOk result (λ a. length a.outcomes ≡ length program.now.map.tasks) }
    ensures tasks { IfOk result (λ a. All (λ (r : Record). r.t < length program.now.map.tasks) a.records) }
    ensures few { IfOk result (λ a. length a.records ≤ 65536) }
{
    let map = program.map();
    let mut cache = Cache::open(alloc, map.sets(), map.ways())?;
    let mut flat = Flat::of(Vec::from_slice(alloc, image)?);
    let mut outcomes = vec![in alloc; None; map.tasks().len()]?;
    let mut records = Vec::new(alloc);
    for t in map.order() {
        let outcome = task_outcome(&mut cache, &mut flat, &outcomes, &mut records, program, *t)?;
        outcomes[*t as usize] = Some(outcome);
    }
    let outcomes = settled(alloc, &outcomes)?;
    let words = flat.into_words();
    read_each(&words);
    Ok(Answer::of(words, outcomes, records))
}
