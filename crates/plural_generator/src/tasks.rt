//! The tasks and their map.
ghost use Rattle.std.specs.Prelude.{◌≡◌, ◌≤◌, true, [], ◌∷◌, IfOk};
ghost use Rattle.plural_base.specs.Names.{is_name};
ghost use Rattle.plural_generator.specs.Tasks.{reads, writes, after, dup_task, regular_task, fir_task, top_task, best_task, loud_task, quiet_task, done_task, made_tasks, made_map};

use arrayvec::ArrayVec;
use plural_bytes::{Memory, Name};
use plural_map::{Dep, Map, Task, TaskParts, When};
use plural_regions::{Mode, Region};
use std::alloc::Global;

fn name(text: &[u8]) -> Name
    requires { is_name text.now ≡ true }
    ensures { result ≡ text.now }
{
    Name::of(text).unwrap()
}

fn reads(base: u32, stride: u32, count: u32) -> Region
    requires base { base ≤ 65535 }
    requires stride { stride ≤ 65535 }
    requires nonempty { 1 ≤ count }
    requires count { count ≤ 65536 }
    ensures { result ≡ reads base stride count }
{
    Region {
        mode: Mode::Read,
        base,
        stride,
        count,
    }
}

fn writes(base: u32, stride: u32, count: u32) -> Region
    requires base { base ≤ 65535 }
    requires stride { stride ≤ 65535 }
    requires nonempty { 1 ≤ count }
    requires count { count ≤ 65536 }
    ensures { result ≡ writes base stride count }
{
    Region {
        mode: Mode::Write,
        base,
        stride,
        count,
    }
}

fn after(task: u32, when: When) -> ArrayVec<Dep, 16>
    ensures { result.items ≡ after task when ∷ [] }
{
    let mut deps = ArrayVec::new();
    deps.push(Dep { task, when });
    deps
}

/// A task of this many instances, which begin at the label of the task's own name.
fn dup_task(
    name: Name,
    quota: u32,
    budget: u32,
    deps: ArrayVec<Dep, 16>,
    regions: ArrayVec<Region, 8>,
) -> Task
    ensures { result ≡ dup_task name quota budget deps.items regions.items }
{
    Task::of(TaskParts {
        name,
        dup: true,
        quota,
        entry: name,
        budget,
        some: false,
        deps,
        regions,
    })
}

/// A task of one instance, which begins at the label of the task's own name.
fn regular_task(
    name: Name,
    budget: u32,
    deps: ArrayVec<Dep, 16>,
    regions: ArrayVec<Region, 8>,
) -> Task
    ensures { result ≡ regular_task name budget deps.items regions.items }
{
    Task::of(TaskParts {
        name,
        dup: false,
        quota: 1,
        entry: name,
        budget,
        some: false,
        deps,
        regions,
    })
}

fn fir() -> Task
    ensures { result ≡ fir_task }
{
    let mut regions = ArrayVec::new();
    regions.push(reads(0, 16, 31));
    regions.push(reads(16_400, 0, 16));
    regions.push(writes(16_416, 16, 16));
    dup_task(name(b"fir"), 1024, 10_000, ArrayVec::new(), regions)
}

fn top() -> Task
    ensures { result ≡ top_task }
{
    let mut regions = ArrayVec::new();
    regions.push(reads(16_416, 2048, 2048));
    regions.push(writes(32_800, 1, 1));
    dup_task(name(b"top"), 8, 100_000, after(0, When::Any), regions)
}

fn best() -> Task
    ensures { result ≡ best_task }
{
    let mut regions = ArrayVec::new();
    regions.push(reads(32_800, 0, 8));
    regions.push(reads(32_810, 0, 1));
    regions.push(writes(32_808, 0, 1));
    regular_task(name(b"best"), 1000, after(1, When::Any), regions)
}

fn loud() -> Task
    ensures { result ≡ loud_task }
{
    let mut regions = ArrayVec::new();
    regions.push(writes(32_809, 0, 1));
    regular_task(name(b"loud"), 100, after(2, When::Code1), regions)
}

fn quiet() -> Task
    ensures { result ≡ quiet_task }
{
    let mut regions = ArrayVec::new();
    regions.push(writes(32_811, 0, 1));
    regular_task(name(b"quiet"), 100, after(2, When::Code0), regions)
}

fn done() -> Task
    ensures { result ≡ done_task }
{
    let mut deps = after(3, When::Any);
    deps.push(Dep {
        task: 4,
        when: When::Any,
    });
    let mut regions = ArrayVec::new();
    regions.push(reads(32_809, 0, 1));
    regions.push(reads(32_811, 0, 1));
    regions.push(writes(32_812, 0, 1));
    regular_task(name(b"done"), 100, deps, regions)
}

fn tasks(alloc: Global) -> Result<Vec<Task>, Memory>
    ensures { IfOk result (λ v. v.items ≡ made_tasks) }
{
    let mut tasks = Vec::new(alloc);
    tasks.push(fir())?;
    tasks.push(top())?;
    tasks.push(best())?;
    tasks.push(loud())?;
    tasks.push(quiet())?;
    tasks.push(done())?;
    Ok(tasks)
}

/// The map of every bundle that is made.
pub(crate) fn map(alloc: Global) -> Result<Map, Memory>
    ensures { IfOk result (λ m. m ≡ made_map) }
{
    let tasks = tasks(alloc)?;
    let order = Vec::from_slice(alloc, &[0, 1, 2, 3, 4, 5])?;
    Ok(Map::of(32_816, 16, 2, tasks, order))
}
