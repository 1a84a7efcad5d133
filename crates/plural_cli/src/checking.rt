//! The command `check`: a bundle in, whether its map has a clash out.

ghost use Rattle.std.specs.Prelude.{◌≡◌, ◌<◌, ◌≤◌, length, sum_by, IfOk};
ghost use Rattle.plural_map.specs.Value.{TaskValue};
ghost use Rattle.plural_crew.specs.Clashes.{IsFirstClash};
ghost use Rattle.plural_cli.specs.Output.{IsTold};
ghost use Rattle.plural_cli.specs.Check.{accepted_text, instance_text, clash_text, IsClashing, IsClashAnswer, IsMapAnswer, IsCheckAnswer};

use crate::answer::Answer;
use crate::reading::{Reading, read};
use plural_bytes::Memory;
use plural_crew::{Clash, check};
use plural_map::{Map, Task};
use plural_reach::{needs, reach};
use std::alloc::Global;

/// How many instances tasks have.
pub(crate) fn instance_count(tasks: &[Task]) -> u32
    requires { sum_by (λ (t : TaskValue). t.quota) tasks.now ≤ 65536 }
    ensures { result ≡ sum_by (λ (t : TaskValue). t.quota) tasks.now }
{
    let mut count = 0;
    for task in tasks {
        count += task.quota();
    }
    count
}

/// The line for a map without a clash.
fn accepted_line(alloc: Global, map: &Map) -> Result<Vec<u8>, Memory>
    ensures { IfOk result (λ v. v.items ≡ accepted_text map.now.tasks) }
{
    let tasks = map.tasks().len();
    let instances = instance_count(map.tasks());
    let mut text = Vec::new(alloc);
    text.extend_from_slice(b"accepted: tasks ")?;
    text.extend_from_slice(tasks.to_string(alloc)?.as_bytes())?;
    text.extend_from_slice(b" instances ")?;
    text.extend_from_slice(instances.to_string(alloc)?.as_bytes())?;
    text.push(b'\n')?;
    Ok(text)
}

/// An instance by its task's name and its number.
fn instance_text(alloc: Global, map: &Map, t: u32, k: u32) -> Result<Vec<u8>, Memory>
    requires { t < length map.now.tasks }
    ensures { IfOk result (λ v. v.items ≡ instance_text map.now.tasks t k) }
{
    let mut text = Vec::new(alloc);
    text.extend_from_slice(map.tasks()[t as usize].name().bytes())?;
    text.extend_from_slice(b" ")?;
    text.extend_from_slice(k.to_string(alloc)?.as_bytes())?;
    Ok(text)
}

/// The line for a clash of instances of two tasks.
fn clash_line(alloc: Global, map: &Map, clash: Clash) -> Result<Vec<u8>, Memory>
    requires first { clash.t < length map.now.tasks }
    requires second { clash.u < length map.now.tasks }
    ensures { IfOk result (λ v. v.items ≡ clash_text map.now.tasks clash.t clash.k clash.u clash.l clash.a) }
{
    let first = instance_text(alloc, map, clash.t, clash.k)?;
    let second = instance_text(alloc, map, clash.u, clash.l)?;
    let mut text = Vec::new(alloc);
    text.extend_from_slice(b"clash: ")?;
    text.extend_from_slice(&first)?;
    text.extend_from_slice(b" and ")?;
    text.extend_from_slice(&second)?;
    text.extend_from_slice(b" at word ")?;
    text.extend_from_slice(clash.a.to_string(alloc)?.as_bytes())?;
    text.push(b'\n')?;
    Ok(text)
}

/// The answer that tells the first clash of a map.
pub(crate) fn clash_told(alloc: Global, map: &Map, clash: Clash) -> Result<Answer, Memory>
    requires { IsFirstClash map.now.tasks clash.t clash.k clash.u clash.l clash.a }
    ensures { IfOk result (λ a. IsClashing map.now.tasks a.status a.text.items) }
{
    Ok(Answer {
        status: 4,
        text: clash_line(alloc, map, clash)?,
    })
}

/// The answer that tells the first clash of a map, or nothing if it has none.
pub(crate) fn clash_answer(alloc: Global, map: &Map) -> Result<Option<Answer>, Memory>
    ensures { IfOk result (IsClashAnswer map.now.tasks) }
{
    match check(map, &reach(map), &needs(map)) {
        Ok(_) => Ok(None),
        Err(clash) => Ok(Some(clash_told(alloc, map, clash)?)),
    }
}

/// The answer of `check` to a bundle's map.
fn map_answer(alloc: Global, map: &Map) -> Result<Answer, Memory>
    ensures answer { IfOk result (λ a. IsMapAnswer map.now.tasks a.status a.text.items) }
    ensures told { IfOk result (λ a. IsTold a.status) }
{
    match clash_answer(alloc, map)? {
        Some(answer) => Ok(answer),
        None => Ok(Answer {
            status: 0,
            text: accepted_line(alloc, map)?,
        }),
    }
}

/// The answer of `check` to an input that is not too long.
pub(crate) fn check_answer(alloc: Global, bytes: &[u8]) -> Result<Answer, Memory>
    requires { length bytes.now ≤ 16777216 }
    ensures answer { IfOk result (λ a. IsCheckAnswer bytes.now a.status a.text.items) }
    ensures told { IfOk result (λ a. IsTold a.status) }
{
    match read(alloc, bytes)? {
        Reading::Faulty(answer) => Ok(answer),
        Reading::Whole(bundle) => map_answer(alloc, bundle.program.map()),
    }
}
