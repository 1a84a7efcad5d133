//! The canonical lines of a map.
ghost use Rattle.std.specs.Prelude.{◌≡◌, ◌++◌, flat_map, OnOk, OnErr, IfOk};
ghost use Rattle.plural_map_text.specs.Print.{task_line, kind_text, when_text, mode_text, join_text, dep_text, region_text, task_text, map_text};
ghost use Rattle.plural_map.specs.Lookup.{name_at};

use plural_bytes::{Memory, put, put_number};
use plural_map::{Dep, Map, Task, When};
use plural_regions::{Mode, Region};
use std::alloc::Global;

fn when_text(when: When) -> &'static [u8]
    ensures { result.now ≡ when_text when }
{
    match when {
        When::Any => b"any",
        When::Code0 => b"0",
        When::Code1 => b"1",
    }
}

fn mode_text(mode: Mode) -> &'static [u8]
    ensures { result.now ≡ mode_text mode }
{
    match mode {
        Mode::Read => b"read",
        Mode::Write => b"write",
    }
}

fn put_kind(out: &mut Vec<u8>, dup: bool, quota: u32) -> Result<(), Memory>
    ensures { OnOk result (out.new.items ≡ out.old.items ++ kind_text dup quota) }
{
    if dup {
        put(out, b" dup ")?;
        put_number(out, quota)?;
        put(out, b" ")
    } else {
        put(out, b" regular ")
    }
}

fn put_task_line(out: &mut Vec<u8>, task: &Task) -> Result<(), Memory>
    ensures { OnOk result (out.new.items ≡ out.old.items ++ task_line task.now) }
{
    put(out, b"task ")?;
    put(out, task.name().bytes())?;
    put_kind(out, task.is_dup(), task.quota())?;
    put(out, b"entry ")?;
    put(out, task.entry().bytes())?;
    put(out, b" budget ")?;
    put_number(out, task.budget())?;
    put(out, b"\n")?;
    Ok(())
}

/// Appends the name of the task of a number to `out`; nothing if no task has the number.
pub fn put_name_at(out: &mut Vec<u8>, tasks: &[Task], t: u32) -> Result<(), Memory>
    ensures ok { OnOk result (out.new.items ≡ out.old.items ++ name_at tasks.now t) }
    ensures err { OnErr result (out.new.items ≡ out.old.items) }
{
    match tasks.get(t as usize) {
        None => Ok(()),
        Some(task) => put(out, task.name().bytes()),
    }
}

fn put_dep(out: &mut Vec<u8>, tasks: &[Task], dep: &Dep) -> Result<(), Memory>
    ensures { OnOk result (out.new.items ≡ out.old.items ++ dep_text tasks.now dep.now) }
{
    put(out, b"after ")?;
    put_name_at(out, tasks, dep.task)?;
    put(out, b" ")?;
    put(out, when_text(dep.when))?;
    put(out, b"\n")?;
    Ok(())
}

fn put_region(out: &mut Vec<u8>, region: &Region) -> Result<(), Memory>
    ensures { OnOk result (out.new.items ≡ out.old.items ++ region_text region.now) }
{
    put(out, mode_text(region.mode))?;
    put(out, b" ")?;
    put_number(out, region.base)?;
    put(out, b" ")?;
    put_number(out, region.stride)?;
    put(out, b" ")?;
    put_number(out, region.count)?;
    put(out, b"\n")?;
    Ok(())
}

fn put_deps(out: &mut Vec<u8>, tasks: &[Task], deps: &[Dep]) -> Result<(), Memory>
    ensures { OnOk result (out.new.items ≡ out.old.items ++ flat_map (dep_text tasks.now) deps.now) }
{
    for dep in deps {
        put_dep(out, tasks, dep)?;
    }
    Ok(())
}

fn put_regions(out: &mut Vec<u8>, regions: &[Region]) -> Result<(), Memory>
    ensures { OnOk result (out.new.items ≡ out.old.items ++ flat_map region_text regions.now) }
{
    for region in regions {
        put_region(out, region)?;
    }
    Ok(())
}

fn put_join(out: &mut Vec<u8>, some: bool) -> Result<(), Memory>
    ensures { OnOk result (out.new.items ≡ out.old.items ++ join_text some) }
{
    if some {
        put(out, b"join some\n")
    } else {
        Ok(())
    }
}

fn put_task(out: &mut Vec<u8>, tasks: &[Task], task: &Task) -> Result<(), Memory>
    ensures { OnOk result (out.new.items ≡ out.old.items ++ task_text tasks.now task.now) }
{
    put_task_line(out, task)?;
    put_deps(out, tasks, task.deps())?;
    put_join(out, task.joins_some())?;
    put_regions(out, task.regions())
}

fn put_tasks(out: &mut Vec<u8>, tasks: &[Task]) -> Result<(), Memory>
    ensures { OnOk result (out.new.items ≡ out.old.items ++ flat_map (task_text tasks.now) tasks.now) }
{
    for task in tasks {
        put_task(out, tasks, task)?;
    }
    Ok(())
}

/// The canonical map lines.
pub fn print(alloc: Global, map: &Map) -> Result<Vec<u8>, Memory>
    ensures { IfOk result (λ v. v.items ≡ map_text map.now) }
{
    let mut out = Vec::new(alloc);
    put(&mut out, b"memory ")?;
    put_number(&mut out, map.words())?;
    put(&mut out, b"\ncache ")?;
    put_number(&mut out, map.sets())?;
    put(&mut out, b" ")?;
    put_number(&mut out, map.ways())?;
    put(&mut out, b"\n")?;
    put_tasks(&mut out, map.tasks())?;
    Ok(out)
}
