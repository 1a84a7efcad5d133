//! The worked rows on decisions and map lines.
use crate::trial::map_of;
use arrayvec::ArrayVec;
use plural_bytes::Name;
use plural_map::*;
use plural_map_text::*;
use std::test::*;

/// What becomes of a task that depends on tasks 0 and 1.
fn after_two(name: Name, some: bool, first: (When, Outcome), second: (When, Outcome)) -> Decision {
    let mut deps = ArrayVec::new();
    deps.push(Dep {
        task: 0,
        when: first.0,
    });
    deps.push(Dep {
        task: 1,
        when: second.0,
    });
    let task = Task::of(TaskParts {
        name,
        dup: false,
        quota: 1,
        entry: name,
        budget: 9,
        some,
        deps,
        regions: ArrayVec::new(),
    });
    decide(&task, &[Some(first.1), Some(second.1)])
}

#[test]
fn a_task_is_decided_by_its_predecessors(rt: HostRuntime) -> Result<(), Fail> {
    let name = Name::of(b"d").ok_or("a name")?;
    let (any, code) = (When::Any, When::Code0);
    let (zero, one) = (Outcome::Ended0, Outcome::Ended1);
    let (skipped, failed) = (Outcome::Skipped, Outcome::Failed);
    for (some, first, second, want) in [
        (false, (code, one), (any, zero), Decision::Skip),
        (false, (any, skipped), (any, zero), Decision::Run),
        (false, (any, failed), (any, skipped), Decision::Fail),
        (false, (code, skipped), (code, zero), Decision::Skip),
        (true, (code, skipped), (code, zero), Decision::Run),
        (true, (code, skipped), (code, one), Decision::Skip),
        (true, (any, failed), (any, zero), Decision::Fail),
    ] {
        assert_eq!(rt; after_two(name, some, first, second), want);
    }
    Ok(())
}

#[test]
fn a_map_is_printed_in_canonical_lines(rt: HostRuntime) -> Result<(), Fail> {
    let text = b"memory 0x10\ncache 2 4\ntask  a regular entry e budget 09\nwrite 0 0 1\n\
        task b dup 3 entry e budget 7\nread 8 1 2 # late\nafter a 1\n";
    let want = b"memory 16\ncache 2 4\ntask a regular entry e budget 9\nwrite 0 0 1\n\
        task b dup 3 entry e budget 7\nafter a 1\nread 8 1 2\n";
    let map = map_of(rt.alloc(), text)?;
    let printed = print(rt.alloc(), &map).ok().ok_or("a text")?;
    assert_eq!(rt; printed.as_slice(), want.as_slice());
    Ok(())
}
