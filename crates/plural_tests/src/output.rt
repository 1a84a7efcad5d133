//! More entries than a log may have.
use crate::trial::map_of;
use plural_bundle::{BundleError, Fault};
use plural_bytes::Line;
use plural_output::read_output;
use std::test::*;

/// The map of one task.
const MAP: &str = "memory 8\ncache 1 1\ntask add regular entry e budget 100\n";

/// The lines of a log of its run, up to its first entry.
const LOG: [&str; 3] = [
    "log 1 cores 1",
    "task add ended 0",
    "run add 0 code 0 n 1 loads 0 misses 0 stores 0 core 0 from 0 to 1",
];

#[test]
fn the_65537th_entry_is_one_too_many(rt: HostRuntime) -> Result<(), Fail> {
    let map = map_of(rt.alloc(), MAP.as_bytes())?;
    let mut lines: Vec<Line> = Vec::new(rt.alloc());
    for (i, text) in [LOG[0], LOG[1]].iter().enumerate() {
        let line = Line {
            number: i as u32 + 1,
            text: text.as_bytes(),
        };
        lines.push(line).ok().ok_or("lines")?;
    }
    for n in 0..65_537_u32 {
        let line = Line {
            number: n + 3,
            text: LOG[2].as_bytes(),
        };
        lines.push(line).ok().ok_or("lines")?;
    }
    if lines.len() > 100_000 {
        return Err("too many lines".into());
    }
    match read_output(rt.alloc(), &map, &lines, 99_999) {
        Err(BundleError::At { line, kind }) => assert_eq!(rt; (line, kind), (65_539, Fault::Count)),
        _ => return Err("a fault".into()),
    }
    Ok(())
}
