//! Words that name no command, inputs that are too long, reads and writes that fail, and what is made.
ghost use Rattle.std.specs.Prelude.{◌≤◌};

use crate::trial::{SMALLEST, SUM, answered, answered_by, open_sink};
use plural_bytes::{MemSink, MemSource};
use std::alloc::Global;
use std::process::Abort;
use std::test::Fail;
use std::thread::Threads;

const USAGE: &str =
    "usage: plural run --cores N [--order SEED] | serial | check | asm | dis | make SEED [--cores N] | verify\n";

const RUN: &[&str] = &["run", "--cores", "1"];

#[test]
fn other_words_leave_the_source_unread(rt: HostRuntime) -> Result<(), Fail> {
    let alloc = rt.alloc();
    let rows: [&[&str]; 3] = [&[], &["run", "--cores", "65"], &["make", "x"]];
    for command in rows {
        let source = MemSource::new(Vec::new(alloc), 1, [0].to_vec(alloc)?);
        let answer = answered_by(&rt, alloc, command, source, open_sink(alloc)?)?;
        assert_eq!(rt; answer.0, 2);
        assert_eq!(rt; answer.1.as_slice(), USAGE.as_bytes());
    }
    Ok(())
}

#[test]
fn an_input_that_is_too_long_is_refused(rt: HostRuntime) -> Result<(), Fail> {
    let alloc = rt.alloc();
    let bytes = vec![in alloc; b'#'; 16_777_217]?;
    let source = MemSource::new(bytes, 100_000_000, Vec::new(alloc));
    let answer = answered_by(&rt, alloc, RUN, source, open_sink(alloc)?)?;
    assert_eq!(rt; answer.0, 3);
    let text = b"fault: input longer than 16777216 bytes\n";
    assert_eq!(rt; answer.1.as_slice(), text.as_slice());
    Ok(())
}

/// A source of the smallest bundle with this most bytes a call, of which the call of this number fails.
fn failing_source(alloc: Global, piece: usize, call: u32) -> Result<MemSource, Fail>
    requires { 1 ≤ piece }
{
    let input = Vec::from_slice(alloc, SMALLEST.as_bytes())?;
    Ok(MemSource::new(input, piece, [call].to_vec(alloc)?))
}

#[test]
fn each_read_that_fails_answers_5_and_writes_nothing(rt: HostRuntime) -> Result<(), Fail> {
    let alloc = rt.alloc();
    // The last call finds the end.
    let calls = SMALLEST.len().div_ceil(16).min(1000) as u32;
    for call in 0..calls + 1 {
        let source = failing_source(alloc, 16, call)?;
        let answer = answered_by(&rt, alloc, RUN, source, open_sink(alloc)?)?;
        assert_eq!(rt; answer.0, 5);
        assert_eq!(rt; answer.1.len(), 0);
    }
    Ok(())
}

/// Lets each write of at most this many bytes fail in turn.
fn check_writes<R: Threads + Sync + Abort>(rt: &R, alloc: Global, piece: usize) -> Result<(), Fail>
    requires { 1 ≤ piece }
{
    let calls = SUM.len().div_ceil(piece).min(1000) as u32;
    for call in 0..calls {
        let source = failing_source(alloc, 1000, 1000)?;
        let sink = MemSink::new(alloc, 1000, piece, [call].to_vec(alloc)?);
        let answer = answered_by(rt, alloc, RUN, source, sink.ok().ok_or("a sink")?)?;
        assert_eq!(rt; answer.0, 6);
        assert_eq!(rt; answer.1.len().checked_div(piece), Some(call as usize));
        assert_eq!(rt; answer.1.len().checked_rem(piece), Some(0));
        assert!(rt; SUM.as_bytes().starts_with(answer.1.as_slice()));
    }
    Ok(())
}

#[test]
fn each_write_that_fails_answers_6_and_leaves_a_prefix(rt: HostRuntime) -> Result<(), Fail> {
    let alloc = rt.alloc();
    check_writes(&rt, alloc, 10)?;
    check_writes(&rt, alloc, 16)?;
    let source = failing_source(alloc, 1000, 1000)?;
    let sink = MemSink::new(alloc, 1000, 10, [1].to_vec(alloc)?);
    let answer = answered_by(&rt, alloc, RUN, source, sink.ok().ok_or("a sink")?)?;
    assert_eq!(rt; answer.0, 6);
    assert_eq!(rt; answer.1.as_slice(), b"log 1 core".as_slice());
    Ok(())
}

#[test]
fn a_made_bundle_has_no_clash(rt: HostRuntime) -> Result<(), Fail> {
    let alloc = rt.alloc();
    let made = answered(&rt, alloc, &["make", "1"], Vec::new(alloc))?;
    assert_eq!(rt; made.0, 0);
    let answer = answered(&rt, alloc, &["check"], made.1)?;
    assert_eq!(rt; answer.0, 0);
    assert_eq!(rt;
        answer.1.as_slice(),
        b"accepted: tasks 6 instances 1036\n".as_slice()
    );
    Ok(())
}
