//! Inputs at their limits, which are answered and don't run out of memory: 64 tasks with 16 dependencies and 8 regions
//! each, 65,536 instances, 65,536 words, 16,384 words of kernels with as many labels, and an output of 65,536 entries.
use crate::trial::answered_by;
use plural_bytes::{MemSink, MemSource};
use plural_image::hex;
use std::alloc::Global;
use std::test::*;
use std::thread::Threads;

/// A task of 1,024 instances, each of which writes a word of its own.
fn put_task(text: &mut Vec<u8>, alloc: Global, t: u32) -> Result<(), Fail> {
    let entry = t.saturating_mul(2);
    let base = t.saturating_mul(1024);
    let line = format!(in alloc; "task t{t} dup 1024 entry l{entry} budget 2\n")?;
    text.extend_from_slice(line.as_bytes())?;
    for earlier in t.saturating_sub(16)..t {
        let line = format!(in alloc; "after t{earlier} any\n")?;
        text.extend_from_slice(line.as_bytes())?;
    }
    let line = format!(in alloc; "write {base} 1 1\n")?;
    text.extend_from_slice(line.as_bytes())?;
    for _ in 0..7 {
        text.extend_from_slice(b"read 0 1 1\n")?;
    }
    Ok(())
}

/// Kernels of 16,384 words, each with a label.
fn kernels(alloc: Global) -> Result<Vec<u8>, Fail> {
    let mut text = Vec::new(alloc);
    for i in 0..8_192_u32 {
        let (first, second) = (i.saturating_mul(2), i.saturating_mul(2).saturating_add(1));
        let lines = format!(in alloc; "l{first}: li x10, 0\nl{second}: ecall\n")?;
        text.extend_from_slice(lines.as_bytes())?;
    }
    Ok(text)
}

/// A bundle at each of its limits.
fn bundle(alloc: Global) -> Result<Vec<u8>, Fail> {
    let mut text = Vec::from_slice(alloc, b"plural 1\n[map]\nmemory 65536\ncache 64 4\n")?;
    for t in 0..64 {
        put_task(&mut text, alloc, t)?;
    }
    text.extend_from_slice(b"[kernels]\n")?;
    text.extend_from_slice(&kernels(alloc)?)?;
    text.extend_from_slice(b"[image]\n")?;
    for row in 0..8_192_u32 {
        text.extend_from_slice(&hex(row.saturating_mul(8)))?;
        text.push(b':')?;
        for _ in 0..8 {
            text.extend_from_slice(b" 00000001")?;
        }
        text.push(b'\n')?;
    }
    text.extend_from_slice(b"[end]\n")?;
    Ok(text)
}

/// The status and the text that the program answers to a long input.
fn answered<R: Threads + Sync>(
    rt: &R,
    alloc: Global,
    command: &[&str],
    input: Vec<u8>,
) -> Result<(u8, Vec<u8>), Fail> {
    let source = MemSource::new(input, 100_000, Vec::new(alloc));
    let sink = MemSink::new(alloc, 10_000_000, 100_000, Vec::new(alloc));
    answered_by(rt, alloc, command, source, sink.ok().ok_or("a sink")?)
}

#[test]
fn a_bundle_at_its_limits_is_run_and_its_log_is_legal(rt: HostRuntime) -> Result<(), Fail> {
    let mut input = bundle(rt.alloc())?;
    let copy = Vec::from_slice(rt.alloc(), &input)?;
    let (status, output) = answered(&rt, rt.alloc(), &["run", "--cores", "1"], copy)?;
    assert_eq!(rt; status, 0);
    input.extend_from_slice(&output)?;
    let (status, text) = answered(&rt, rt.alloc(), &["verify"], input)?;
    assert_eq!(rt; status, 0);
    assert_eq!(rt; text.as_slice(), b"legal: entries 65536\n".as_slice());
    Ok(())
}

#[test]
fn the_longest_kernels_are_assembled_and_disassembled(rt: HostRuntime) -> Result<(), Fail> {
    let (status, words) = answered(&rt, rt.alloc(), &["asm"], kernels(rt.alloc())?)?;
    assert_eq!(rt; (status, words.len()), (0, 147_456));
    let (status, lines) = answered(&rt, rt.alloc(), &["dis"], words)?;
    assert_eq!(rt;
        (status, lines.starts_with(b"addi x10, x0, 0\necall\n")),
        (0, true)
    );
    Ok(())
}
