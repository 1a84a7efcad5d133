//! What the tests share: one call of the program, and the map or the bundle that a text spells.
ghost use Rattle.std.specs.Prelude.{◌≡◌, ◌≤◌, [], length, IfOk};
ghost use Rattle.plural_rule.specs.Stages.{outs_of};
ghost use Rattle.plural_words.specs.Seen.{IsRootOf};

use plural_bundle::{Bundle, read_bundle};
use plural_bytes::{MemSink, MemSource, Name, split};
use plural_cli::{Gate, OpenGate, plural};
use plural_crew::check;
use plural_finished::Finished;
use plural_map::Map;
use plural_map_text::parse;
use plural_reach::{needs, reach};
use plural_words::{Root, Words};
use std::alloc::Global;
use std::test::Fail;
use std::thread::Threads;

/// The smallest bundle with a whole path: loads words 0 and 1, and stores their sum into word 2.
pub(crate) const SMALLEST: &str = "plural 1\n[map]\nmemory 8\ncache 1 1\n\
    task add regular entry start budget 100\nread 0 0 2\nwrite 2 0 1\n\
    [kernels]\nstart: lw x5, 0(x0)\nlw x6, 4(x0)\nadd x7, x5, x6\nsw x7, 8(x0)\necall\n\
    [image]\n00000000: 00000007 00000023\n[end]\n";

/// What `serial` and `run --cores 1` answer to the smallest bundle.
pub(crate) const SUM: &str = "log 1 cores 1\ntask add ended 0\n\
    run add 0 code 0 n 5 loads 2 misses 1 stores 1 core 0 from 0 to 1\n\
    [image]\n00000000: 00000007 00000023 0000002a 00000000 00000000 00000000 00000000 00000000\n[end]\n";

/// What a call of the program left: its status, its text, and the machine that it kept.
#[derive(Drop)]
pub(crate) struct Called {
    pub(crate) status: u8,
    pub(crate) text: Vec<u8>,
    pub(crate) kept: Option<Finished>,
}

/// What the program leaves over this source, this sink and this gate.
pub(crate) fn call_over<R: Threads + Sync, G: Gate + Sync>(
    rt: &R,
    alloc: Global,
    command: &[&str],
    mut source: MemSource,
    mut sink: MemSink,
    gate: &G,
) -> Result<Called, Fail> {
    let mut words = Vec::new(alloc);
    for word in command {
        words.push(String::from_str(alloc, word)?)?;
    }
    let mut kept = None;
    let status = plural(rt, alloc, &words, &mut source, &mut sink, gate, &mut kept);
    let text = Vec::from_slice(alloc, sink.bytes())?;
    Ok(Called { status, text, kept })
}

/// What the program leaves of an input under this gate, if nothing outside fails.
pub(crate) fn call<R: Threads + Sync, G: Gate + Sync>(
    rt: &R,
    alloc: Global,
    command: &[&str],
    input: &[u8],
    gate: &G,
) -> Result<Called, Fail> {
    let bytes = Vec::from_slice(alloc, input)?;
    let source = MemSource::new(bytes, 1000, Vec::new(alloc));
    call_over(rt, alloc, command, source, open_sink(alloc)?, gate)
}

/// The status and the text that the program answers over this source and this sink.
pub(crate) fn answered_by<R: Threads + Sync>(
    rt: &R,
    alloc: Global,
    command: &[&str],
    source: MemSource,
    sink: MemSink,
) -> Result<(u8, Vec<u8>), Fail> {
    let Called { status, text, .. } = call_over(rt, alloc, command, source, sink, &OpenGate)?;
    Ok((status, text))
}

/// A sink without a fault.
pub(crate) fn open_sink(alloc: Global) -> Result<MemSink, Fail> {
    let sink = MemSink::new(alloc, 1_000_000, 10_000, Vec::new(alloc));
    Ok(sink.ok().ok_or("a sink")?)
}

/// The status and the text that the program answers to an input, if nothing outside fails.
pub(crate) fn answered<R: Threads + Sync>(
    rt: &R,
    alloc: Global,
    command: &[&str],
    input: Vec<u8>,
) -> Result<(u8, Vec<u8>), Fail> {
    let source = MemSource::new(input, 1000, Vec::new(alloc));
    answered_by(rt, alloc, command, source, open_sink(alloc)?)
}

/// The map that these lines spell, whose entries are all `e`.
pub(crate) fn map_of(alloc: Global, text: &[u8]) -> Result<Map, Fail> {
    if text.len() > 10_000 {
        return Err("too long".into());
    }
    let lines = split(alloc, text).ok().ok_or("lines")?;
    let labels = [Name::of(b"e").ok_or("a name")?];
    Ok(parse(alloc, &lines, &labels, 999, 1).ok().ok_or("a map")?)
}

/// The bundle that a text spells.
pub(crate) fn bundle_of(alloc: Global, text: &str) -> Result<Bundle, Fail>
    ensures { IfOk result (λ b. length b.image ≡ b.program.map.words) }
{
    if text.len() > 10_000 {
        return Err("too long".into());
    }
    let lines = split(alloc, text.as_bytes()).ok().ok_or("lines")?;
    match read_bundle(alloc, &lines, &lines, 0) {
        Ok(bundle) => Ok(bundle),
        Err(_) => Err("a bundle".into()),
    }
}

/// The shared words of a bundle for so many cores, and their root.
pub(crate) fn words_of(alloc: Global, bundle: &Bundle, cores: u32) -> Result<(Words, Root), Fail>
    requires words { length bundle.now.image ≡ bundle.now.program.map.words }
    requires cores { (1 ≤ cores) × (cores ≤ 64) }
    ensures program { IfOk result (λ r. r.0.opening.program ≡ bundle.now.program) }
    ensures cores { IfOk result (λ r. r.0.opening.cores ≡ cores) }
    ensures of { IfOk result (λ r. IsRootOf r.0 r.1) }
    ensures alone { IfOk result (λ r. outs_of r.1.view.role ≡ []) }
{
    let program = &bundle.program;
    let map = program.map();
    let (reach, needs) = (reach(map), needs(map));
    match check(map, &reach, &needs) {
        Ok(accepted) => Ok(Words::open(alloc, program, &accepted, &bundle.image, cores)?),
        Err(_) => Err("a clash".into()),
    }
}
