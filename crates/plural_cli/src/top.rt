ghost use Rattle.std.specs.Prelude.{◌≡◌, ◌≢◌, ◌≤◌, ◌⊎◌, ℕ, None};
ghost use Rattle.std.specs.Io.KnownBytes.{IsAtEnd};
ghost use Rattle.plural_bytes.specs.Causes.{Rose};
ghost use Rattle.plural_cli.specs.declared.command.Request.{Request};
ghost use Rattle.plural_cli.specs.Command.{IsCoreCount, FitsRequest};
ghost use Rattle.plural_cli.specs.Made.{made_bytes};
ghost use Rattle.plural_cli.specs.Texts.{usage_text};
ghost use Rattle.plural_cli.specs.Output.{Asks, AsksToMake, AsksToRunMade, AsksNothing, Writes, WritesAnswer, WritesMadeRun, AnswersRequest, MakesBundle, RunsMade, IsOfWhole, ReadsToEnd, ReadsFaulty};

use crate::answer::Reply;
use crate::command::{Command, Request, command_of};
use crate::input::{Missing, read_answer};
use crate::made_run::made_run_answer;
use crate::making::made;
use plural_bytes::{Sink, Source, write_all};
use plural_cores::Gate;
use plural_finished::Finished;
use std::alloc::Global;
use std::thread::Threads;

const USAGE: &[u8; 105] =
    b"usage: plural run --cores N [--order SEED] | serial | check | asm | dis | make SEED [--cores N] | verify\n";

/// Writes a text, and answers the status that it belongs to, or 6.
fn finish<K: Sink>(sink: &mut K, status: u8, text: &[u8]) -> u8
    requires { status ≢ 6 }
    ensures text { Writes status text.now result (K.holds sink.old) (K.holds sink.new) }
    ensures fault { result ≡ 6 → Rose (K.faults sink.old) (K.faults sink.new) }
{
    match write_all(sink, text) {
        Ok(()) => status,
        Err(_) => 6,
    }
}

/// Writes the text of a reply, and keeps its machine if the call ends with status 0 or 1.
fn tell<K: Sink>(sink: &mut K, reply: Reply, kept: &mut Option<Finished>) -> u8
    requires status { reply.answer.status ≢ 6 }
    requires empty { kept.old ≡ None }
    ensures text { Writes reply.answer.status reply.answer.text.items result (K.holds sink.old) (K.holds sink.new) }
    ensures fault { result ≡ 6 → Rose (K.faults sink.old) (K.faults sink.new) }
    ensures kept { result ≤ 1 → kept.new ≡ reply.machine }
    ensures unkept { 2 ≤ result → kept.new ≡ None }
{
    let Reply { answer, machine } = reply;
    let status = finish(sink, answer.status, &answer.text);
    if status <= 1 {
        *kept = machine;
    }
    status
}

/// Reads the source, answers the request on what it holds, and writes the answer. Keeps the machine that the answer
/// comes from, if it comes from one and its text is written.
fn obey<R: Threads + Sync, S: Source, K: Sink, G: Gate + Sync>(
    rt: &R,
    alloc: Global,
    request: Request,
    source: &mut S,
    sink: &mut K,
    gate: &G,
    kept: &mut Option<Finished>,
) -> u8
    requires fits { FitsRequest request }
    requires empty { kept.old ≡ None }
    ensures answer { result ≢ 5 → result ≢ 7
        → WritesAnswer request (S.left source.old) result (K.holds sink.old) (K.holds sink.new) kept.new }
    ensures unkept { 2 ≤ result → kept.new ≡ None }
    ensures end { IsOfWhole result → IsAtEnd (S.left source.new) }
    ensures faulty_end { result ≡ 3 → ReadsToEnd request (S.left source.old) (S.left source.new) }
    ensures words { result ≢ 2 }
    ensures read { result ≡ 5 → Rose (S.faults source.old) (S.faults source.new) }
    ensures write { result ≡ 6 → Rose (K.faults sink.old) (K.faults sink.new) }
    ensures unwritten { (result ≡ 5) ⊎ (result ≡ 7) → sink.new ≡ sink.old }
{
    match read_answer(rt, alloc, request, source, gate) {
        Err(Missing::Input) => 5,
        Err(Missing::Memory) => 7,
        Ok(reply) => tell(sink, reply, kept),
    }
}

/// Makes the bundle of a seed, and writes it.
fn make_bundle<K: Sink>(alloc: Global, seed: u64, sink: &mut K) -> u8
    ensures statuses { (result ≡ 0) ⊎ (result ≡ 6) ⊎ (result ≡ 7) }
    ensures made { result ≢ 7 → Writes 0 (made_bytes seed) result (K.holds sink.old) (K.holds sink.new) }
    ensures write { result ≡ 6 → Rose (K.faults sink.old) (K.faults sink.new) }
    ensures unwritten { result ≡ 7 → sink.new ≡ sink.old }
{
    match made(alloc, seed) {
        Err(_) => 7,
        Ok(text) => finish(sink, 0, &text),
    }
}

/// Makes the bundle of a seed and runs it on so many cores, and writes the line of the run. Keeps the machine that ran
/// it, if the line is written.
fn run_made<R: Threads + Sync, K: Sink, G: Gate + Sync>(
    rt: &R,
    alloc: Global,
    seed: u64,
    cores: u32,
    sink: &mut K,
    gate: &G,
    kept: &mut Option<Finished>,
) -> u8
    requires cores { IsCoreCount cores }
    requires empty { kept.old ≡ None }
    ensures statuses { (result ≤ 1) ⊎ (result ≡ 6) ⊎ (result ≡ 7) }
    ensures made { result ≢ 7 → WritesMadeRun seed cores result (K.holds sink.old) (K.holds sink.new) kept.new }
    ensures write { result ≡ 6 → Rose (K.faults sink.old) (K.faults sink.new) }
    ensures unwritten { result ≡ 7 → sink.new ≡ sink.old }
    ensures unkept { 2 ≤ result → kept.new ≡ None }
{
    match made_run_answer(rt, alloc, seed, cores, gate) {
        Err(_) => 7,
        Ok(reply) => tell(sink, reply, kept),
    }
}

/// The program: reads the words of a command line (those after the program's name), reads the source if the command
/// has an input, and writes the answer to the sink. The result is the status that the process ends with.
///
/// All text is made before the first write, so the sink is untouched when memory runs out. If the words name no
/// command, no memory is taken.
///
/// `kept` is empty. A run leaves its finished machine there if the status is 0 or 1: the text comes from it.
pub fn plural<R: Threads + Sync, S: Source, K: Sink, G: Gate + Sync>(
    rt: &R,
    alloc: Global,
    words: &[String],
    source: &mut S,
    sink: &mut K,
    gate: &G,
    kept: &mut Option<Finished>,
) -> u8
    requires empty { kept.old ≡ None }

    // A request: the status and the whole text of its answer to what the source held; or 6 and a prefix of this text.
    // If the source doesn't tell what it holds, there are bytes of which this is the answer. Of `run` with status 0 or
    // 1 the machine is kept whose log and image the text spells.
    ensures answer { AnswersRequest words.now (S.left source.old) result
        (K.holds sink.old) (K.holds sink.new) kept.new }
    ensures end { (r : Request) → Asks words.now r → IsOfWhole result → IsAtEnd (S.left source.new) }
    ensures faulty_end { ReadsFaulty words.now result (S.left source.old) (S.left source.new) }

    // `make SEED`: status 0 and the bundle of the seed; or 7, out of memory; or 6 and a prefix of the bundle.
    ensures made { MakesBundle words.now result (K.holds sink.old) (K.holds sink.new) }
    ensures made_unread { (seed : ℕ) → AsksToMake words.now seed → source.new ≡ source.old }
    ensures made_unkept { (seed : ℕ) → AsksToMake words.now seed → kept.new ≡ None }

    // `make SEED --cores N`: the line of the run, with status 1 if a task is failed and else 0; or 7, out of memory;
    // or 6 and a prefix of the line. With status 0 or 1 a machine of N cores is kept that ran the bundle of the seed.
    ensures ran { RunsMade words.now result (K.holds sink.old) (K.holds sink.new) kept.new }
    ensures ran_unread { (seed cores : ℕ) → AsksToRunMade words.now seed cores → source.new ≡ source.old }

    // Words that name no command: status 2 and the usage line, or 6 and a prefix of it. The source is as it was.
    ensures usage { AsksNothing words.now → Writes 2 usage_text result (K.holds sink.old) (K.holds sink.new) }
    ensures unread { AsksNothing words.now → source.new ≡ source.old }
    ensures usage_only { result ≡ 2 → AsksNothing words.now }

    // The causes of the other statuses. Nothing is kept but with status 0 or 1.
    ensures read { result ≡ 5 → Rose (S.faults source.old) (S.faults source.new) }
    ensures write { result ≡ 6 → Rose (K.faults sink.old) (K.faults sink.new) }
    ensures unwritten { (result ≡ 5) ⊎ (result ≡ 7) → sink.new ≡ sink.old }
    ensures unkept { 2 ≤ result → kept.new ≡ None }
{
    match command_of(words) {
        None => finish(sink, 2, USAGE),
        Some(Command::Make { seed }) => make_bundle(alloc, seed, sink),
        Some(Command::RunMade { seed, cores }) => run_made(
            rt, alloc, seed, cores, sink, gate, kept,
        ),
        Some(Command::Read(request)) => obey(rt, alloc, request, source, sink, gate, kept),
    }
}
