//! The command `verify`: a bundle and the output of a run in, whether its log is legal out.

ghost use Rattle.std.specs.Prelude.{◌≡◌, ◌<◌, ◌≤◌, length, IfOk};
ghost use Rattle.plural_bytes.specs.Spelled.{text_lines};
ghost use Rattle.plural_cli.specs.Output.{IsTold};
ghost use Rattle.plural_cli.specs.Verify.{verdict_status, verdict_text, IsJudged, IsVerdictOn, IsOutputAnswer, IsJointAnswer, IsVerifyAnswer};

use crate::answer::Answer;
use crate::checking::clash_answer;
use crate::reading::{Reading, bundle_fault, read_lines};
use plural_bundle::{Bundle, BundleError};
use plural_bytes::{Line, Memory, line_count, split};
use plural_output::{Output, read_output, split_parts};
use plural_trace::{Verdict, legal};
use std::alloc::Global;

/// The status of a verdict.
fn verdict_status(verdict: Verdict) -> u8
    ensures { result ≡ verdict_status verdict }
{
    match verdict {
        Verdict::Yes => 0,
        Verdict::No { .. } => 8,
    }
}

/// The line of a verdict on a log of so many entries.
fn verdict_line(alloc: Global, entries: usize, verdict: Verdict) -> Result<Vec<u8>, Memory>
    ensures { IfOk result (λ v. v.items ≡ verdict_text entries verdict) }
{
    let mut text = Vec::new(alloc);
    match verdict {
        Verdict::Yes => {
            text.extend_from_slice(b"legal: entries ")?;
            text.extend_from_slice(entries.to_string(alloc)?.as_bytes())?;
        }
        Verdict::No { rule, at } => {
            text.extend_from_slice(b"not legal: rule ")?;
            text.extend_from_slice(rule.to_string(alloc)?.as_bytes())?;
            text.extend_from_slice(b" at ")?;
            text.extend_from_slice(at.to_string(alloc)?.as_bytes())?;
        }
    }
    text.push(b'\n')?;
    Ok(text)
}

/// The answer that tells whether the log of an output is legal.
fn judged(alloc: Global, bundle: &Bundle, output: &Output) -> Result<Answer, Memory>
    requires start { length bundle.now.image ≡ bundle.now.program.map.words }
    requires last { length output.now.image ≡ bundle.now.program.map.words }
    requires one_each { length output.now.log.outcomes ≡ length bundle.now.program.map.tasks }
    requires few { length output.now.log.entries ≤ 65536 }
    ensures answer { IfOk result (λ a. IsJudged bundle.now output.now a.status a.text.items) }
    ensures told { IfOk result (λ a. IsTold a.status) }
{
    let verdict = legal(
        alloc,
        &bundle.program,
        &bundle.image,
        &output.log,
        &output.image,
    )?;
    Ok(Answer {
        status: verdict_status(verdict),
        text: verdict_line(alloc, output.log.entries().len(), verdict)?,
    })
}

/// Judges the output of a run of a map without a clash, and tells the first clash of another.
fn checked_and_judged(alloc: Global, bundle: &Bundle, output: &Output) -> Result<Answer, Memory>
    requires start { length bundle.now.image ≡ bundle.now.program.map.words }
    requires last { length output.now.image ≡ bundle.now.program.map.words }
    requires one_each { length output.now.log.outcomes ≡ length bundle.now.program.map.tasks }
    requires few { length output.now.log.entries ≤ 65536 }
    ensures answer { IfOk result (λ a. IsVerdictOn bundle.now output.now a.status a.text.items) }
    ensures told { IfOk result (λ a. IsTold a.status) }
{
    match clash_answer(alloc, bundle.program.map())? {
        Some(answer) => Ok(answer),
        None => judged(alloc, bundle, output),
    }
}

/// The answer to the lines of an output after its bundle. `end` is the number of the line after the last.
fn output_answer(
    alloc: Global,
    bundle: &Bundle,
    lines: &[Line<'_>],
    end: u32,
) -> Result<Answer, Memory>
    requires start { length bundle.now.image ≡ bundle.now.program.map.words }
    ensures answer { IfOk result (λ a. IsOutputAnswer bundle.now (text_lines lines.now) end a.status a.text.items) }
    ensures told { IfOk result (λ a. IsTold a.status) }
{
    match read_output(alloc, bundle.program.map(), lines, end) {
        Ok(output) => checked_and_judged(alloc, bundle, &output),
        Err(BundleError::At { line, kind }) => bundle_fault(alloc, line, kind),
        Err(BundleError::Memory) => Err(Memory),
    }
}

/// The answer to content lines. `end` is the number of the line after the last.
fn joint_answer(alloc: Global, lines: &[Line<'_>], end: u32) -> Result<Answer, Memory>
    ensures answer { IfOk result (λ a. IsJointAnswer (text_lines lines.now) end a.status a.text.items) }
    ensures told { IfOk result (λ a. IsTold a.status) }
{
    let parts = split_parts(lines);
    match read_lines(alloc, lines, parts.bundle, end)? {
        Reading::Faulty(answer) => Ok(answer),
        Reading::Whole(bundle) => output_answer(alloc, &bundle, parts.output, end),
    }
}

/// The answer of `verify` to an input that is not too long.
pub(crate) fn verify_answer(alloc: Global, bytes: &[u8]) -> Result<Answer, Memory>
    requires { length bytes.now ≤ 67108864 }
    ensures answer { IfOk result (λ a. IsVerifyAnswer bytes.now a.status a.text.items) }
    ensures told { IfOk result (λ a. IsTold a.status) }
{
    let lines = split(alloc, bytes)?;
    joint_answer(alloc, &lines, line_count(bytes) + 1)
}
