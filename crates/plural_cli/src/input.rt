ghost use Rattle.std.specs.Prelude.{◌≡◌, ◌≢◌, ◌≤◌, length, IfOk};
ghost use Rattle.std.specs.Result.{IsErrOf};
ghost use Rattle.std.specs.Io.KnownBytes.{IsAtEnd};
ghost use Rattle.plural_bytes.specs.Causes.{Rose};
ghost use Rattle.plural_cli.specs.Command.{FitsRequest};
ghost use Rattle.plural_cli.specs.Kept.{IsKept};
ghost use Rattle.plural_cli.specs.Output.{limit_of, too_long_of, Answers, AnswersWith, ReadsToEnd, IsTold};

use crate::answer::{Reply, alone, refused};
use crate::assembling::asm_answer;
use crate::checking::check_answer;
use crate::command::Request;
use crate::disassembling::dis_answer;
use crate::on_cores::run_answer;
use crate::running::serial_answer;
use crate::verifying::verify_answer;
use plural_bytes::{Memory, ReadError, Source, read_all};
use plural_cores::Gate;
use std::alloc::Global;
use std::thread::Threads;

/// The line of an input that is too long.
const TOO_LONG: &[u8; 40] = b"fault: input longer than 16777216 bytes\n";

/// The line of an input of `verify` that is too long.
const VERIFY_TOO_LONG: &[u8; 40] = b"fault: input longer than 67108864 bytes\n";

/// The most bytes that an input may have.
fn limit_of(request: Request) -> u32
    ensures value { result ≡ limit_of request }
    ensures small { result ≤ 67108864 }
{
    match request {
        Request::Run { .. } | Request::Serial | Request::Check | Request::Asm | Request::Dis =>
            16_777_216,
        Request::Verify => 67_108_864,
    }
}

/// The line for an input that is too long.
fn too_long_of(request: Request) -> &'static [u8]
    ensures { result.now ≡ too_long_of request }
{
    match request {
        Request::Run { .. } | Request::Serial | Request::Check | Request::Asm | Request::Dis =>
            TOO_LONG,
        Request::Verify => VERIFY_TOO_LONG,
    }
}

/// Why there is no answer.
#[derive(Clone, Copy, Debug, PartialEq, Eq)]
pub(crate) enum Missing {
    /// The source failed.
    Input,
    /// Memory ran out.
    Memory,
}

/// What the request answers to an input that is not too long.
fn answer_to<R: Threads + Sync, G: Gate + Sync>(
    rt: &R,
    alloc: Global,
    request: Request,
    bytes: &[u8],
    gate: &G,
) -> Result<Reply, Memory>
    requires fits { FitsRequest request }
    requires short { length bytes.now ≤ limit_of request }
    ensures answer { IfOk result (λ r. Answers request bytes.now r.answer.status r.answer.text.items) }
    ensures machine { IfOk result (λ r. IsKept request bytes.now r.answer.status r.answer.text.items r.machine) }
    ensures told { IfOk result (λ r. IsTold r.answer.status) }
{
    match request {
        Request::Run { cores, order } => run_answer(rt, alloc, bytes, cores, order, gate),
        Request::Serial => Ok(alone(serial_answer(alloc, bytes)?)),
        Request::Check => Ok(alone(check_answer(alloc, bytes)?)),
        Request::Asm => Ok(alone(asm_answer(alloc, bytes)?)),
        Request::Dis => Ok(alone(dis_answer(alloc, bytes)?)),
        Request::Verify => Ok(alone(verify_answer(alloc, bytes)?)),
    }
}

/// Reads the source, and answers the request on what it holds.
pub(crate) fn read_answer<R: Threads + Sync, S: Source, G: Gate + Sync>(
    rt: &R,
    alloc: Global,
    request: Request,
    source: &mut S,
    gate: &G,
) -> Result<Reply, Missing>
    requires { FitsRequest request }
    ensures answer { IfOk result (λ r.
        AnswersWith request (S.left source.old) r.answer.status r.answer.text.items r.machine) }
    ensures told { IfOk result (λ r. IsTold r.answer.status) }
    ensures end { IfOk result (λ r. r.answer.status ≢ 3 → IsAtEnd (S.left source.new)) }
    ensures short_end { IfOk result (λ _. ReadsToEnd request (S.left source.old) (S.left source.new)) }
    ensures fault { IsErrOf result Missing.Input → Rose (S.faults source.old) (S.faults source.new) }
{
    match read_all(alloc, source, limit_of(request)) {
        Err(ReadError::Fault) => Err(Missing::Input),
        Err(ReadError::Memory) => Err(Missing::Memory),
        Err(ReadError::TooLong) => match refused(alloc, too_long_of(request)) {
            Ok(line) => Ok(alone(line)),
            Err(_) => Err(Missing::Memory),
        },
        Ok(bytes) => match answer_to(rt, alloc, request, &bytes, gate) {
            Ok(reply) => Ok(reply),
            Err(_) => Err(Missing::Memory),
        },
    }
}
