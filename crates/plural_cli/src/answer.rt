//! An answer of a command, and the line that tells a fault.

ghost use Rattle.std.specs.Prelude.{◌≡◌, None, IfOk};
ghost use Rattle.plural_cli.specs.FaultLine.{fault_text};

use plural_bytes::Memory;
use plural_finished::Finished;
use std::alloc::Global;

/// A status, and the text that is written with it.
#[derive(Drop)]
pub(crate) struct Answer {
    pub status: u8,
    pub text: Vec<u8>,
}

/// An answer, and the machine that it comes from, if it comes from one.
#[derive(Drop)]
pub(crate) struct Reply {
    pub answer: Answer,
    pub machine: Option<Finished>,
}

/// An answer that comes from no machine.
pub(crate) fn alone(answer: Answer) -> Reply
    ensures answer { result.answer ≡ answer }
    ensures machine { result.machine ≡ None }
{
    Reply {
        answer,
        machine: None,
    }
}

/// A line, as an answer of status 3.
pub(crate) fn refused(alloc: Global, line: &[u8]) -> Result<Answer, Memory>
    ensures status { IfOk result (λ a. a.status ≡ 3) }
    ensures text { IfOk result (λ a. a.text.items ≡ line.now) }
{
    Ok(Answer {
        status: 3,
        text: Vec::from_slice(alloc, line)?,
    })
}

/// The answer that tells a fault of the line of this number by its word: status 3 and one line.
pub(crate) fn fault_answer(alloc: Global, line: u32, word: &[u8]) -> Result<Answer, Memory>
    ensures { IfOk result (λ a. (a.status ≡ 3) × (a.text.items ≡ fault_text line word.now)) }
{
    let number = line.to_string(alloc)?;
    let mut text = Vec::new(alloc);
    text.extend_from_slice(b"fault: line ")?;
    text.extend_from_slice(number.as_bytes())?;
    text.extend_from_slice(b": ")?;
    text.extend_from_slice(word)?;
    text.push(b'\n')?;
    Ok(Answer { status: 3, text })
}
