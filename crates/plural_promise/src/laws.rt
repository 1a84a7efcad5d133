//! Laws over the answers of the commands.

ghost use Rattle.plural_promise.specs.Agreement.{RunsAgree, SerialAgrees};
ghost use Rattle.plural_promise.specs.Answers.{AnswerIsOne};
ghost use Rattle.plural_promise.specs.Calls.{CallsAreWhole};
ghost use Rattle.plural_promise.specs.Outputs.{RunIsRead, SerialIsRead};
ghost use Rattle.plural_promise.specs.Verified.{RunIsLegal, SerialIsLegal};

/// The answer of a request to an input has one status, and one text unless it tells a run on cores.
pub fn answer_is_one()
    ensures { AnswerIsOne }
{}

/// What `run` answers to an input on different numbers of cores and in different orders has the same status, the
/// same last memory, the same outcomes, and the same records of instances.
pub fn runs_agree()
    ensures { RunsAgree }
{}

/// What `run` answers to an input, unless it tells a clash, has the status, the last memory, the outcomes and the
/// records of what `serial` answers.
pub fn serial_agrees()
    ensures { SerialAgrees }
{}

/// A call of `plural` during which nothing outside failed has its whole answer, unless memory ran out.
pub fn calls_are_whole()
    ensures { CallsAreWhole }
{}

/// What `serial` writes of a bundle is read again as the log and the last memory of its serial run.
pub fn serial_is_read()
    ensures { SerialIsRead }
{}

/// What `run` writes of a bundle is read again as a log of its cores and a last memory, which are legal.
pub fn run_is_read()
    ensures { RunIsRead }
{}

/// `verify` answers a bundle and what `run` wrote of it, on any number of cores, by `legal`.
pub fn run_is_legal()
    ensures { RunIsLegal }
{}

/// `verify` answers a bundle without a clash and what `serial` wrote of it by `legal`.
pub fn serial_output_is_legal()
    ensures { SerialIsLegal }
{}
