//! The words of a command line.

ghost use Rattle.std.specs.Prelude.{◌≡◌, map, IfSome};
ghost use Rattle.std.specs.String.{string_bytes};

/// The order in which the cores of a machine take their steps.
#[derive(Clone, Copy, Debug, PartialEq, Eq)]
pub enum Order {
    /// Whatever order their threads run in.
    Threads,
    /// One thread, in which a generator of this seed draws the core that has the next turn.
    Drawn { seed: u64 },
}

/// A command that reads an input.
#[derive(Clone, Copy, Debug, PartialEq, Eq)]
pub enum Request {
    /// `run --cores N [--order SEED]`: runs a bundle on 1 to 64 cores.
    Run { cores: u32, order: Order },
    /// `serial`: runs a bundle as the serial machine does.
    Serial,
    /// `check`: looks for a clash in a bundle's map, and runs nothing.
    Check,
    /// `asm`: assembles kernel lines.
    Asm,
    /// `dis`: disassembles words.
    Dis,
    /// `verify`: judges the output of a run after its bundle.
    Verify,
}

/// What the words of a command line ask for.
#[derive(Clone, Copy, Debug, PartialEq, Eq)]
pub enum Command {
    /// An input is read and answered.
    Read(Request),
    /// `make SEED`: a bundle is made, and nothing is read.
    Make { seed: u64 },
    /// `make SEED --cores N`: a bundle is made and run on 1 to 64 cores, and nothing is read.
    RunMade { seed: u64, cores: u32 },
}

ghost use Rattle.plural_cli.specs.Given.{kept};
ghost use Rattle.plural_cli.specs.Command.{number_of, IsCoreCount, cores_of, drawn_by, request_of, run_with, make_with, name_alone, command_with, command_of, FitsRequest, FitsCommand};

use crate::arguments::{Given, arguments, is_word};
use plural_bytes::digits;

/// The greatest number that a word may spell.
const LARGEST: u64 = 18_446_744_073_709_551_615;

/// The number that 1 to 20 decimal digits spell.
fn number_of(word: &[u8]) -> Option<u64>
    ensures { result ≡ number_of word.now }
{
    if word.len() > 20 {
        return None;
    }
    digits(word, 10, LARGEST).ok()
}

/// The number of cores that a word spells, 1 to 64.
fn cores_of(word: &[u8]) -> Option<u32>
    ensures value { result ≡ cores_of word.now }
    ensures range { IfSome result IsCoreCount }
{
    match number_of(word) {
        Some(cores) if 1 <= cores && cores <= 64 => Some(cores as u32),
        _ => None,
    }
}

/// The order that the seed which a word spells draws.
fn drawn_by(word: &[u8]) -> Option<Order>
    ensures { result ≡ drawn_by word.now }
{
    match number_of(word) {
        Some(seed) => Some(Order::Drawn { seed }),
        None => None,
    }
}

/// `run`: no word of its own, a number of cores, and an order if one is asked for.
fn run_with(given: Given<'_>) -> Option<Command>
    ensures value { let a = kept given.entry in result ≡ run_with a.words a.cores a.order }
    ensures fits { IfSome result FitsCommand }
{
    let (cores, order) = match given {
        Given {
            word: None,
            cores: Some(value),
            order: None,
        } => (cores_of(value), Some(Order::Threads)),
        Given {
            word: None,
            cores: Some(value),
            order: Some(seed),
        } => (cores_of(value), drawn_by(seed)),
        _ => return None,
    };
    match (cores, order) {
        (Some(cores), Some(order)) => Some(Command::Read(Request::Run { cores, order })),
        _ => None,
    }
}

/// `make`: its seed, and a number of cores if what is made is to be run.
fn make_with(given: Given<'_>) -> Option<Command>
    ensures value { let a = kept given.entry in result ≡ make_with a.words a.cores a.order }
    ensures fits { IfSome result FitsCommand }
{
    match given {
        Given {
            word: Some(seed),
            cores: None,
            order: None,
        } => match number_of(seed) {
            Some(seed) => Some(Command::Make { seed }),
            None => None,
        },
        Given {
            word: Some(seed),
            cores: Some(value),
            order: None,
        } => match (number_of(seed), cores_of(value)) {
            (Some(seed), Some(cores)) => Some(Command::RunMade { seed, cores }),
            _ => None,
        },
        _ => None,
    }
}

/// The request that a command's name asks for.
fn request_of(name: &String) -> Option<Request>
    ensures value { result ≡ request_of (string_bytes name.now) }
    ensures fits { IfSome result FitsRequest }
{
    if is_word(name, "serial") {
        Some(Request::Serial)
    } else if is_word(name, "check") {
        Some(Request::Check)
    } else if is_word(name, "asm") {
        Some(Request::Asm)
    } else if is_word(name, "dis") {
        Some(Request::Dis)
    } else if is_word(name, "verify") {
        Some(Request::Verify)
    } else {
        None
    }
}

/// Each other command: its name alone.
fn name_alone(name: &String, given: Given<'_>) -> Option<Command>
    ensures value { let a = kept given.entry in result ≡ name_alone (string_bytes name.now) a.words a.cores a.order }
    ensures fits { IfSome result FitsCommand }
{
    match given {
        Given {
            word: None,
            cores: None,
            order: None,
        } => match request_of(name) {
            Some(request) => Some(Command::Read(request)),
            None => None,
        },
        _ => None,
    }
}

/// The command of a name with these arguments.
fn command_with(name: &String, given: Given<'_>) -> Option<Command>
    ensures value { result ≡ command_with (string_bytes name.now) (kept given.entry) }
    ensures fits { IfSome result FitsCommand }
{
    if is_word(name, "run") {
        run_with(given)
    } else if is_word(name, "make") {
        make_with(given)
    } else {
        name_alone(name, given)
    }
}

/// The command that the words ask for, if they ask for one. Takes no memory.
pub(crate) fn command_of(words: &[String]) -> Option<Command>
    ensures value { result ≡ command_of (map string_bytes words.now) }
    ensures fits { IfSome result FitsCommand }
{
    match words {
        [name, rest @ ..] => match arguments(rest) {
            Some(given) => command_with(name, given),
            None => None,
        },
        [] => None,
    }
}
