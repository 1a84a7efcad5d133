//! The program `plural`: the words of its command line, standard input and standard output, handed to the one call of
//! `plural_cli`, whose answer is the exit status.
#![tactic(auto)]

use plural_bytes::{StdSink, StdSource};
use plural_cli::{OpenGate, plural};
use std::process::ExitCode;
use std::rt::Env;
use std::{env, io};

/// The words of the command line after the program's name.
fn words(rt: &(impl Env + AllocGlobal)) -> io::Result<Vec<String>> {
    let mut words = env::args(rt)?;
    let _name = words.next();
    let words = words.collect(rt.alloc())?;
    Ok(words)
}

fn main(rt: HostRuntime) -> ExitCode {
    let words = match words(&rt) {
        Ok(words) => words,
        // A word that isn't UTF-8 is in no command, and neither are no words at all.
        Err(error) if error.kind() == io::ErrorKind::InvalidData => Vec::new(rt.alloc()),
        Err(_) => return ExitCode::from(7),
    };
    let mut source = StdSource::new(rt.stdin());
    let mut sink = StdSink::new(rt.stdout());
    let mut kept = None;
    let status = plural(
        &rt,
        rt.alloc(),
        &words,
        &mut source,
        &mut sink,
        &OpenGate,
        &mut kept,
    );
    ExitCode::from(status)
}
