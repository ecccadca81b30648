//! The program.
use crate::{
    CommandResult, Fault, FromRead, Order, SystemFiles, ToWrite, WordsFault, answer, order, status,
};
use std::env::Env;
use std::fmt::Display;
use std::io::ErrorKind;
use std::process::ExitCode;
use std::rt::Files;
use std::{env, io};

// The status of a bad command line.
const BAD: u8 = 2;

// The words after the program's name.
fn words<R: Env + AllocGlobal>(rt: &R) -> Result<Vec<String>, WordsFault> {
    match env::args(rt) {
        Ok(words) => Ok(words.skip(1).collect(rt.alloc())?),
        Err(error) if error.kind() == ErrorKind::OutOfMemory => Err(WordsFault::Memory),
        Err(_) => Err(WordsFault::Bad),
    }
}

// Does what the words order, on standard output. Each put is handed on at once: the commands put many lines at a time.
fn perform<R: Input + Print + Files + AllocGlobal>(rt: &R, order: &Order) -> CommandResult {
    let mut input = FromRead::new(rt.reader());
    let mut sink = ToWrite::new(io::writer(rt));
    let outcome = answer(
        rt.alloc(),
        &SystemFiles::new(rt),
        &mut input,
        order,
        &mut sink,
    );
    let flushed = sink.flush();
    let verdict = outcome?;
    flushed?;
    Ok(verdict)
}

// Says in one line why the program gave up, if it can.
fn complain<R: Eprint>(rt: &R, fault: impl Display + Drop) {
    let _ = eprintln!(rt; "j39plan: {fault}");
}

/// Runs the program: reads the words, does what they order and answers the exit status.
pub fn run_program<R: Env + Input + Print + Eprint + Files + AllocGlobal>(rt: &R) -> ExitCode {
    let outcome = match words(rt).and_then(|words| order(rt.alloc(), words)) {
        Ok(order) => perform(rt, &order),
        Err(WordsFault::Memory) => Err(Fault::Memory),
        Err(WordsFault::Bad) => {
            complain(rt, WordsFault::Bad);
            return ExitCode::from(BAD);
        }
    };
    if let Err(fault) = &outcome {
        complain(rt, *fault);
    }
    ExitCode::from(status(&outcome))
}
