//! Answers a job on standard input: `kaapi check`, `kaapi seq`, `kaapi sim W NUMBER`, `kaapi run W`. Writes a generated job: `kaapi gen KIND SIZE
//! NUMBER`. Runs one: `kaapi demo KIND SIZE NUMBER W`.
#![tactic(auto)]

mod asked;
mod crews;
mod demos;
mod exits;
mod jobs;
mod laws;
mod replies;
mod sending;
mod sources;
#[cfg(test)]
mod tests;
mod top;
mod totals;

use crate::exits::Exit;
use crate::top::top;
use kt_io::{StdSink, StdSource};
use kt_worker::NoGate;
use std::process::ExitCode;
use std::{env, io};

// The words after the program's name. Where they cannot be had, the status with which to end.
fn words_of(rt: &HostRuntime) -> Result<Vec<String>, u8> {
    let all = match env::args(rt) {
        Ok(all) => all,
        Err(error) if error.kind() == io::ErrorKind::OutOfMemory => return Err(
            Exit::NoMemory.code(),
        ),
        Err(_) => return Err(Exit::Usage.code()),
    };
    let mut words = Vec::new(rt.alloc());
    for word in all.skip(1) {
        if words.push(word).is_err() {
            return Err(Exit::NoMemory.code());
        }
    }
    Ok(words)
}

fn main(rt: HostRuntime) -> ExitCode {
    let status = match words_of(&rt) {
        Ok(words) => {
            let mut source = StdSource::new(rt.reader());
            let mut sink = StdSink::new(io::writer(&rt));
            let (exit, _) = top(&rt, rt.alloc(), &words, &mut source, &mut sink, &NoGate);
            exit.code()
        }
        Err(status) => status,
    };
    ExitCode::from(status)
}
