//! The program `tests_rows`, for tests: with two words, which name a source and a certificate of its analysis, the
//! rows of each task that was tried.
#![tactic(auto)]

mod prices;
mod read;
mod refusal;
mod tasks;
mod text;

use crate::read::{read_certificate, read_source};
use crate::refusal::Refusal;
use crate::tasks::rows_of;
use std::env;
use std::process::ExitCode;

fn main(rt: HostRuntime) -> ExitCode {
    match run(&rt) {
        Ok(()) => ExitCode::SUCCESS,
        Err(refusal) => {
            let _ = rt.eprintln(refusal.text());
            ExitCode::FAILURE
        }
    }
}

// Takes the words from the runtime, and prints what they ask for. Without words nothing is asked for, as in the gate.
fn run(rt: &HostRuntime) -> Result<(), Refusal> {
    let args: Vec<String> = env::args(rt)?.skip(1).collect(rt.alloc())?;
    let text = match args.as_slice() {
        [] => String::new(rt.alloc()),
        [source, certificate] => rows_in(rt, source, certificate)?,
        _ => return Err(Refusal::Words),
    };
    rt.print(text.as_str())?;
    Ok(())
}

// The rows of the tasks of a certificate, where these are the names of the files.
fn rows_in(rt: &HostRuntime, source: &str, certificate: &str) -> Result<String, Refusal> {
    let typed = read_source(rt, source)?;
    let certificate = read_certificate(rt, certificate)?;
    rows_of(rt.alloc(), &typed, &certificate)
}
