//! The program `explain`: what the words of the command line ask for, on the real files and streams.
#![tactic(auto)]

mod waiting;

use crate::waiting::Waiting;
use explain_files::DirShelf;
use explain_top::{Status, explain};
use raml_io::{DirStore, StdSink};
use std::io::IsTerminal;
use std::process::ExitCode;
use std::{env, io};

/// The status where the runtime refuses the words for another cause than want of memory, as where one
/// is no UTF-8.
const NO_WORDS: u8 = 71;

/// The columns of a terminal where it is not told how many it has.
const DEFAULT: u32 = 80;

/// The fewest columns to which lines are broken.
const LEAST: u32 = 20;

fn main(rt: HostRuntime) -> ExitCode {
    match run(&rt) {
        Ok(status) => ExitCode::from(status.code()),
        Err(error) if error.kind() == io::ErrorKind::OutOfMemory => {
            ExitCode::from(Status::NoMemory.code())
        }
        Err(_) => ExitCode::from(NO_WORDS),
    }
}

// Takes the words from the runtime, and does what they ask for.
fn run(rt: &HostRuntime) -> io::Result<Status> {
    let args: Vec<String> = env::args(rt)?.skip(1).collect(rt.alloc())?;
    let words: Vec<&str> = args.iter().map(|word| word.as_str()).collect(rt.alloc())?;
    let mut store = DirStore::new(rt);
    let mut shelf = DirShelf::new(rt);
    let mut input = rt.stdin();
    let mut out = StdSink::new(rt.stdout());
    let mut err = StdSink::new(rt.stderr());
    let mut waiting = Waiting::new(
        rt.alloc(),
        StdSink::new(rt.stderr()),
        rt.stderr().is_terminal(),
    );
    let columns = columns_of(rt);
    Ok(explain(
        rt.alloc(),
        &words,
        columns,
        &mut store,
        &mut shelf,
        &mut input,
        &mut waiting,
        &mut out,
        &mut err,
    ))
}

// How many columns lines may have: what `COLUMNS` says where that is a number of a terminal's columns, and else 80. None
// where standard output goes to no terminal.
fn columns_of(rt: &HostRuntime) -> Option<u32> {
    if !rt.stdout().is_terminal() {
        return None;
    }
    match env::var(rt, "COLUMNS") {
        Ok(text) => Some(
            text.parse::<u32>()
                .ok()
                .filter(|columns| *columns >= LEAST)
                .unwrap_or(DEFAULT),
        ),
        Err(_) => Some(DEFAULT),
    }
}
