// What somebody who waits is shown.
use explain_reasons::Progress;
use raml_io::{Sink, put_all};
use std::alloc::Global;

/// As many spaces as the longest line has characters: a program has at most 256 groups.
const ERASED: &str = "\r                          \r";

/// A line on a terminal that tells how far a long call has come. At the end it is erased, so that what comes then begins in
/// the first column.
#[derive(Drop)]
pub struct Waiting<E: Sink + Drop> {
    alloc: Global,
    err: E,
    is_terminal: bool,
    /// How many groups are told to be done, where the line is there.
    shown: Option<u32>,
}

impl<E: Sink + Drop> Waiting<E> {
    /// The line on this sink; none where that is no terminal.
    pub fn new(alloc: Global, err: E, is_terminal: bool) -> Waiting<E> {
        Waiting {
            alloc,
            err,
            is_terminal,
            shown: None,
        }
    }

    fn show(&mut self, done: u32, all: u32) {
        if self.shown == Some(done) {
            return;
        }
        if let Ok(line) = format!(in self.alloc; "\rexplain: {done} of {all} groups") {
            let _ = put_all(&mut self.err, line.as_bytes());
            self.shown = Some(done);
        }
    }

    fn erase(&mut self) {
        if self.shown.is_some() {
            let _ = put_all(&mut self.err, ERASED.as_bytes());
            self.shown = None;
        }
    }
}

impl<E: Sink + Drop> Progress for Waiting<E> {
    fn tells(&mut self, done: u32, all: u32) {
        if !self.is_terminal {
            return;
        }
        if done < all {
            self.show(done, all);
        } else {
            self.erase();
        }
    }
}
