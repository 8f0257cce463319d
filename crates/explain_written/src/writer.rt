// Text that is written.
use crate::names::Written;
use raml_syntax::Ty;
use simple_types::push_type;
use std::alloc::{AllocError, Global};
use std::fmt::Write;

/// How many expressions are written at most.
const MOST_NODES: u32 = 2000;

/// Whether more can be written.
#[derive(Clone, Copy, PartialEq, Eq, Debug)]
enum State {
    Going,
    TooLarge,
    NoMemory,
}

/// A text that is written until memory runs out or it becomes too large: that is kept, and told at its end.
#[derive(Drop)]
pub struct Writer {
    text: String,
    state: State,
    /// How many expressions may still be written.
    left: u32,
    /// The number that was last given to new names.
    number: u32,
}

impl Writer {
    /// An empty text, in which new names have numbers above this one.
    pub fn new(alloc: Global, number: u32) -> Writer {
        Writer {
            text: String::new(alloc),
            state: State::Going,
            left: MOST_NODES,
            number,
        }
    }

    /// Appends a text.
    pub fn push(&mut self, text: &str) {
        if self.text.push_str(text).is_err() {
            self.state = State::NoMemory;
        }
    }

    /// Begins a line with spaces.
    pub fn line(&mut self, indent: u32) {
        self.push("\n");
        for _ in 0..indent {
            self.push(" ");
        }
    }

    /// Appends a number that is not negative.
    pub fn push_count(&mut self, count: u64) {
        if write!(self.text, "{count}").is_err() {
            self.state = State::NoMemory;
        }
    }

    /// Appends a number; what is below 0 as a difference.
    pub fn push_number(&mut self, number: i64) {
        if number < 0 {
            self.push("(0 - ");
            self.push_count(number.unsigned_abs());
            self.push(")");
        } else {
            self.push_count(number.unsigned_abs());
        }
    }

    /// Appends a name, and its number. What ends in a digit or `_` has one more `_`, so that no two names look alike.
    pub fn push_name(&mut self, written: Written<'_>) {
        let name = written.name.text();
        self.push(name);
        if written.number > 0 {
            if ends_in_digit(name) {
                self.push("_");
            }
            self.push_count(u64::from(written.number));
        }
    }

    /// Appends a type.
    pub fn push_ty(&mut self, ty: &Ty) {
        if push_type(&mut self.text, ty).is_err() {
            self.state = State::NoMemory;
        }
    }

    /// Whether one more expression may be written.
    pub fn takes_one(&mut self) -> bool {
        if self.state != State::Going {
            return false;
        }
        if self.left == 0 {
            self.refuse();
            return false;
        }
        self.left -= 1;
        true
    }

    /// Writes nothing more, since the text is too large.
    pub fn refuse(&mut self) {
        if self.state == State::Going {
            self.state = State::TooLarge;
        }
    }

    /// A number that no name has.
    pub fn new_number(&mut self) -> u32 {
        self.number = self.number.saturating_add(1);
        self.number
    }

    /// Whether new names were given since this number was the last.
    pub fn has_new_since(&self, number: u32) -> bool {
        self.number > number
    }

    /// The text; None where it became too large.
    pub fn finish(self) -> Result<Option<String>, AllocError> {
        let Writer { text, state, .. } = self;
        match state {
            State::Going => Ok(Some(text)),
            State::TooLarge => Ok(None),
            State::NoMemory => Err(AllocError),
        }
    }
}

fn ends_in_digit(name: &str) -> bool {
    match name.as_bytes() {
        [] => false,
        [.., last] => last.is_ascii_digit() || *last == b'_',
    }
}
