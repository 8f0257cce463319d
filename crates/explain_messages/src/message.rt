// Messages.
ghost use Rattle.std.specs.Prelude.{◌≡◌, ℕ};

use crate::hint::Hint;
use std::marker::Model;

/// What is wrong at a place of a source, seen by contracts as the place.
#[derive(Debug, Drop)]
pub struct Message {
    at: usize,
    text: String,
    hint: Option<Hint>,
}

impl Model for Message {
    ghost Value = { ℕ };

    ghost view = { λ message. message.at };
}

impl Message {
    pub(crate) fn new(at: usize, text: String, hint: Option<Hint>) -> Message
        ensures { result ≡ at }
    {
        Message { at, text, hint }
    }

    /// The place: a number of bytes from the start of the source. At its end no byte stands there.
    pub fn at(&self) -> usize
        ensures { result ≡ self.now }
    {
        self.at
    }

    /// What is wrong: one line of ASCII.
    pub fn text(&self) -> &str {
        self.text.as_str()
    }

    /// What to write in its place, where the mistake is typical.
    pub fn hint(&self) -> Option<Hint> {
        self.hint
    }
}
