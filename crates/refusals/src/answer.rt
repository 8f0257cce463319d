// What a call answers: a report, or a refusal.
ghost use Rattle.std.specs.Prelude.{◌≡◌, IfOk, IfErr, string_bytes};
ghost use Rattle.refusals.specs.Line.{line_of, Names};
ghost use Rattle.refusals.specs.Refusals.{line_text, IsToldOr, IsOf, IsWanting};
ghost use Rattle.refusals.specs.declared.status.Status.TheVariants.{Done};

use crate::status::Status;
use refusal_text::{
    Which, no_function_line, no_memory_line, too_long_line, unread_line, usage_line,
};
use std::alloc::AllocError;

/// A report, and how the call ends that writes it.
#[derive(Drop)]
pub struct Report {
    pub text: Vec<u8>,
    pub status: Status,
}

/// A line on err: always the same, or made of what is told.
#[derive(Drop)]
pub enum Line {
    Fixed(&'static str),
    Made(String),
}

/// How a call ends that writes no report, and the line that tells it.
#[derive(Drop)]
pub struct Refusal {
    pub status: Status,
    pub line: Line,
}

impl Line {
    /// Its text.
    pub fn text(&self) -> &str
        ensures { result.now ≡ line_text self.now }
    {
        match self {
            Line::Fixed(text) => *text,
            Line::Made(text) => text.as_str(),
        }
    }
}

impl Report {
    /// The report of a call that ends with `Done`.
    pub fn done(text: String) -> Report
        ensures text { result.text.items ≡ string_bytes text }
        ensures status { result.status ≡ Done }
    {
        Report {
            text: text.into_bytes(),
            status: Status::Done,
        }
    }
}

impl Refusal {
    /// Memory is wanting.
    pub fn no_memory() -> Refusal
        ensures { IsWanting result }
    {
        Refusal {
            status: Status::NoMemory,
            line: Line::Fixed(no_memory_line()),
        }
    }

    /// The words are refused.
    pub fn usage() -> Refusal
        ensures { (names : Names) → IsOf names Status.Usage result }
    {
        Refusal {
            status: Status::Usage,
            line: Line::Fixed(usage_line()),
        }
    }

    /// The file was not read.
    pub fn unread(which: Which) -> Refusal
        ensures { (names : Names) → IsOf names (Status.ReadFault which) result }
    {
        Refusal {
            status: Status::ReadFault { which },
            line: Line::Fixed(unread_line(which)),
        }
    }

    /// The file is too long.
    pub fn too_long(which: Which) -> Refusal
        ensures { (names : Names) → IsOf names (Status.TooLong which) result }
    {
        Refusal {
            status: Status::TooLong { which },
            line: Line::Fixed(too_long_line(which)),
        }
    }

    /// The program has no function of the name.
    pub fn no_function() -> Refusal
        ensures { (names : Names) → IsOf names Status.NoFunction result }
    {
        Refusal {
            status: Status::NoFunction,
            line: Line::Fixed(no_function_line()),
        }
    }

    /// What was told by a line that had to be made.
    pub fn told(status: Status, line: Result<String, AllocError>) -> Refusal
        ensures { (names : Names) → IfOk line (λ text. string_bytes text ≡ line_of names status) → IsToldOr names status result }
    {
        match line {
            Ok(text) => Refusal {
                status,
                line: Line::Made(text),
            },
            Err(_) => Refusal::no_memory(),
        }
    }
}

impl From<AllocError> for Refusal {
    ghost from_gives = { λ _ refusal. IsWanting refusal };

    fn from(_error: AllocError) -> Refusal {
        Refusal::no_memory()
    }
}
