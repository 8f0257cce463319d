// Why no text is printed.
use std::alloc::AllocError;
use std::io;

/// Why no text is printed.
#[derive(Clone, Copy, Debug)]
pub enum Refusal {
    /// They are neither none nor two.
    Words,
    /// It can't be read, is too long, or is no typed program.
    Source,
    /// It can't be read, is too long, or is no certificate.
    Certificate,
    /// Of a task that is not of the program, or that has no system.
    Task,
    /// The words are no text, or the output could not be written.
    System,
    NoMemory,
}

impl Refusal {
    /// A line that tells it.
    pub fn text(self) -> &'static str {
        match self {
            Refusal::Words => "tests_rows [SOURCE CERTIFICATE]",
            Refusal::Source => "the source can't be read",
            Refusal::Certificate => "the certificate can't be read",
            Refusal::Task => "a task has no rows",
            Refusal::System => "the words are no text, or the output can't be written",
            Refusal::NoMemory => "memory ran out",
        }
    }
}

impl From<AllocError> for Refusal {
    fn from(_: AllocError) -> Self {
        Refusal::NoMemory
    }
}

impl From<io::Error> for Refusal {
    fn from(error: io::Error) -> Self {
        match error.kind() {
            io::ErrorKind::OutOfMemory => Refusal::NoMemory,
            _ => Refusal::System,
        }
    }
}
