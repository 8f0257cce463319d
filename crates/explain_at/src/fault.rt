// Why words ask for no sizes.
ghost use Rattle.std.specs.Prelude.{◌≡◌};

use std::alloc::{AllocError, AllocFailed};
use std::fmt;

/// Why a text is no list of sizes such as `l=100,l.each=20`.
#[derive(Clone, Copy, Debug)]
pub enum WordFault<'a> {
    /// The word is not NAME=N, where N is a whole number.
    Shape(&'a str),
    /// The number of the word has more than ten digits.
    Long(&'a str),
    /// A word before has the same name.
    Twice(&'a str),
    /// No memory was left.
    NoMemory,
}

/// Why sizes that are given are not those of a function's parameters.
#[derive(Debug, Drop)]
pub enum SizeFault<'a> {
    /// No parameter has a size of this name.
    Unknown(&'a str),
    /// The size of this name is not given.
    NotGiven(String),
    /// One size is to be open, and all are given.
    NoneOpen,
    /// One size is to be open, and these two are not given.
    TwoOpen(String, String),
    /// No memory was left.
    NoMemory,
}

impl<'a> fmt::Display for WordFault<'a> {
    ghost use Rattle.std.specs.Prelude.{Some};
    ghost use Rattle.explain_at.specs.Text.{word_text};

    ghost output = { λ fault. Some (word_text fault) };

    fn fmt<W: fmt::Write>(&self, f: &mut fmt::Formatter<W>) -> fmt::Result {
        match self {
            WordFault::Shape(word) => write!(f, "'{word}' is not NAME=N, with a whole number N"),
            WordFault::Long(word) => write!(f, "'{word}': a size has at most ten digits"),
            WordFault::Twice(name) => write!(f, "the size of '{name}' is given twice"),
            WordFault::NoMemory => write!(f, "no memory is left"),
        }
    }
}

impl<'a> fmt::Display for SizeFault<'a> {
    ghost use Rattle.std.specs.Prelude.{Some};
    ghost use Rattle.explain_at.specs.Text.{size_text};

    ghost output = { λ fault. Some (size_text fault) };

    fn fmt<W: fmt::Write>(&self, f: &mut fmt::Formatter<W>) -> fmt::Result {
        match self {
            SizeFault::Unknown(name) => write!(f, "no parameter has a size '{name}'"),
            SizeFault::NotGiven(name) => write!(f, "the size of '{name}' is not given"),
            SizeFault::NoneOpen => write!(f, "all sizes are given, and one is to be left open"),
            SizeFault::TwoOpen(name, other) => write!(
                f,
                "the sizes of '{name}' and of '{other}' are not given, and one may be left open"
            ),
            SizeFault::NoMemory => write!(f, "no memory is left"),
        }
    }
}

impl<'a> From<AllocError> for WordFault<'a> {
    ghost use Rattle.explain_at.specs.declared.fault.WordFault.TheVariants.{NoMemory};

    ghost from_gives = { λ _ e. e ≡ NoMemory };

    fn from(_: AllocError) -> Self {
        WordFault::NoMemory
    }
}

impl<'a, T: Drop> From<AllocFailed<T>> for WordFault<'a> {
    ghost use Rattle.explain_at.specs.declared.fault.WordFault.TheVariants.{NoMemory};

    ghost from_gives = { λ _ e. e ≡ NoMemory };

    fn from(_: AllocFailed<T>) -> Self {
        WordFault::NoMemory
    }
}

impl<'a> From<AllocError> for SizeFault<'a> {
    ghost use Rattle.explain_at.specs.declared.fault.SizeFault.TheVariants.{NoMemory};

    ghost from_gives = { λ _ e. e ≡ NoMemory };

    fn from(_: AllocError) -> Self {
        SizeFault::NoMemory
    }
}
