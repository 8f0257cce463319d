// Why data is refused.
ghost use Rattle.std.specs.Prelude.{◌≡◌};
ghost use Rattle.value_text.specs.declared.fault.DataFault.TheVariants.{NoMemory};
ghost use Rattle.value_text.specs.declared.fault.Stop.TheVariants as s;

use raml_syntax::Pos;
use std::alloc::{AllocError, AllocFailed};

/// Why data is refused.
#[derive(Clone, Copy, PartialEq, Eq, Debug)]
pub enum DataFault {
    /// The byte there begins no character.
    NotUtf8 { at: Pos },
    /// No arguments of the types begin with the tokens up to the one there.
    Shape { at: Pos },
    /// Some do, but in each a value is higher than 400.
    TooDeep { at: Pos },
    /// The arguments have more than 1048576 cells.
    TooManyCells,
    NoMemory,
}

impl From<AllocError> for DataFault {
    ghost from_gives = { λ _ fault. fault ≡ NoMemory };

    fn from(_error: AllocError) -> DataFault {
        DataFault::NoMemory
    }
}

/// Why the first token that cannot stand cannot.
#[derive(Clone, Copy, PartialEq, Eq, Debug)]
pub enum Kind {
    Shape,
    TooDeep,
}

/// Why reading stops: at the token that begins so many bytes before the end, or for want of memory.
#[derive(Clone, Copy, PartialEq, Eq, Debug)]
pub enum Stop {
    Fault(Kind, usize),
    NoMemory,
}

impl From<AllocError> for Stop {
    ghost from_gives = { λ _ stop. stop ≡ s.NoMemory };

    fn from(_error: AllocError) -> Stop {
        Stop::NoMemory
    }
}

impl<T: Drop> From<AllocFailed<T>> for Stop {
    ghost from_gives = { λ _ stop. stop ≡ s.NoMemory };

    fn from(_failed: AllocFailed<T>) -> Stop {
        Stop::NoMemory
    }
}
