// Why reading stops.
ghost use Rattle.std.specs.Prelude.{◌≡◌};
ghost use Rattle.parse_table.specs.declared.stop.Stop.TheVariants.{NoMemory};

use crate::token::Piece;
use parse_spec::Kind;
use std::alloc::{AllocError, AllocFailed};

/// Why no tree was read.
#[derive(Clone, Copy)]
pub enum Stop<'a> {
    /// The kind of the fault, and the tokens from it on.
    Fault(Kind, &'a [Piece<'a>]),
    NoMemory,
}

impl<'a> From<AllocError> for Stop<'a> {
    ghost from_gives = { λ _ stop. stop ≡ NoMemory };

    fn from(_error: AllocError) -> Stop<'a> {
        Stop::NoMemory
    }
}

impl<'a, T: Drop> From<AllocFailed<T>> for Stop<'a> {
    ghost from_gives = { λ _ stop. stop ≡ NoMemory };

    fn from(_failed: AllocFailed<T>) -> Stop<'a> {
        Stop::NoMemory
    }
}
