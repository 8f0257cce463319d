//! Why a row was not made.

ghost use Rattle.std.specs.Prelude.{◌≡◌};

use std::alloc::{AllocError, AllocFailed};

/// Why a row was not made.
#[derive(Clone, Copy, PartialEq, Eq, Debug)]
pub enum RowFault {
    /// At this column a number leaves the range of fractions.
    Leaves { column: u32 },
    NoMemory,
}

impl From<AllocError> for RowFault {
    ghost use Rattle.simplex_rows.specs.declared.fault.RowFault.TheVariants.{NoMemory};

    ghost from_gives = { λ _ e. e ≡ NoMemory };

    fn from(_: AllocError) -> Self {
        RowFault::NoMemory
    }
}

impl<T: Drop> From<AllocFailed<T>> for RowFault {
    ghost use Rattle.simplex_rows.specs.declared.fault.RowFault.TheVariants.{NoMemory};

    ghost from_gives = { λ _ e. e ≡ NoMemory };

    fn from(_: AllocFailed<T>) -> Self {
        RowFault::NoMemory
    }
}
