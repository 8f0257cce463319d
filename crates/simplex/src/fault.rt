//! Why a step was not made.

ghost use Rattle.std.specs.Prelude.{◌≡◌, ℕ};

use simplex_rows::RowFault;
use std::alloc::{AllocError, AllocFailed};

/// Why a step of the tableau was not made.
#[derive(Clone, Copy, Debug)]
pub(crate) enum Fault {
    /// A number in this row and column leaves the range of fractions. The gains come after the rows.
    Leaves { row: usize, column: u32 },
    NoMemory,
}

impl From<AllocError> for Fault {
    ghost use Rattle.simplex.specs.declared.fault.Fault.TheVariants.{NoMemory};

    ghost from_gives = { λ _ e. e ≡ NoMemory };

    fn from(_: AllocError) -> Self {
        Fault::NoMemory
    }
}

impl<T: Drop> From<AllocFailed<T>> for Fault {
    ghost use Rattle.simplex.specs.declared.fault.Fault.TheVariants.{NoMemory};

    ghost from_gives = { λ _ e. e ≡ NoMemory };

    fn from(_: AllocFailed<T>) -> Self {
        Fault::NoMemory
    }
}

/// The fault of a row, in the tableau.
pub(crate) fn in_row(row: usize, fault: RowFault) -> Fault
    ensures { (i c : ℕ) → result ≡ Fault.Leaves i c → (i ≡ row) × (fault ≡ RowFault.Leaves c) }
{
    match fault {
        RowFault::Leaves { column } => Fault::Leaves { row, column },
        RowFault::NoMemory => Fault::NoMemory,
    }
}
