// Why there is no system.
ghost use Rattle.std.specs.Prelude.{◌≡◌};

use std::alloc::AllocError;

/// Of what there are more than 2000.
#[derive(Clone, Copy, Debug, PartialEq, Eq)]
pub enum What {
    /// Indices of a context or a type of a walk, at its budget.
    Indices,
    Unknowns,
    /// Rows that say something.
    Rows,
}

/// Why the system of a task is not made.
#[derive(Clone, Copy, Debug, PartialEq, Eq)]
pub enum GenFault {
    TooLarge(What),
    /// A coefficient or the right side of this row, and of no earlier one, does not fit 128 bits.
    Leaves { row: u32 },
    NoMemory,
}

impl From<AllocError> for GenFault {
    ghost use Rattle.constraint_gen.specs.declared.fault.GenFault.TheVariants.{NoMemory};

    ghost from_gives = { λ _ e. e ≡ NoMemory };

    fn from(_: AllocError) -> Self {
        GenFault::NoMemory
    }
}
