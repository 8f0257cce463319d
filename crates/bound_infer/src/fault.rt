// Why numbers were not multiplied.
ghost use Rattle.std.specs.Prelude.{◌≡◌};

use std::alloc::{AllocError, AllocFailed};

/// Why numbers were not multiplied.
#[derive(Clone, Copy, Debug)]
pub(crate) enum TimesFault {
    /// A product does not fit 128 bits.
    Leaves,
    NoMemory,
}

impl From<AllocError> for TimesFault {
    ghost use Rattle.bound_infer.specs.declared.fault.TimesFault.TheVariants.{NoMemory};

    ghost from_gives = { λ _ e. e ≡ NoMemory };

    fn from(_: AllocError) -> Self {
        TimesFault::NoMemory
    }
}

impl<T: Drop> From<AllocFailed<T>> for TimesFault {
    ghost use Rattle.bound_infer.specs.declared.fault.TimesFault.TheVariants.{NoMemory};

    ghost from_gives = { λ _ e. e ≡ NoMemory };

    fn from(_: AllocFailed<T>) -> Self {
        TimesFault::NoMemory
    }
}

/// Why the blocks of a meter were not raised.
#[derive(Clone, Copy, Debug, PartialEq, Eq)]
pub enum RaiseFault {
    /// A number of this block, and of no earlier one, does not fit 128 bits.
    Leaves { block: usize },
    NoMemory,
}
