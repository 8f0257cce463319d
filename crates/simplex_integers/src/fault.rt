// Why fractions have no whole numbers of 128 bits.
ghost use Rattle.std.specs.Prelude.{◌≡◌};

use std::alloc::{AllocError, AllocFailed};

/// Why fractions were not taken to whole numbers.
#[derive(Clone, Copy, Debug, PartialEq, Eq)]
pub enum WholeFault {
    /// The number of this entry, the first of those whose number does not fit 128 bits.
    Leaves { entry: usize },
    NoMemory,
}

impl From<AllocError> for WholeFault {
    ghost use Rattle.simplex_integers.specs.declared.fault.WholeFault.TheVariants.{NoMemory};

    ghost from_gives = { λ _ e. e ≡ NoMemory };

    fn from(_: AllocError) -> Self {
        WholeFault::NoMemory
    }
}

impl<T: Drop> From<AllocFailed<T>> for WholeFault {
    ghost use Rattle.simplex_integers.specs.declared.fault.WholeFault.TheVariants.{NoMemory};

    ghost from_gives = { λ _ e. e ≡ NoMemory };

    fn from(_: AllocFailed<T>) -> Self {
        WholeFault::NoMemory
    }
}
