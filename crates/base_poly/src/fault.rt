// Why there is no list of indices.
ghost use Rattle.std.specs.Prelude.{◌≡◌};

use std::alloc::{AllocError, AllocFailed};

/// Why there is no list of indices.
#[derive(Clone, Copy, Debug, PartialEq, Eq)]
pub enum IndexFault {
    /// There are more than were asked for.
    TooMany,
    /// No memory was left for them.
    NoMemory,
}

impl From<AllocError> for IndexFault {
    ghost use Rattle.base_poly.specs.declared.fault.IndexFault.TheVariants.{NoMemory};

    ghost from_gives = { λ _ e. e ≡ NoMemory };

    fn from(_: AllocError) -> Self {
        IndexFault::NoMemory
    }
}

impl<T: Drop> From<AllocFailed<T>> for IndexFault {
    ghost use Rattle.base_poly.specs.declared.fault.IndexFault.TheVariants.{NoMemory};

    ghost from_gives = { λ _ e. e ≡ NoMemory };

    fn from(_: AllocFailed<T>) -> Self {
        IndexFault::NoMemory
    }
}
