// Why there is no map.
ghost use Rattle.std.specs.Prelude.{◌≡◌};

use base_poly::IndexFault;
use std::alloc::{AllocError, AllocFailed};

/// Why there is no map.
#[derive(Clone, Copy, Debug, PartialEq, Eq)]
pub enum MapFault {
    /// The old or the new context has more than 2000 indices.
    TooMany,
    /// No memory was left for it.
    NoMemory,
}

impl From<IndexFault> for MapFault {
    ghost use Rattle.index_shift.specs.Read.{fault_of};

    ghost from_gives = { λ fault e. e ≡ fault_of fault };

    fn from(fault: IndexFault) -> Self {
        match fault {
            IndexFault::TooMany => MapFault::TooMany,
            IndexFault::NoMemory => MapFault::NoMemory,
        }
    }
}

impl From<AllocError> for MapFault {
    ghost use Rattle.index_shift.specs.declared.fault.MapFault.TheVariants.{NoMemory};

    ghost from_gives = { λ _ e. e ≡ NoMemory };

    fn from(_: AllocError) -> Self {
        MapFault::NoMemory
    }
}

impl<T: Drop> From<AllocFailed<T>> for MapFault {
    ghost use Rattle.index_shift.specs.declared.fault.MapFault.TheVariants.{NoMemory};

    ghost from_gives = { λ _ e. e ≡ NoMemory };

    fn from(_: AllocFailed<T>) -> Self {
        MapFault::NoMemory
    }
}
