// Why there is no power form.
ghost use Rattle.std.specs.Prelude.{◌≡◌};

use std::alloc::{AllocError, AllocFailed};

/// Why there is no power form.
#[derive(Clone, Copy, Debug, PartialEq, Eq)]
pub enum PowerFault {
    /// 24 times the denominator does not fit 128 bits, or at some exponents the total of the numbers
    /// of one sign does not.
    Leaves,
    /// No memory was left for it.
    NoMemory,
}

impl From<AllocError> for PowerFault {
    ghost use Rattle.bound_compare.specs.declared.fault.PowerFault.TheVariants.{NoMemory};

    ghost from_gives = { λ _ e. e ≡ NoMemory };

    fn from(_: AllocError) -> Self {
        PowerFault::NoMemory
    }
}

impl<T: Drop> From<AllocFailed<T>> for PowerFault {
    ghost use Rattle.bound_compare.specs.declared.fault.PowerFault.TheVariants.{NoMemory};

    ghost from_gives = { λ _ e. e ≡ NoMemory };

    fn from(_: AllocFailed<T>) -> Self {
        PowerFault::NoMemory
    }
}
