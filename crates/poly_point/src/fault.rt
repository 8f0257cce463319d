// Why there is no point.
ghost use Rattle.std.specs.Prelude.{◌≡◌};

use std::alloc::AllocError;

/// Why there is no point.
#[derive(Clone, Copy, Debug, PartialEq, Eq)]
pub enum PointFault {
    /// The numerator does not fit 128 bits.
    Leaves,
    /// No memory was left for it.
    NoMemory,
}

impl From<AllocError> for PointFault {
    ghost use Rattle.poly_point.specs.declared.fault.PointFault.TheVariants.{NoMemory};

    ghost from_gives = { λ _ e. e ≡ NoMemory };

    fn from(_: AllocError) -> Self {
        PointFault::NoMemory
    }
}
