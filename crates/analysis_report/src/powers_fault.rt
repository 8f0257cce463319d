// Why bounds are not written as powers.
ghost use Rattle.std.specs.Prelude.{◌≡◌};

use cost_free::Meter;
use raml_syntax::FunId;
use std::alloc::AllocError;

/// Why bounds are not written as powers.
#[derive(Clone, Copy, Debug, PartialEq, Eq)]
pub enum PowersFault {
    /// The powers of the bound of this function on this meter do not fit 128 bits; it is the first.
    Leaves { fun: FunId, meter: Meter },
    NoMemory,
}

impl From<AllocError> for PowersFault {
    ghost use Rattle.analysis_report.specs.declared.powers_fault.PowersFault.TheVariants.{NoMemory};

    ghost from_gives = { λ _ fault. fault ≡ NoMemory };

    fn from(_: AllocError) -> PowersFault {
        PowersFault::NoMemory
    }
}
