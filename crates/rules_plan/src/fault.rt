// Why there is no plan.
ghost use Rattle.std.specs.Prelude.{◌≡◌};

use std::alloc::AllocError;

/// Why a group has no plans.
#[derive(Clone, Copy, Debug, PartialEq, Eq)]
pub enum PlanFault {
    /// A context or a type of a walk has more than 2000 indices at its budget.
    TooMany,
    NoMemory,
}

impl From<AllocError> for PlanFault {
    ghost use Rattle.rules_plan.specs.declared.fault.PlanFault.TheVariants.{NoMemory};

    ghost from_gives = { λ _ e. e ≡ NoMemory };

    fn from(_: AllocError) -> PlanFault {
        PlanFault::NoMemory
    }
}
