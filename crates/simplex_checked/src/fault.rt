// Why a system has no answer.
ghost use Rattle.std.specs.Prelude.{◌≡◌};

use std::alloc::AllocError;

/// Why a system has no answer: a number leaves 128 bits.
#[derive(Debug, Drop)]
pub enum AnswerFault {
    /// In solving, after these pivots, each a row and a column: in this row and column of the tableau.
    Solve {
        pivots: Vec<(u32, u32)>,
        row: u32,
        column: u32,
    },
    /// In this entry of the answer, taken to whole numbers: entries of the solution come first, and then
    /// those of the dual solution.
    Scale {
        entry: u32,
    },
    /// In the check of the vector, at this column.
    Refute {
        column: u32,
    },
    /// In the check that the solution is least, at this column.
    Least {
        column: u32,
    },
    NoMemory,
}

impl From<AllocError> for AnswerFault {
    ghost use Rattle.simplex_checked.specs.declared.fault.AnswerFault.TheVariants.{NoMemory};

    ghost from_gives = { λ _ e. e ≡ NoMemory };

    fn from(_: AllocError) -> Self {
        AnswerFault::NoMemory
    }
}
