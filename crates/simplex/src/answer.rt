//! What solving answers.

use frac128::Frac;

/// What solving a system answers. Each pivot is a row and a column of the tableau.
#[derive(Debug, Drop)]
pub enum Answer {
    /// No weighted sum is less than that of `x`, with one number for each unknown. `dual`, with one number
    /// for each row of the system, proves it.
    Best {
        x: Vec<Frac>,
        dual: Vec<Frac>,
        pivots: Vec<(u32, u32)>,
    },
    /// There is no solution. `farkas`, with one number for each row of the system, proves it.
    NoSolution {
        farkas: Vec<Frac>,
        pivots: Vec<(u32, u32)>,
    },
    /// After these pivots a number in this row and column of the tableau leaves the range of fractions. The
    /// gains come after the unknowns' rows.
    Leaves {
        pivots: Vec<(u32, u32)>,
        row: u32,
        col: u32,
    },
}

/// What solving with a limit of pivots comes to.
#[derive(Debug, Drop)]
pub enum Within {
    Answered(Answer),
    /// So many pivots are made, and neither end is reached: that no gain is left, or that no row bounds the
    /// rule's column.
    Cut { pivots: Vec<(u32, u32)> },
}
