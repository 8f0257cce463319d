// Why declared bounds are not decided.
use smallvec::SmallVec;

/// Why it is not decided whether a declared bound is kept. Of the causes in the order of `DeclAt`, with
/// `TooLarge` behind `Row`, the first is told.
#[derive(Debug, Drop)]
pub enum DecideFault {
    /// The rows of the task and of the line are more than 2000.
    TooLarge,
    /// A number leaves 128 bits.
    Leaves(DeclAt),
    NoMemory,
}

/// Where a number leaves 128 bits.
#[derive(Debug, Drop)]
pub enum DeclAt {
    /// In this row of the task's system.
    Row {
        row: u32,
    },
    /// In the right side of the line's row at this position of the function's arguments.
    Right {
        position: u32,
    },
    /// In solving: after these pivots, each a row and a column, in this row and column of the tableau.
    Solve {
        pivots: Vec<(u32, u32)>,
        row: u32,
        col: u32,
    },
    /// In this entry of the solution, or of the vector that refutes, taken to whole numbers.
    Scale {
        entry: u32,
    },
    /// In this block, the first of the line's meter, or in the meter's scale, multiplied by the denominator
    /// of the solution; where no block of the meter is solved before that of the task, in the scale.
    Rescale {
        block: usize,
    },
    /// In a condition of the block that the solution stands for: of this index, at this path.
    Check {
        path: SmallVec<u32, 8>,
        index: usize,
    },
    /// In the check of the vector that refutes, at this column.
    Refute {
        column: u32,
    },
}
