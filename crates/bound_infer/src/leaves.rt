// Where numbers leave 128 bits.
use cost_free::Task;
use smallvec::SmallVec;

/// Where a number leaves 128 bits.
#[derive(Debug, Drop)]
pub enum LeavesAt {
    /// In solving the task's system: after these pivots, each a row and a column, in this row and column of
    /// the tableau.
    Solve {
        task: Task,
        pivots: Vec<(u32, u32)>,
        row: u32,
        col: u32,
    },
    /// In this row of the task's system.
    Row {
        task: Task,
        row: u32,
    },
    /// In this entry of the task's answer, taken to whole numbers: entries of the solution come first, and
    /// then those of the dual solution.
    Scale {
        task: Task,
        entry: u32,
    },
    /// In this earlier block, or in the scale of the task's meter, multiplied by the denominator of the task's
    /// solution.
    Rescale {
        task: Task,
        block: usize,
    },
    /// In the check of the certificate: in the condition of this index at the path in the block.
    Check {
        block: usize,
        path: SmallVec<u32, 8>,
        index: usize,
    },
    /// In the check of the vector that refutes the task, at this column.
    Refute {
        task: Task,
        column: u32,
    },
    /// In the check that the task's solution is least, at this column.
    Least {
        task: Task,
        column: u32,
    },
}
