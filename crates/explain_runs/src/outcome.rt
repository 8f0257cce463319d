// What runs come to.

/// How many instructions a run may make, and how many cells it may take.
#[derive(Clone, Copy, PartialEq, Eq, Debug)]
pub struct Limits {
    pub steps: u64,
    pub cells: u32,
}

/// How a run ends.
#[derive(Drop)]
pub enum Outcome {
    /// It has halted with the value of this text.
    Halted { value: String },
    /// It has halted with a value whose text has more than 16777216 bytes.
    TooLong,
    /// As many instructions as were allowed are made, and it goes on.
    Stopped,
    /// The next instruction takes a cell where all that were allowed are taken.
    HeapFull,
}

/// A run, and its meters at its end.
#[derive(Drop)]
pub struct Measured {
    pub outcome: Outcome,
    pub ticks: u64,
    pub cells: u64,
    pub instructions: u64,
}
