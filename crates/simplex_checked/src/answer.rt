// What a system comes to.

/// What a system comes to, in whole numbers.
#[derive(Debug, Drop)]
pub enum Answer {
    /// The least solution over its least denominator, a number for each unknown.
    Solution {
        denominator: i128,
        numbers: Vec<i128>,
    },
    /// There is none: a vector that refutes the system, a number for each row.
    Vector {
        numbers: Vec<i128>,
    },
}

/// What a system comes to with a limit of pivots.
#[derive(Debug, Drop)]
pub enum Within {
    /// This, after so many pivots.
    Answered { answer: Answer, pivots: usize },
    /// As many pivots are made as the limit, and neither end is reached: that no gain is left, or that no row
    /// bounds the rule's column.
    Cut,
}
