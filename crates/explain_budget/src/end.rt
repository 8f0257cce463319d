// How a call ends.

/// How a call of `explain budget` ends.
#[derive(Clone, Copy, Debug, PartialEq, Eq)]
pub enum BudgetEnd {
    /// Each declared bound is kept.
    AllKept,
    /// One is not kept, or its function has no bound.
    Broken,
    /// A file can't be read, the source spells no typed program, or the other file declares no bounds of it.
    Refused,
    /// A limit refuses the analysis or a decision at each degree.
    NotAnalysed,
}
