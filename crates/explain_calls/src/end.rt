// How calls end.

/// How a call that analyses a program ends.
#[derive(Clone, Copy, Debug, PartialEq, Eq)]
pub enum End {
    /// What was asked for is told.
    Told,
    /// The source can't be read, or spells no typed program; or the program has no such function, or no such sizes.
    Refused,
    /// The analysis could not be made at any degree.
    NotAnalysed,
}
