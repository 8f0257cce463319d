// What the next step of an analysis comes to.

/// What the next step of an analysis comes to.
#[derive(Clone, Copy, Debug, PartialEq, Eq)]
pub enum Progress {
    /// One more task is carried through, with so many pivots.
    Advanced { pivots: usize },
    /// There is no task left.
    Ended,
    /// The next task takes more pivots than the limit.
    Cut,
}
