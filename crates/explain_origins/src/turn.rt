// Turns.

/// A way from a form to one below it.
#[derive(Clone, Copy, Debug, PartialEq, Eq)]
pub(crate) enum Turn {
    /// To the only one.
    Only,
    /// To the first of two: the bound form of a `let`, or the first branch.
    First,
    /// To the second of two.
    Second,
}
