// What checks of data find.

/// What a check of the data for a function finds.
#[derive(Clone, Copy, Debug, PartialEq, Eq)]
pub enum Finding {
    /// The data spells arguments of the function.
    Fits,
    /// The source spells no typed program.
    Untyped,
    /// A file can't be read or is too long, there is no such function, or the data spells no arguments of it.
    Refused,
}
