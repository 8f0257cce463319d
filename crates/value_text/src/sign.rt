// The words and symbols of data.

/// A word or symbol that stands for itself.
#[derive(Clone, Copy, PartialEq, Eq, Debug)]
pub enum Sign {
    Open,
    Close,
    Comma,
    OpenList,
    CloseList,
    Leaf,
    Node,
    /// The word `none`.
    Nothing,
    /// The word `some`.
    Just,
}
