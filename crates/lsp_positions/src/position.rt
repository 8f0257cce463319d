// Positions.

/// What a column counts.
#[derive(Clone, Copy, Debug, PartialEq, Eq)]
pub enum Encoding {
    /// Code units of UTF-16, which each client knows.
    Utf16,
    /// Bytes of UTF-8.
    Utf8,
}

/// A line of a text and a column in it, each from 0 on. The column counts code units.
#[derive(Clone, Copy, Debug, PartialEq, Eq)]
pub struct Position {
    pub line: usize,
    pub character: usize,
}
