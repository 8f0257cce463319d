// Parts of texts.

/// A part of a text: from the byte `start` up to before the byte `end`.
///
/// Bytes are counted from 0, in UTF-8. Where `end` is not behind `start`, the part is the place at `start`.
#[derive(Clone, Copy, Debug, PartialEq, Eq)]
pub struct Span {
    pub start: usize,
    pub end: usize,
}
