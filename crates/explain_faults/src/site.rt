// Places of a source, and edits there.
use lsp_language::{Edit, Span};
use std::alloc::{AllocError, Global};

/// A place of a source.
#[derive(Clone, Copy)]
pub(crate) struct Site<'a> {
    at: usize,
    /// The bytes before it, and those from it on.
    pub(crate) before: &'a [u8],
    pub(crate) rest: &'a [u8],
}

impl<'a> Site<'a> {
    pub(crate) fn of(source: &'a [u8], at: usize) -> Site<'a> {
        Site {
            at,
            before: source.get(..at).unwrap_or(source),
            rest: source.get(at..).unwrap_or(&[]),
        }
    }

    /// The word here; empty where none begins.
    pub(crate) fn word(self) -> &'a str {
        front(self.rest, word_len(self.rest))
    }

    /// These words in the place of so many bytes before the place, and so many from it on.
    pub(crate) fn edit(
        self,
        alloc: Global,
        back: usize,
        length: usize,
        words: &str,
    ) -> Result<Edit, AllocError> {
        Ok(Edit {
            span: Span {
                start: self.at.saturating_sub(back),
                end: self.at.saturating_add(length),
            },
            text: String::from_str(alloc, words)?,
        })
    }
}

/// The text of so many first bytes.
pub(crate) fn front(bytes: &[u8], length: usize) -> &str {
    text_of(bytes.get(..length).unwrap_or(&[]))
}

/// The bytes as a text; empty where they are none.
pub(crate) fn text_of(bytes: &[u8]) -> &str {
    std::str::from_utf8(bytes).unwrap_or("")
}

/// How many bytes of a name, a keyword or a number stand at the front.
pub(crate) fn word_len(bytes: &[u8]) -> usize {
    bytes
        .iter()
        .position(|byte| !(byte.is_ascii_alphanumeric() || *byte == b'_' || *byte == b'\''))
        .unwrap_or(bytes.len())
}

/// How many blanks stand at the front.
pub(crate) fn blank_len(bytes: &[u8]) -> usize {
    bytes
        .iter()
        .position(|byte| !is_blank(*byte))
        .unwrap_or(bytes.len())
}

/// Whether it is a blank.
pub(crate) fn is_blank(byte: u8) -> bool {
    matches!(byte, b' ' | b'\t' | b'\r' | b'\n')
}
