// Places of bytes.
ghost use Rattle.std.specs.Prelude.{◌≡◌, ◌<◌, ◌^◌};
ghost use Rattle.explain_places.specs.Places.{begins_character, how_many, line, column};

use crate::lines::{line_up_to, newlines, up_to};
use std::fmt;

/// The line and the column of a byte, each from 1 on. Columns count characters.
#[derive(Clone, Copy, Debug, PartialEq, Eq)]
pub struct Place {
    pub line: usize,
    pub column: usize,
}

impl Place {
    /// Where the byte of the offset stands. An offset past the end stands at the end.
    pub fn of(text: &[u8], offset: usize) -> Place
        ensures line { result.line ≡ line text.now offset }
        ensures column { result.column ≡ column text.now offset }
    {
        Place {
            line: 1 + newlines(up_to(text, offset)),
            column: 1 + characters(line_up_to(text, offset)),
        }
    }
}

impl fmt::Display for Place {
    ghost use Rattle.std.specs.Prelude.{Some};
    ghost use Rattle.explain_places.specs.Text.{text_of};

    ghost output = { λ p. Some (text_of p) };

    fn fmt<W: fmt::Write>(&self, f: &mut fmt::Formatter<W>) -> fmt::Result {
        let line = self.line;
        let column = self.column;
        write!(f, "{line}:{column}")
    }
}

/// How many characters begin in the text.
pub(crate) fn characters(text: &[u8]) -> usize
    ensures count { result ≡ how_many begins_character text.now }
    ensures few { result < 2 ^ 63 }
{
    let mut count = 0;
    for byte in text {
        if !matches!(byte, 0x80..=0xBF) {
            count += 1;
        }
    }
    count
}
