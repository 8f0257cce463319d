// Where lines start.
ghost use Rattle.std.specs.Prelude.{◌≡◌, ◌≤◌, ◌<◌, ◌+◌, length, drop, slice_index, IfOk, IsCharBoundary};
ghost use Rattle.lsp_positions.specs.Lines.{is_newline, ends_line, line_starts, line_at, before_ending};
ghost use Rattle.lsp_positions.specs.Positions.{position_of, offset_of};

use crate::columns::{at_column, first_end, units};
use crate::position::{Encoding, Position};
use std::alloc::{AllocError, Global};
use std::marker::Model;

/// Where each line of a text starts. Lines end with `\n`, `\r\n` or `\r`. A clause sees it as the list
/// of the starts.
#[derive(Debug, Drop)]
pub struct LineTable {
    starts: Vec<usize>,
}

impl Model for LineTable {
    ghost use Rattle.std.specs.Prelude.{ℕ, List};

    ghost Value = { List ℕ };

    ghost view = { λ table. table.starts.items };
}

impl LineTable {
    /// The table of a text, made in one walk over its bytes.
    pub fn new(alloc: Global, text: &str) -> Result<LineTable, AllocError>
        ensures { IfOk result (λ table. table ≡ line_starts text.now) }
    {
        let bytes = text.as_bytes();
        let mut starts = Vec::from_slice(alloc, &[0])?;
        for place in 0..bytes.len() {
            if ends_line(bytes, place) {
                starts.push(place + 1)?;
            }
        }
        Ok(LineTable { starts })
    }

    /// The position of a byte of the text that the table was made of. An offset beyond the text is as
    /// one at its end.
    pub fn position(&self, text: &str, encoding: Encoding, offset: usize) -> Position
        requires { self.now ≡ line_starts text.now }
        ensures { result ≡ position_of encoding text.now offset }
    {
        position_in(&self.starts, text.as_bytes(), encoding, offset)
    }

    /// The offset of a position in the text that the table was made of. A line beyond the last is the
    /// end of the text, a column beyond its line the end of the line, before its ending, and a column
    /// within a character the beginning of the character.
    pub fn offset(&self, text: &str, encoding: Encoding, position: Position) -> usize
        requires { self.now ≡ line_starts text.now }
        ensures offset { result ≡ offset_of encoding text.now position }
        ensures boundary { IsCharBoundary text.now result }
    {
        offset_in(&self.starts, text, encoding, position)
    }
}

// The position of a byte.
fn position_in(starts: &[usize], text: &[u8], encoding: Encoding, offset: usize) -> Position
    requires { starts.now ≡ line_starts text.now }
    ensures { result ≡ position_of encoding text.now offset }
{
    let place = offset.min(text.len());
    let line = line_of(starts, text, place);
    Position {
        line,
        character: units(encoding, &text[starts[line]..place]),
    }
}

// The offset of a position.
fn offset_in(starts: &[usize], text: &str, encoding: Encoding, position: Position) -> usize
    requires { starts.now ≡ line_starts text.now }
    ensures offset { result ≡ offset_of encoding text.now position }
    ensures boundary { IsCharBoundary text.now result }
{
    if position.line >= starts.len() {
        return text.len();
    }
    let start = starts[position.line];
    let line = line_from(text.as_bytes(), start);
    start + at_column(encoding, line, position.character)
}

// The line of a place.
fn line_of(starts: &[usize], text: &[u8], place: usize) -> usize
    requires { starts.now ≡ line_starts text.now }
    ensures line { result ≡ line_at text.now place }
    ensures within { result < length starts.now }
    ensures start { slice_index starts.now result ≤ place }
{
    match starts.binary_search(&place) {
        Ok(line) => line,
        Err(next) => next - 1,
    }
}

// The line that starts at a place, without its ending.
fn line_from(text: &[u8], start: usize) -> &[u8]
    requires { start ≤ length text.now }
    ensures { result.now ≡ before_ending (drop start text.now) }
{
    let rest = &text[start..];
    &rest[..first_end(rest)]
}

// Whether a line ends with the byte at a place.
fn ends_line(text: &[u8], place: usize) -> bool
    requires { place < length text.now }
    ensures { result ≡ ends_line (slice_index text.now place) (drop (place + 1) text.now) }
{
    let byte = text[place];
    byte == b'\n' || (byte == b'\r' && !is_newline_at(text, place + 1))
}

// Whether a newline stands at a place.
fn is_newline_at(text: &[u8], place: usize) -> bool
    ensures { result ≡ is_newline (slice_index text.now place) }
{
    place < text.len() && text[place] == b'\n'
}
