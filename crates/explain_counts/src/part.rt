// The line of a byte, without its indentation.
ghost use Rattle.std.specs.Prelude.{◌≡◌, ◌≤◌, length};
ghost use Rattle.explain_places.specs.Places.{line_start};
ghost use Rattle.explain_counts.specs.Parts as p;
ghost use Rattle.explain_counts.specs.Parts.{part_of};

use explain_places::line_at;
use lsp_language::Span;

/// Whether it is a space or a tab.
fn is_blank(byte: u8) -> bool
    ensures { result ≡ p.is_blank byte }
{
    byte == b' ' || byte == b'\t'
}

/// How many blanks stand at the front.
fn indentation(line: &[u8]) -> usize
    ensures count { result ≡ p.indentation line.now }
    ensures within { result ≤ length line.now }
{
    let mut count = 0;
    for byte in line {
        if !is_blank(*byte) {
            return count;
        }
        count += 1;
    }
    count
}

/// Where the line of a byte starts.
fn line_start(source: &[u8], place: usize) -> usize
    ensures start { result ≡ line_start source.now place }
    ensures within { result ≤ length source.now }
{
    let before = &source[..place.min(source.len())];
    before
        .len()
        .saturating_sub(line_at(before, before.len()).len())
}

/// The line of a byte, without its indentation and the newline at its end.
pub(crate) fn part_of(source: &[u8], place: usize) -> Span
    ensures { result ≡ part_of source.now place }
{
    let start = line_start(source, place);
    let line = line_at(source, place);
    Span {
        start: start + indentation(line),
        end: start + line.len(),
    }
}
