// Where faults are shown.
ghost use Rattle.std.specs.Prelude.{◌≡◌, ◌≤◌, ◌<◌, length};
ghost use Rattle.explain_declared.specs.Places.{before_mark, behind_mark, from_line, line_start, line_of, behind_sign, place_in_line};

use bound_file::LineFault;

/// What the bound of a line stands behind.
const SIGN: &[u8] = b"<= ";

/// The line of this number, counted from 1.
pub(crate) fn line_at<'a>(text: &'a str, number: u32) -> &'a str
    ensures { result.now ≡ line_of number text.now }
{
    before_mark(from_line(text, number), '\n')
}

/// Where the line of this number starts.
pub(crate) fn line_start(text: &str, number: u32) -> usize
    ensures is { result ≡ line_start number text.now }
    ensures within { result ≤ length text.now }
{
    text.len().saturating_sub(from_line(text, number).len())
}

// The text from the line of this number on.
fn from_line<'a>(text: &'a str, number: u32) -> &'a str
    ensures { result.now ≡ from_line number text.now }
{
    let mut rest = text;
    let mut before = number.saturating_sub(1);
    while before > 0 {
        rest = behind_mark(rest, '\n');
        before -= 1;
    }
    rest
}

/// What stands before the first such character, or the whole text.
pub(crate) fn before_mark<'a>(text: &'a str, mark: char) -> &'a str
    requires { mark < 128 }
    ensures { result.now ≡ before_mark mark text.now }
{
    match text.split_once(mark) {
        Some((before, _)) => before,
        None => text,
    }
}

/// What stands behind the first such character, or nothing.
pub(crate) fn behind_mark<'a>(text: &'a str, mark: char) -> &'a str
    requires { mark < 128 }
    ensures { result.now ≡ behind_mark mark text.now }
{
    match text.split_once(mark) {
        Some((_, behind)) => behind,
        None => "",
    }
}

/// The place in the line that a fault is shown at.
pub(crate) fn place_in_line(line: &str, fault: LineFault) -> usize
    ensures is { result ≡ place_in_line line.now fault }
    ensures within { result ≤ length line.now }
{
    match fault {
        LineFault::Unknown | LineFault::Twice => 0,
        LineFault::Shape | LineFault::Number | LineFault::Index => behind_sign(line.as_bytes()),
    }
}

// The place behind the first sign of a line, or 0.
fn behind_sign(line: &[u8]) -> usize
    ensures is { result ≡ behind_sign line.now }
    ensures within { result ≤ length line.now }
{
    for at in 0..line.len() {
        if line[at..].starts_with(SIGN) {
            return at + SIGN.len();
        }
    }
    0
}
