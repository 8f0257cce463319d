// What the lines of a header part tell.
ghost use Rattle.std.specs.Prelude.{◌≡◌, ◌<◌, ◌∷◌, [], Ok, Some, IfSome, IfNone, length};
ghost use Rattle.lsp_frames.specs.Marks.{lines};
ghost use Rattle.lsp_frames.specs.Fields.{told_by, with_told, length_in, length_at_end};

use crate::field::{FrameFault, length_told};
use crate::find::find;

/// The length that a header part tells, which is given without the blank line at its end.
pub fn length_in(header: &[u8]) -> Result<usize, FrameFault>
    ensures { result ≡ length_in header.now }
{
    let mut told = None;
    let mut rest = header;
    while let Some((line, behind)) = first_line(rest) {
        match with_line(told, line) {
            Ok(now) => told = now,
            Err(fault) => return Err(fault),
        }
        rest = behind;
    }
    at_end(with_line(told, rest))
}

// The first line, and what stands behind its end, where it ends.
fn first_line(bytes: &[u8]) -> Option<(&[u8], &[u8])>
    ensures first { IfSome result (λ cut. lines bytes.now ≡ cut.0.now ∷ lines cut.1.now) }
    ensures less { IfSome result (λ cut. length cut.1.now < length bytes.now) }
    ensures only { IfNone result (lines bytes.now ≡ bytes.now ∷ []) }
{
    match find(bytes, b"\r\n") {
        Some(end) => Some((&bytes[..end], &bytes[end + 2..])),
        None => None,
    }
}

// What is told once one line more is read.
fn with_line(told: Option<usize>, line: &[u8]) -> Result<Option<usize>, FrameFault>
    ensures { result ≡ with_told told (told_by line.now) }
{
    match length_told(line) {
        Ok(Some(length)) => once(told, length),
        Ok(None) => Ok(told),
        Err(fault) => Err(fault),
    }
}

// The length, unless one is told before it.
fn once(told: Option<usize>, length: usize) -> Result<Option<usize>, FrameFault>
    ensures { result ≡ with_told told (Ok (Some length)) }
{
    match told {
        Some(_) => Err(FrameFault::LengthTwice),
        None => Ok(Some(length)),
    }
}

// The length, once all lines are read.
fn at_end(told: Result<Option<usize>, FrameFault>) -> Result<usize, FrameFault>
    ensures { result ≡ length_at_end told }
{
    match told {
        Ok(Some(length)) => Ok(length),
        Ok(None) => Err(FrameFault::NoLength),
        Err(fault) => Err(fault),
    }
}
