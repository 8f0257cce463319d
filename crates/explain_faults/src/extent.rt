// How far a fault reaches.
ghost use Rattle.std.specs.Prelude.{◌≤◌, max, Some, length};
ghost use Rattle.explain_faults.specs.Told.{IsPart};

use crate::site::word_len;
use lsp_language::Span;

/// The part that is marked for a fault at a byte: the token there, or one character.
pub fn marked(source: &[u8], at: usize) -> Span
    ensures { IsPart source.now (Some at) result }
{
    Span {
        start: at,
        end: marked_end(source, at),
    }
}

fn marked_end(source: &[u8], at: usize) -> usize
    ensures order { at ≤ result }
    ensures within { result ≤ max at (length source.now) }
{
    match source.get(at..) {
        Some(rest) => at + token_len(rest).min(rest.len()),
        None => at,
    }
}

/// How many bytes the token at the front has, or the character where there is none.
fn token_len(rest: &[u8]) -> usize {
    match rest {
        [b'<', b'=', ..] | [b'-', b'>', ..] | [b':', b':', ..] | [b'(', b'*', ..] => 2,
        [first, ..] => word_len(rest).max(character_len(*first)),
        [] => 0,
    }
}

/// How many bytes the character has that begins with this one.
fn character_len(first: u8) -> usize {
    match first {
        0xF0.. => 4,
        0xE0..=0xEF => 3,
        0xC0..=0xDF => 2,
        _ => 1,
    }
}
