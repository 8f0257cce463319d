// The parts of what stands in parentheses.
use explain_tokens::{Stretch, word};
use raml_lex::Token;

/// Two of the parts in parentheses, as far as they are read.
#[derive(Clone, Copy)]
struct Reading {
    /// How many parentheses are open inside.
    depth: usize,
    /// The place of the part that is read, from 0.
    place: usize,
    first: Option<Stretch>,
    second: Option<Stretch>,
}

/// The stretches of two parts, by their places from 0, of what stands in the parentheses behind whose `(` these tokens are.
/// Commas part them. None where it does not have both.
pub fn parts(
    source: &[u8],
    tokens: &[Token],
    first: usize,
    second: usize,
) -> Option<(Stretch, Stretch)> {
    let mut reading = Reading {
        depth: 0,
        place: 0,
        first: None,
        second: None,
    };
    for token in tokens {
        let text = word(source, token);
        if reading.depth == 0 && text == b")".as_slice() {
            return Some((reading.first?, reading.second?));
        }
        reading = reading.behind(text, token, first, second);
    }
    None
}

impl Reading {
    /// One token further.
    fn behind(self, text: &[u8], token: &Token, first: usize, second: usize) -> Reading {
        if self.depth == 0 && text == b",".as_slice() {
            return Reading {
                place: self.place.saturating_add(1),
                ..self
            };
        }
        Reading {
            depth: depth_behind(self.depth, text),
            place: self.place,
            first: longer_at(self.place == first, self.first, token),
            second: longer_at(self.place == second, self.second, token),
        }
    }
}

/// How many parentheses are open behind a token.
fn depth_behind(depth: usize, text: &[u8]) -> usize {
    if text == b"(".as_slice() {
        depth.saturating_add(1)
    } else if text == b")".as_slice() {
        depth.saturating_sub(1)
    } else {
        depth
    }
}

/// The stretch with one more token, where that is a part of it.
fn longer_at(is_part: bool, stretch: Option<Stretch>, token: &Token) -> Option<Stretch> {
    if !is_part {
        return stretch;
    }
    let to = token.end.0 as usize;
    match stretch {
        Some(Stretch { from, .. }) => Some(Stretch { from, to }),
        None => Some(Stretch {
            from: token.at.0 as usize,
            to,
        }),
    }
}
