// The source in which two parameters are exchanged.
ghost use Rattle.std.specs.Prelude.{◌≡◌, length, IfOk, IfSome};

use crate::parts::parts;
use crate::two_params::TwoParams;
use explain_tokens::{Stretch, source_tokens, word};
use raml_lex::{Token, TokenKind};
use std::alloc::{AllocError, Global};

/// The source in which both parameters change places in the header of their function, and the arguments for them in each call.
/// Only their bytes move, with the comments in them.
///
/// None where the source has no tokens.
pub fn exchanged_text<'a>(
    alloc: Global,
    source: &[u8],
    two: TwoParams<'a>,
) -> Result<Option<Vec<u8>>, AllocError>
    ensures { IfOk result (λ text. IfSome text (λ made. length made.items ≡ length source.now)) }
{
    let Some(tokens) = source_tokens(alloc, source)? else {
        return Ok(None);
    };
    let mut text = Vec::from_slice(alloc, source)?;
    // from the last to the first, so that calls in arguments come before these change places
    for place in (0..tokens.len()).rev() {
        match stretches(source, &tokens[place..], two) {
            Some((first, second)) => exchange_bytes(&mut text, first, second),
            None => {}
        }
    }
    Ok(Some(text))
}

/// Where both stand, where the tokens begin with the name of the function and `(`.
fn stretches<'a>(
    source: &[u8],
    tokens: &[Token],
    two: TwoParams<'a>,
) -> Option<(Stretch, Stretch)> {
    match tokens {
        [name, open, inside @ ..] => {
            if name.kind == TokenKind::Name
                && word(source, name) == two.function.text().as_bytes()
                && word(source, open) == b"(".as_slice()
            {
                parts(source, inside, two.first, two.second)
            } else {
                None
            }
        }
        _ => None,
    }
}

/// Exchanges the bytes of two stretches, where the second stands behind the first.
fn exchange_bytes(text: &mut [u8], first: Stretch, second: Stretch)
    ensures { length text.new ≡ length text.old }
{
    if first.from > first.to
        || first.to > second.from
        || second.from > second.to
        || second.to > text.len()
    {
        return;
    }
    let ahead = second.to - second.from;
    let between = second.from - first.to;
    let both = &mut text[first.from..second.to];
    both.reverse();
    both[..ahead].reverse();
    both[ahead..ahead + between].reverse();
    both[ahead + between..].reverse();
}
