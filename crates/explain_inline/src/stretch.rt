// Where a function's body stands in its source.
use explain_tokens::{Stretch, word};
use raml_lex::Token;
use raml_syntax::Pos;

/// The body of the function whose `fun` stands at this place: from behind the `=` of its header to the end of its last token.
pub fn body_stretch(source: &[u8], tokens: &[Token], fun: Pos) -> Option<Stretch> {
    let mut body = None;
    for token in tokens {
        if token.at.0 > fun.0 {
            match body {
                None => body = header_end(source, token),
                Some(stretch) => match longer(source, stretch, token) {
                    Some(longer) => body = Some(longer),
                    None => return body,
                },
            }
        }
    }
    body
}

/// An empty body behind the `=` of a header, where the token is that.
fn header_end(source: &[u8], token: &Token) -> Option<Stretch> {
    if word(source, token) == b"=".as_slice() {
        let end = token.end.0 as usize;
        Some(Stretch { from: end, to: end })
    } else {
        None
    }
}

/// The body with one more token; None where that begins the next function.
fn longer(source: &[u8], body: Stretch, token: &Token) -> Option<Stretch> {
    if word(source, token) == b"fun".as_slice() {
        None
    } else {
        Some(Stretch {
            from: body.from,
            to: token.end.0 as usize,
        })
    }
}
