// The tokens of a text as the grammar sees them.
ghost use Rattle.std.specs.Prelude.{◌≡◌, map, All, IfOk};
ghost use Rattle.raml_lex.specs.Lexing.{StandsIn};
ghost use Rattle.parse_table.specs.Tokens.{as_token};
ghost use Rattle.parse_table.specs.Read.{token_of, pieces};

use crate::token::{Piece, Word, sign_named};
use raml_lex::{Token, TokenKind, number_value};
use std::alloc::{AllocError, Global};

// The token as the grammar sees it.
fn piece_of(text: &str, token: Token) -> Piece<'_>
    requires { StandsIn text.now token }
    ensures { token_of result ≡ as_token text.now token }
{
    let word = &text[token.at.0 as usize..token.end.0 as usize];
    let word = match token.kind {
        TokenKind::Name => Word::Name(word),
        TokenKind::Number => Word::Number(number_value(word.as_bytes()).unwrap()),
        TokenKind::Keyword | TokenKind::Symbol => Word::Sign(sign_named(word)),
    };
    Piece { at: token.at, word }
}

/// The tokens of the text as the grammar sees them.
pub fn pieces_of<'a>(
    alloc: Global,
    text: &'a str,
    tokens: &[Token],
) -> Result<Vec<Piece<'a>>, AllocError>
    requires { All (StandsIn text.now) tokens.now }
    ensures { IfOk result (λ ps. pieces ps.items ≡ map (as_token text.now) tokens.now) }
{
    let mut pieces = Vec::with_capacity(alloc, tokens.len())?;
    for token in tokens {
        pieces.push(piece_of(text, *token))?;
    }
    Ok(pieces)
}
