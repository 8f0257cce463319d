// The tokens of texts.
ghost use Rattle.std.specs.Prelude.{◌≡◌, ◌<◌, ◌^◌, length, IfOk};
ghost use Rattle.explain_scopes.specs.Read.{AreLexed, AreTokens};

use parse_table::pieces::pieces_of;
use parse_table::token::Piece;
use raml_lex::{LexFault, Token, tokens};
use std::alloc::{AllocError, Global};

/// How many bytes a source has at most.
pub const MOST_BYTES: usize = 0x7fff_ffff;

/// The tokens of a text; none where it has none.
pub fn lexed(alloc: Global, text: &str) -> Result<Option<Vec<Token>>, AllocError>
    requires { length text.now < 2 ^ 31 }
    ensures { IfOk result (AreLexed text.now) }
{
    match tokens(alloc, text) {
        Ok(tokens) => Ok(Some(tokens)),
        Err(LexFault::NoMemory) => Err(AllocError),
        Err(LexFault::BadChar { .. }) => Ok(None),
        Err(LexFault::NumberTooWide { .. }) => Ok(None),
        Err(LexFault::OpenComment { .. }) => Ok(None),
    }
}

/// The same as the grammar sees them.
pub fn tokens_in<'a>(alloc: Global, text: &'a str) -> Result<Option<Vec<Piece<'a>>>, AllocError>
    requires { length text.now < 2 ^ 31 }
    ensures { IfOk result (AreTokens text.now) }
{
    match lexed(alloc, text)? {
        Some(tokens) => Ok(Some(pieces_of(alloc, text, &tokens)?)),
        None => Ok(None),
    }
}

/// The same of bytes that may be no text.
pub fn tokens_of<'a>(alloc: Global, bytes: &'a [u8]) -> Result<Option<Vec<Piece<'a>>>, AllocError>
    requires { length bytes.now < 2 ^ 31 }
    ensures { IfOk result (AreTokens bytes.now) }
{
    match std::str::from_utf8(bytes) {
        Ok(text) => tokens_in(alloc, text),
        Err(_) => Ok(None),
    }
}
