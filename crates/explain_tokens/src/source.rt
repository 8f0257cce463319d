// The tokens of sources that may be none.
use raml_lex::{LexFault, Token, tokens};
use std::alloc::{AllocError, Global};

/// How many bytes a source has at most.
const MOST_BYTES: usize = 0x7fff_ffff;

/// The tokens of a source. None where it has none, or 2 GiB and more.
pub fn source_tokens(alloc: Global, source: &[u8]) -> Result<Option<Vec<Token>>, AllocError> {
    if source.len() > MOST_BYTES {
        return Ok(None);
    }
    match std::str::from_utf8(source) {
        Ok(text) => match tokens(alloc, text) {
            Ok(tokens) => Ok(Some(tokens)),
            Err(LexFault::NoMemory) => Err(AllocError),
            Err(_) => Ok(None),
        },
        Err(_) => Ok(None),
    }
}
