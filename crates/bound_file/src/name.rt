// Names of functions in texts.
ghost use Rattle.std.specs.Prelude.{◌≡◌, ◌<◌, ◌^◌, length, IfOk};
ghost use Rattle.bound_file.specs.Reading.{is_name};
ghost use Rattle.bound_file.specs.Names.{is_whole_name, is_want};

use raml_lex::{LexFault, Token, TokenKind, tokens};
use std::alloc::{AllocError, Global};

// Whether the tokens are one, a name of this many bytes.
fn is_whole_name(tokens: &[Token], len: usize) -> bool
    ensures { result ≡ is_whole_name tokens.now len }
{
    match tokens {
        [token] => {
            matches!(token.kind, TokenKind::Name) && token.at.0 == 0 && token.end.0 as usize == len
        }
        _ => false,
    }
}

fn is_want(fault: LexFault) -> bool
    ensures { result ≡ is_want fault }
{
    matches!(fault, LexFault::NoMemory)
}

/// Whether the word is a name, and no keyword.
pub fn is_name(alloc: Global, word: &str) -> Result<bool, AllocError>
    requires { length word.now < 2 ^ 31 }
    ensures { IfOk result (λ is. is ≡ is_name word.now) }
{
    match tokens(alloc, word) {
        Ok(found) => Ok(is_whole_name(&found, word.len())),
        Err(fault) => {
            if is_want(fault) {
                Err(AllocError)
            } else {
                Ok(false)
            }
        }
    }
}
