// All tokens of a text.
ghost use Rattle.std.specs.Prelude.{◌≡◌, ◌≤◌, ◌<◌, ◌^◌, ◌⊎◌, length, vec_len, All, IfOk, IfErr};
ghost use Rattle.raml_lex.specs.declared.token.LexFault.TheVariants.{NoMemory};
ghost use Rattle.raml_lex.specs.Lexing.{Spelled, FirstFault, StandsIn, AreInOrder, HasOneAnswer};

use crate::piece::{Piece, first_piece};
use crate::token::{LexFault, Token};
use raml_syntax::Pos;
use std::alloc::Global;

/// The tokens of the text, in order, by longest match.
///
/// White space and comments separate tokens. A comment begins with `(*`, also in `(*)`, ends with the
/// `*)` that belongs to it, and may hold others. The text is shorter than 2 GiB.
///
/// # Errors
///
/// The first fault of the text, or `NoMemory`.
pub fn tokens(alloc: Global, text: &str) -> Result<Vec<Token>, LexFault>
    requires { length text.now < 2 ^ 31 }
    ensures spelled { IfOk result (λ ts. Spelled text.now ts.items) }
    ensures fault { IfErr result (λ fault. (fault ≡ NoMemory) ⊎ FirstFault text.now fault) }
    // so each comes exactly where the text has that answer, or memory runs out
    ensures one_answer { HasOneAnswer text.now }
    ensures words { IfOk result (λ ts. All (StandsIn text.now) ts.items) }
    ensures order { IfOk result (λ ts. AreInOrder ts.items) }
    ensures few { IfOk result (λ ts. vec_len ts ≤ length text.now) }
{
    let bytes = text.as_bytes();
    let mut tokens = Vec::new(alloc);
    let mut at: usize = 0;
    while at < bytes.len() {
        match first_piece(&bytes[at..], Pos(at as u32))? {
            Piece::Gap(len) => at += len,
            Piece::Word(kind, len) => {
                let end = at + len;
                tokens.push(Token {
                    at: Pos(at as u32),
                    end: Pos(end as u32),
                    kind,
                })?;
                at = end;
            }
        }
    }
    Ok(tokens)
}
