// Programs from bytes.
ghost use Rattle.std.specs.Prelude.{◌≡◌, ◌≤◌, ◌<◌, ◌^◌, ◌⊎◌, length, IfOk, IfErr};
ghost use Rattle.std.specs.Str.{IsUtf8};
ghost use Rattle.std.specs.List.{All};
ghost use Rattle.raml_syntax.specs.Tree.{Function};
ghost use Rattle.raml_syntax.specs.Read.{program_of};
ghost use Rattle.raml_syntax.specs.Node.{WithinLimits, program_nodes};
ghost use Rattle.raml_parse.specs.Spelling.{Spells, FirstFault, HasOneAnswer};
ghost use Rattle.raml_parse.specs.declared.fault.ParseFault.TheVariants.{NoMemory};

use crate::fault::ParseFault;
use crate::whole::{fault_of, parse_tokens};
use parse_table::pieces::pieces_of;
use raml_lex::{LexFault, tokens};
use raml_syntax::{Pos, Program};
use std::alloc::Global;

// The program that a text spells, or its first fault behind that of bytes that are no text.
fn parse_text(alloc: Global, text: &str) -> Result<Program, ParseFault>
    requires utf8 { IsUtf8 text.now }
    requires short { length text.now < 2 ^ 31 }
    ensures spelled { IfOk result (λ p. Spells text.now (program_of p)) }
    ensures fault { IfErr result (λ fault. (fault ≡ NoMemory) ⊎ FirstFault text.now fault) }
    ensures limits { IfOk result (λ p. WithinLimits (program_of p)) }
    ensures parameters { IfOk result (λ p. All (λ (g : Function). 1 ≤ length g.params) (program_of p)) }
    ensures few_nodes { IfOk result (λ p. program_nodes (program_of p) ≤ length text.now) }
{
    let tokens = match tokens(alloc, text) {
        Ok(tokens) => tokens,
        Err(LexFault::NoMemory) => return Err(ParseFault::NoMemory),
        Err(fault) => return Err(ParseFault::Lex(fault)),
    };
    let pieces = pieces_of(alloc, text, &tokens)?;
    match parse_tokens(alloc, &pieces) {
        Ok(program) => Ok(program),
        Err(stop) => Err(fault_of(stop, text.len() as u32)),
    }
}

/// The program that the bytes of a source spell. They are fewer than 2^31.
///
/// # Errors
///
/// The first fault of the bytes, or `NoMemory`.
pub fn parse(alloc: Global, source: &[u8]) -> Result<Program, ParseFault>
    requires { length source.now < 2 ^ 31 }
    ensures spelled { IfOk result (λ p. Spells source.now (program_of p)) }
    ensures fault { IfErr result (λ fault. (fault ≡ NoMemory) ⊎ FirstFault source.now fault) }
    // so each comes exactly where the bytes have that answer, or memory runs out
    ensures one_answer { HasOneAnswer source.now }
    ensures limits { IfOk result (λ p. WithinLimits (program_of p)) }
    ensures parameters { IfOk result (λ p. All (λ (g : Function). 1 ≤ length g.params) (program_of p)) }
    ensures few_nodes { IfOk result (λ p. program_nodes (program_of p) ≤ length source.now) }
{
    match std::str::from_utf8(source) {
        Ok(text) => parse_text(alloc, text),
        Err(error) => Err(ParseFault::NotUtf8 {
            at: Pos(error.valid_up_to() as u32),
        }),
    }
}
