// Sources and their names.
ghost use Rattle.std.specs.Prelude.{◌<◌, ◌^◌, length, IfOk};
ghost use Rattle.raml_syntax.specs.Read.{program_of};
ghost use Rattle.raml_parse.specs.Spelling.{Spells};
ghost use Rattle.explain_scopes.specs.Sources.{AreNamesOf};
ghost use Rattle.explain_scopes.specs.Read.{IsProgram, IsRead, IsReadOf, occurrences_of};

use crate::lexed::{MOST_BYTES, tokens_of};
use crate::occurrence::Occurrence;
use crate::program::occurrences;
use parse_table::token::Piece;
use raml_parse::{ParseFault, parse};
use raml_syntax::Program;
use std::alloc::{AllocError, Global};

/// A source with its program and its tokens.
#[derive(Drop)]
pub struct Source<'a> {
    pub bytes: &'a [u8],
    pub program: Program,
    pub tokens: Vec<Piece<'a>>,
}

/// The program of a source; none where it spells none.
fn program_in(alloc: Global, source: &[u8]) -> Result<Option<Program>, AllocError>
    requires { length source.now < 2 ^ 31 }
    ensures { IfOk result (IsProgram source.now) }
{
    match parse(alloc, source) {
        Ok(program) => Ok(Some(program)),
        Err(ParseFault::NoMemory) => Err(AllocError),
        Err(ParseFault::NotUtf8 { .. }) => Ok(None),
        Err(ParseFault::Lex(_)) => Ok(None),
        Err(ParseFault::Syntax { .. }) => Ok(None),
        Err(ParseFault::TooDeep { .. }) => Ok(None),
        Err(ParseFault::TooMany { .. }) => Ok(None),
    }
}

/// A program with the tokens of its text.
fn with_tokens<'a>(
    alloc: Global,
    bytes: &'a [u8],
    program: Program,
) -> Result<Option<Source<'a>>, AllocError>
    requires short { length bytes.now < 2 ^ 31 }
    requires spelled { Spells bytes.now (program_of program) }
    ensures { IfOk result (IsRead bytes.now) }
{
    match tokens_of(alloc, bytes)? {
        Some(tokens) => Ok(Some(Source {
            bytes,
            program,
            tokens,
        })),
        None => Ok(None),
    }
}

/// What is read of a source; none where it spells no program.
pub fn read(alloc: Global, source: &[u8]) -> Result<Option<Source<'_>>, AllocError>
    ensures { IfOk result (IsRead source.now) }
{
    if source.len() > MOST_BYTES {
        return Ok(None);
    }
    match program_in(alloc, source)? {
        Some(program) => with_tokens(alloc, source, program),
        None => Ok(None),
    }
}

/// The names of a source.
pub fn names<'r>(alloc: Global, read: &'r Source<'_>) -> Result<Vec<Occurrence<'r>>, AllocError>
    requires { IsReadOf read.now }
    ensures { IfOk result (λ found. AreNamesOf read.now.bytes.now (program_of read.now.program) (occurrences_of found.items)) }
{
    occurrences(alloc, &read.program, &read.tokens)
}
