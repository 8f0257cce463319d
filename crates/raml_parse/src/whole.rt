// All the tokens of a text.
ghost use Rattle.std.specs.Prelude.{◌≡◌, IfOk};
ghost use Rattle.parse_spec.specs.Reading.{ended};
ghost use Rattle.parse_table.specs.Table.{Whole};
ghost use Rattle.parse_table.specs.Steps.{program_in};
ghost use Rattle.raml_syntax.specs.Read.{program_of};
ghost use Rattle.parse_table.specs.Read.{Gives, HaveParameters, pieces};
ghost use Rattle.raml_parse.specs.Reports.{IsAt, Reports};
ghost use Rattle.raml_parse.specs.Spelling.{place_in};

use crate::fault::ParseFault;
use crate::program::parse_program;
use parse_spec::Kind;
use parse_table::stop::Stop;
use parse_table::token::Piece;
use raml_syntax::{Pos, Program};
use std::alloc::Global;

/// The greatest height of a body and of a type.
const MAX_HEIGHT: u32 = 200;

// The program, where no token is left.
fn ended<'a>(program: Program, rest: &'a [Piece<'a>]) -> Result<Program, Stop<'a>>
    requires some { HaveParameters program.funs.items }
    ensures same { Gives (λ p. Whole (program_of p)) result (ended (Whole (program_of program)) (pieces rest.now)) }
    ensures some { IfOk result (λ p. HaveParameters p.funs.items) }
{
    if rest.is_empty() {
        Ok(program)
    } else {
        Err(Stop::Fault(Kind::Syntax, rest))
    }
}

/// The program of all the tokens.
pub fn parse_tokens<'a>(alloc: Global, tokens: &'a [Piece<'a>]) -> Result<Program, Stop<'a>>
    ensures same { Gives (λ p. Whole (program_of p)) result (program_in 200 (pieces tokens.now)) }
    ensures some { IfOk result (λ p. HaveParameters p.funs.items) }
{
    let (program, _, rest) = parse_program(alloc, MAX_HEIGHT, tokens)?;
    ended(program, rest)
}

/// The fault of a text of `end` bytes.
pub fn fault_of(stop: Stop, end: u32) -> ParseFault
    ensures { Reports end stop.entry result }
{
    match stop {
        Stop::Fault(kind, rest) => fault_at(kind, place_in(rest, end)),
        Stop::NoMemory => ParseFault::NoMemory,
    }
}

// The place of the first token, or the end.
fn place_in(tokens: &[Piece], end: u32) -> Pos
    ensures { result.0 ≡ place_in end (pieces tokens.now) }
{
    match tokens {
        [first, ..] => first.at,
        [] => Pos(end),
    }
}

fn fault_at(kind: Kind, at: Pos) -> ParseFault
    ensures { IsAt kind at.0 result }
{
    match kind {
        Kind::Syntax => ParseFault::Syntax { at },
        Kind::TooDeep => ParseFault::TooDeep { at },
        Kind::TooMany => ParseFault::TooMany { at },
    }
}
