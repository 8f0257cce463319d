// Functions and programs from tokens.
ghost use Rattle.std.specs.Prelude.{◌≡◌, ◌≤◌, ◌<◌, ◌^◌, [], ◌∷◌, ◌++◌, length, IfOk};
ghost use Rattle.parse_spec.specs.Reading.{list_of};
ghost use Rattle.parse_table.specs.Table.{param_rule, params_rule, body_rule, function_rule, text_rule, key, place};
ghost use Rattle.parse_table.specs.Steps.{reads};
ghost use Rattle.parse_table.specs.Read.{Gives, StartsAt, HaveParameters, pieces, header, headers, headers_back, function, functions};
ghost use Rattle.parse_table.specs.Read.{whole, named_part};
ghost use Rattle.parse_table.specs.declared.token.Sign.TheVariants as s;

use parse_exprs::parse_part;
use parse_spec::Kind;
use parse_table::make;
use parse_table::stop::Stop;
use parse_table::take::{NameAt, behind, place_behind, take_name, take_place, take_sign};
use parse_table::token::{Piece, Sign};
use parse_table::types::parse_type;
use raml_syntax::{Fun, Param, Pos, Program};
use std::alloc::Global;

const MAX_PARAMS: usize = 8;

const MAX_FUNCTIONS: usize = 256;

/// A function, the height of its types and its body, and the tokens behind it.
type FoundFunction<'a> = Result<(Fun, u32, &'a [Piece<'a>]), Stop<'a>>;

// A parameter with a type of height `depth` at most.
fn parse_param<'a>(
    alloc: Global,
    depth: u32,
    tokens: &'a [Piece<'a>],
) -> Result<(Param, u32, &'a [Piece<'a>]), Stop<'a>>
    requires { depth < 2 ^ 30 }
    ensures same { Gives header result (reads depth param_rule [] (pieces tokens.now)) }
    ensures low { IfOk result (λ x. x.1 ≤ depth) }
{
    let (name, rest) = take_name(tokens)?;
    let rest = take_sign(rest, Sign::Colon)?;
    let (ty, height, rest) = parse_type(alloc, depth, rest)?;
    Ok((make::parameter(alloc, name, ty)?, height, rest))
}

// Parameters with commas between.
#[tactic(auto, unfolding(parse_spec::specs::Reading::items_of))]
fn parse_params<'a>(
    alloc: Global,
    depth: u32,
    tokens: &'a [Piece<'a>],
) -> Result<(Vec<Param>, u32, &'a [Piece<'a>]), Stop<'a>>
    requires { depth < 2 ^ 30 }
    ensures same { Gives headers result (list_of (reads depth param_rule []) (key s.Comma) 7 (pieces tokens.now)) }
    ensures low { IfOk result (λ x. x.1 ≤ depth) }
    ensures some { IfOk result (λ x. 1 ≤ length x.0.items) }
{
    let (first, mut height, mut rest) = parse_param(alloc, depth, tokens)?;
    let mut params = Vec::new(alloc);
    params.push(first)?;
    while let Some(next) = behind(rest, Sign::Comma) {
        if params.len() == MAX_PARAMS {
            return Err(Stop::Fault(Kind::TooMany, rest));
        }
        let (param, part, after) = parse_param(alloc, depth, next)?;
        params.push(param)?;
        height = height.max(part);
        rest = after;
    }
    Ok((params, height, rest))
}

// What stands behind the parameters of the function whose `fun` stands at `at`.
fn parse_body<'a>(
    alloc: Global,
    depth: u32,
    at: Pos,
    name: NameAt,
    params: Vec<Param>,
    tokens: &'a [Piece<'a>],
) -> FoundFunction<'a>
    requires depth { depth < 2 ^ 30 }
    requires some { 1 ≤ length params.items }
    ensures same { Gives function result
        (reads depth body_rule (headers_back params.items ++ named_part name.entry ∷ []) (pieces tokens.now)) }
    ensures low { IfOk result (λ x. x.1 ≤ depth) }
    ensures place { IfOk result (λ x. x.0.at ≡ at) }
    ensures some { IfOk result (λ x. 1 ≤ length x.0.params.items) }
{
    let rest = take_sign(tokens, Sign::Close)?;
    let rest = take_sign(rest, Sign::Colon)?;
    let (ty, height, rest) = parse_type(alloc, depth, rest)?;
    let rest = take_sign(rest, Sign::Equal)?;
    let (body, body_height, rest) = parse_part(alloc, depth, rest)?;
    let function = make::function(alloc, at, name, params, ty, body)?;
    Ok((function, height.max(body_height), rest))
}

// What stands behind the `(` of a function.
fn parse_params_and_body<'a>(
    alloc: Global,
    depth: u32,
    at: Pos,
    name: NameAt,
    tokens: &'a [Piece<'a>],
) -> FoundFunction<'a>
    requires { depth < 2 ^ 30 }
    ensures same { Gives function result (reads depth params_rule (named_part name.entry ∷ []) (pieces tokens.now)) }
    ensures low { IfOk result (λ x. x.1 ≤ depth) }
    ensures place { IfOk result (λ x. x.0.at ≡ at) }
    ensures some { IfOk result (λ x. 1 ≤ length x.0.params.items) }
{
    let (params, height, rest) = parse_params(alloc, depth, tokens)?;
    let (function, body_height, rest) = parse_body(alloc, depth, at, name, params, rest)?;
    Ok((function, height.max(body_height), rest))
}

// What stands behind the `fun` at `at`.
fn parse_function<'a>(
    alloc: Global,
    depth: u32,
    at: Pos,
    tokens: &'a [Piece<'a>],
) -> FoundFunction<'a>
    requires { depth < 2 ^ 30 }
    ensures same { Gives function result (reads depth function_rule [] (pieces tokens.now)) }
    ensures low { IfOk result (λ x. x.1 ≤ depth) }
    ensures place { IfOk result (λ x. x.0.at ≡ at) }
    ensures some { IfOk result (λ x. 1 ≤ length x.0.params.items) }
{
    let (name, rest) = take_name(tokens)?;
    let rest = take_sign(rest, Sign::Open)?;
    parse_params_and_body(alloc, depth, at, name, rest)
}

// Functions, the first `fun` taken, which stood at `at`.
#[tactic(auto, unfolding(parse_spec::specs::Reading::items_of))]
fn parse_functions<'a>(
    alloc: Global,
    depth: u32,
    at: Pos,
    tokens: &'a [Piece<'a>],
) -> Result<(Vec<Fun>, u32, &'a [Piece<'a>]), Stop<'a>>
    requires { depth < 2 ^ 30 }
    ensures same { Gives functions result (list_of (reads depth function_rule []) (place s.Fun) 255 (pieces tokens.now)) }
    ensures low { IfOk result (λ x. x.1 ≤ depth) }
    ensures place { IfOk result (λ x. StartsAt at.0 x.0.items) }
    ensures some { IfOk result (λ x. HaveParameters x.0.items) }
{
    let (first, mut height, mut rest) = parse_function(alloc, depth, at, tokens)?;
    let mut funs = Vec::new(alloc);
    funs.push(first)?;
    while let Some((next_at, next)) = place_behind(rest, Sign::Fun) {
        if funs.len() == MAX_FUNCTIONS {
            return Err(Stop::Fault(Kind::TooMany, rest));
        }
        let (function, part, after) = parse_function(alloc, depth, next_at, next)?;
        funs.push(function)?;
        height = height.max(part);
        rest = after;
    }
    Ok((funs, height, rest))
}

/// A program with types and bodies of height `depth` at most, their height, and the tokens behind it.
#[tactic(auto, using(parse_table::proofs::Parts::program_is))]
pub fn parse_program<'a>(
    alloc: Global,
    depth: u32,
    tokens: &'a [Piece<'a>],
) -> Result<(Program, u32, &'a [Piece<'a>]), Stop<'a>>
    requires { depth < 2 ^ 30 }
    ensures same { Gives whole result (reads depth text_rule [] (pieces tokens.now)) }
    ensures low { IfOk result (λ x. x.1 ≤ depth) }
    ensures some { IfOk result (λ x. HaveParameters x.0.funs.items) }
{
    let (at, rest) = take_place(tokens, Sign::Fun)?;
    let (funs, height, rest) = parse_functions(alloc, depth, at, rest)?;
    Ok((Program { funs }, height, rest))
}
