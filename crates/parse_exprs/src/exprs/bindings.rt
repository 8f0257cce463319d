// `let`, `if` and `tick`.
ghost use Rattle.std.specs.Prelude.{◌≤◌, ◌<◌, ◌^◌, suc, [], ◌∷◌, IfOk};
ghost use Rattle.parse_spec.specs.Reading.{formed};
ghost use Rattle.parse_table.specs.Table.{tick_rule, At};
ghost use Rattle.parse_table.specs.Steps.{reads};
ghost use Rattle.parse_table.specs.Read.{Gives, pieces, phrase};
ghost use Rattle.parse_exprs.specs.Phrases.{let_of, let_one_of, let_pair_of, if_of};

use crate::exprs::Found;
use crate::exprs::parts::{parse_before, parse_part, parse_two};
use parse_table::front::{take_name_then, take_pair};
use parse_table::make;
use parse_table::take::{behind, take_number, take_sign};
use parse_table::token::{Piece, Sign};
use raml_syntax::Pos;
use std::alloc::Global;

const MAX_TICK: u32 = 1_000_000;

/// What stands behind `let`.
#[cycle(expression)]
pub fn parse_let<'a>(alloc: Global, depth: u32, at: Pos, tokens: &'a [Piece<'a>]) -> Found<'a>
    requires shallow { suc depth < 2 ^ 30 }
    requires deep { 0 < depth }
    ensures same { Gives phrase result (let_of depth at.0 (pieces tokens.now)) }
    ensures low { IfOk result (λ x. x.1 ≤ suc depth) }
{
    match behind(tokens, Sign::Open) {
        None => parse_let_one(alloc, depth, at, tokens),
        Some(rest) => parse_let_pair(alloc, depth, at, rest),
    }
}

// What stands behind the `let` of one name.
#[cycle(expression)]
fn parse_let_one<'a>(alloc: Global, depth: u32, at: Pos, tokens: &'a [Piece<'a>]) -> Found<'a>
    requires { suc depth < 2 ^ 30 }
    ensures same { Gives phrase result (let_one_of depth at.0 (pieces tokens.now)) }
    ensures low { IfOk result (λ x. x.1 ≤ suc depth) }
{
    let (x, rest) = take_name_then(tokens, Sign::Equal)?;
    let (bound, body, height, rest) = parse_two(alloc, depth, Sign::In, rest)?;
    let whole = make::binding(alloc, at, x, bound, body)?;
    Ok((whole, 1 + height, rest))
}

// What stands behind the `let (` of two names.
#[cycle(expression)]
fn parse_let_pair<'a>(alloc: Global, depth: u32, at: Pos, tokens: &'a [Piece<'a>]) -> Found<'a>
    requires { suc depth < 2 ^ 30 }
    ensures same { Gives phrase result (let_pair_of depth at.0 (pieces tokens.now)) }
    ensures low { IfOk result (λ x. x.1 ≤ suc depth) }
{
    let (x, y, rest) = take_pair(tokens)?;
    let (bound, body, height, rest) = parse_two(alloc, depth, Sign::In, rest)?;
    let whole = make::pair_binding(alloc, at, x, y, bound, body)?;
    Ok((whole, 1 + height, rest))
}

/// What stands behind `if`.
#[cycle(expression)]
pub fn parse_if<'a>(alloc: Global, depth: u32, at: Pos, tokens: &'a [Piece<'a>]) -> Found<'a>
    requires { suc depth < 2 ^ 30 }
    ensures same { Gives phrase result (if_of depth at.0 (pieces tokens.now)) }
    ensures low { IfOk result (λ x. x.1 ≤ suc depth) }
{
    let (condition, height, rest) = parse_before(alloc, depth, Sign::Then, tokens)?;
    let (first, second, part, rest) = parse_two(alloc, depth, Sign::Else, rest)?;
    let whole = make::choice(at, condition, first, second);
    Ok((whole, 1 + height.max(part), rest))
}

/// What stands behind `tick`.
#[cycle(expression)]
pub fn parse_tick<'a>(alloc: Global, depth: u32, at: Pos, tokens: &'a [Piece<'a>]) -> Found<'a>
    requires { suc depth < 2 ^ 30 }
    ensures same { Gives phrase result (formed (reads depth tick_rule (At at.0 ∷ []) (pieces tokens.now))) }
    ensures low { IfOk result (λ x. x.1 ≤ suc depth) }
{
    let (count, rest) = take_number(tokens, MAX_TICK)?;
    let rest = take_sign(rest, Sign::In)?;
    let (body, height, rest) = parse_part(alloc, depth, rest)?;
    Ok((make::tick(at, count, body), 1 + height, rest))
}
