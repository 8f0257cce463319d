// What stands in parentheses.
ghost use Rattle.std.specs.Prelude.{◌≤◌, ◌<◌, ◌^◌, suc, [], ◌∷◌, IfOk};
ghost use Rattle.parse_spec.specs.Reading.{formed};
ghost use Rattle.parse_table.specs.Table.{parens_rule, closing_rule, inner_rule, pair_rule, typed_rule, At, Phrase};
ghost use Rattle.parse_table.specs.Steps.{reads};
ghost use Rattle.parse_table.specs.Read.{Gives, pieces, phrase, term_in};
ghost use Rattle.parse_exprs.specs.Phrases.{node_of, some_of};

use crate::exprs::Found;
use crate::exprs::parts::{parse_before, parse_part, parse_two};
use parse_table::make;
use parse_table::take::{behind, take_sign};
use parse_table::token::{Piece, Sign};
use parse_table::types::parse_type;
use raml_syntax::{Expr, Pos};
use std::alloc::Global;

/// What stands behind `node`.
#[cycle(expression)]
pub fn parse_node<'a>(alloc: Global, depth: u32, at: Pos, tokens: &'a [Piece<'a>]) -> Found<'a>
    requires { suc depth < 2 ^ 30 }
    ensures same { Gives phrase result (node_of depth at.0 (pieces tokens.now)) }
    ensures low { IfOk result (λ x. x.1 ≤ suc depth) }
{
    let rest = take_sign(tokens, Sign::Open)?;
    let (element, height, rest) = parse_before(alloc, depth, Sign::Comma, rest)?;
    let (left, right, part, rest) = parse_two(alloc, depth, Sign::Comma, rest)?;
    let rest = take_sign(rest, Sign::Close)?;
    Ok((
        make::node(at, element, left, right),
        1 + height.max(part),
        rest,
    ))
}

/// What stands behind `some`.
#[cycle(expression)]
pub fn parse_some<'a>(alloc: Global, depth: u32, at: Pos, tokens: &'a [Piece<'a>]) -> Found<'a>
    requires { suc depth < 2 ^ 30 }
    ensures same { Gives phrase result (some_of depth at.0 (pieces tokens.now)) }
    ensures low { IfOk result (λ x. x.1 ≤ suc depth) }
{
    let rest = take_sign(tokens, Sign::Open)?;
    let (content, height, rest) = parse_before(alloc, depth, Sign::Close, rest)?;
    Ok((make::just(at, content), 1 + height, rest))
}

/// What stands behind a `(`.
#[cycle(expression)]
pub fn parse_parens<'a>(alloc: Global, depth: u32, at: Pos, tokens: &'a [Piece<'a>]) -> Found<'a>
    requires shallow { suc depth < 2 ^ 30 }
    requires deep { 0 < depth }
    ensures same { Gives phrase result (formed (reads depth parens_rule (At at.0 ∷ []) (pieces tokens.now))) }
    ensures low { IfOk result (λ x. x.1 ≤ suc depth) }
{
    let (first, height, rest) = parse_part(alloc, depth, tokens)?;
    let (whole, second_height, rest) = parse_closing(alloc, depth, at, first, rest)?;
    Ok((whole, 1 + height.max(second_height), rest))
}

// What stands behind the first expression in parentheses.
#[cycle(expression)]
fn parse_closing<'a>(
    alloc: Global,
    depth: u32,
    at: Pos,
    first: Box<Expr>,
    tokens: &'a [Piece<'a>],
) -> Found<'a>
    requires shallow { depth < 2 ^ 30 }
    requires deep { 0 < depth }
    ensures same { Gives phrase result (reads depth closing_rule (Phrase (term_in first) ∷ At at.0 ∷ []) (pieces tokens.now)) }
    ensures low { IfOk result (λ x. x.1 ≤ depth) }
{
    if let Some(rest) = behind(tokens, Sign::Comma) {
        return parse_pair(alloc, depth, at, first, rest);
    }
    if let Some(rest) = behind(tokens, Sign::Colon) {
        return parse_typed(alloc, depth, at, first, rest);
    }
    parse_inner(depth, at, first, tokens)
}

// What stands behind the comma of a pair.
#[cycle(expression)]
fn parse_pair<'a>(
    alloc: Global,
    depth: u32,
    at: Pos,
    first: Box<Expr>,
    tokens: &'a [Piece<'a>],
) -> Found<'a>
    requires { depth < 2 ^ 30 }
    ensures same { Gives phrase result (reads depth pair_rule (Phrase (term_in first) ∷ At at.0 ∷ []) (pieces tokens.now)) }
    ensures low { IfOk result (λ x. x.1 ≤ depth) }
{
    let (second, height, rest) = parse_part(alloc, depth, tokens)?;
    let rest = take_sign(rest, Sign::Close)?;
    Ok((make::pair(at, first, second), height, rest))
}

// What stands behind the colon of an expression with its type.
fn parse_typed<'a>(
    alloc: Global,
    depth: u32,
    at: Pos,
    expr: Box<Expr>,
    tokens: &'a [Piece<'a>],
) -> Found<'a>
    requires { depth < 2 ^ 30 }
    ensures same { Gives phrase result (reads depth typed_rule (Phrase (term_in expr) ∷ At at.0 ∷ []) (pieces tokens.now)) }
    ensures low { IfOk result (λ x. x.1 ≤ depth) }
{
    let (ty, height, rest) = parse_type(alloc, depth, tokens)?;
    let rest = take_sign(rest, Sign::Close)?;
    Ok((make::typed(at, expr, ty), height, rest))
}

// The `)` behind an expression.
fn parse_inner<'a>(depth: u32, at: Pos, expr: Box<Expr>, tokens: &'a [Piece<'a>]) -> Found<'a>
    ensures same { Gives phrase result (reads depth inner_rule (Phrase (term_in expr) ∷ At at.0 ∷ []) (pieces tokens.now)) }
    ensures low { IfOk result (λ x. x.1 ≤ depth) }
{
    let rest = take_sign(tokens, Sign::Close)?;
    Ok((Box::into_inner(expr), 0, rest))
}
