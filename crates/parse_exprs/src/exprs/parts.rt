// Expressions that are parts of others, with the tokens at their sides.
ghost use Rattle.std.specs.Prelude.{◌≤◌, ◌<◌, ◌^◌, IfOk};
ghost use Rattle.parse_spec.specs.Reading.{read};
ghost use Rattle.parse_table.specs.Table.{grammar, Exprs, expr_level};
ghost use Rattle.parse_table.specs.Read.{Gives, pieces, boxed};
ghost use Rattle.parse_exprs.specs.Phrases.{part_before, part_behind, two_parts, both_boxed};

use crate::exprs::{EXPR, parse_expr};
use parse_table::stop::Stop;
use parse_table::take::take_sign;
use parse_table::token::{Piece, Sign};
use raml_syntax::Expr;
use std::alloc::Global;

/// An expression in a box, as a part of another, its height, and the tokens behind it.
pub type Boxed<'a> = Result<(Box<Expr>, u32, &'a [Piece<'a>]), Stop<'a>>;

/// Two of them, in order, the greater height, and the tokens behind them.
pub type BothBoxed<'a> = Result<(Box<Expr>, Box<Expr>, u32, &'a [Piece<'a>]), Stop<'a>>;

/// A part of another expression, or the body of a function.
#[cycle(expression)]
pub fn parse_part<'a>(alloc: Global, depth: u32, tokens: &'a [Piece<'a>]) -> Boxed<'a>
    requires { depth < 2 ^ 30 }
    ensures same { Gives boxed result (read grammar 0 depth Exprs expr_level (pieces tokens.now)) }
    ensures low { IfOk result (λ x. x.1 ≤ depth) }
{
    let (part, height, rest) = parse_expr(alloc, EXPR, depth, tokens)?;
    Ok((Box::new(alloc, part)?, height, rest))
}

/// A part that stands before this keyword or symbol.
#[cycle(expression)]
pub fn parse_before<'a>(alloc: Global, depth: u32, sign: Sign, tokens: &'a [Piece<'a>]) -> Boxed<'a>
    requires { depth < 2 ^ 30 }
    ensures same { Gives boxed result (part_before depth sign (pieces tokens.now)) }
    ensures low { IfOk result (λ x. x.1 ≤ depth) }
{
    let (part, height, rest) = parse_part(alloc, depth, tokens)?;
    let rest = take_sign(rest, sign)?;
    Ok((part, height, rest))
}

/// A part that stands behind this keyword or symbol.
#[cycle(expression)]
pub fn parse_after<'a>(alloc: Global, depth: u32, sign: Sign, tokens: &'a [Piece<'a>]) -> Boxed<'a>
    requires { depth < 2 ^ 30 }
    ensures same { Gives boxed result (part_behind depth sign (pieces tokens.now)) }
    ensures low { IfOk result (λ x. x.1 ≤ depth) }
{
    let rest = take_sign(tokens, sign)?;
    parse_part(alloc, depth, rest)
}

/// Two parts with this keyword or symbol between them.
#[cycle(expression)]
pub fn parse_two<'a>(
    alloc: Global,
    depth: u32,
    sign: Sign,
    tokens: &'a [Piece<'a>],
) -> BothBoxed<'a>
    requires { depth < 2 ^ 30 }
    ensures same { Gives both_boxed result (two_parts depth sign (pieces tokens.now)) }
    ensures low { IfOk result (λ x. x.2 ≤ depth) }
{
    let (first, height, rest) = parse_before(alloc, depth, sign, tokens)?;
    let (second, part, rest) = parse_part(alloc, depth, rest)?;
    Ok((first, second, height.max(part), rest))
}
