// Operators and their operands.
ghost use Rattle.std.specs.Prelude.{◌≤◌, ◌<◌, ◌^◌, suc, [], ◌∷◌, IfOk};
ghost use Rattle.raml_syntax.specs.Read.{term_of};
ghost use Rattle.parse_table.specs.Table.{Exprs, At, Phrase};
ghost use Rattle.parse_table.specs.Steps.{reads, more_on, behind_of, operators_of};
ghost use Rattle.parse_table.specs.Forms.{infix_rule};
ghost use Rattle.parse_table.specs.Read.{Gives, pieces, phrase, term_in};

use crate::exprs::{Found, parse_expr, parse_level};
use parse_spec::Kind;
use parse_table::form::Infix;
use parse_table::make;
use parse_table::stop::Stop;
use parse_table::token::Piece;
use raml_syntax::{Expr, Pos};
use std::alloc::Global;

/// An expression of this level, with the operators behind it.
#[cycle(expression)]
pub fn parse_operators<'a>(
    alloc: Global,
    level: u32,
    depth: u32,
    at: Pos,
    tokens: &'a [Piece<'a>],
) -> Found<'a>
    requires low { level ≤ 3 }
    requires shallow { suc depth < 2 ^ 30 }
    ensures same { Gives phrase result (operators_of depth level at.0 (pieces tokens.now)) }
    ensures low { IfOk result (λ x. x.1 ≤ suc depth) }
{
    let (left, height, rest) = parse_level(alloc, level, depth, tokens)?;
    parse_chain(alloc, level, depth, at, left, height, rest)
}

// The operators behind an expression of this level that begins at `at`.
#[cycle(expression)]
fn parse_chain<'a>(
    alloc: Global,
    level: u32,
    depth: u32,
    at: Pos,
    left: Expr,
    height: u32,
    tokens: &'a [Piece<'a>],
) -> Found<'a>
    requires low { level ≤ 3 }
    requires shallow { suc depth < 2 ^ 30 }
    requires high { height ≤ suc depth }
    ensures same { Gives phrase result (more_on Exprs depth level (At at.0 ∷ []) (Phrase (term_of left)) height (pieces tokens.now)) }
    ensures low { IfOk result (λ x. x.1 ≤ suc depth) }
{
    match Infix::at(tokens, level) {
        None => Ok((left, height, tokens)),
        Some((operator, rest)) => {
            let left = Box::new(alloc, left)?;
            if height > depth {
                return Err(Stop::Fault(Kind::TooDeep, tokens));
            }
            parse_behind(alloc, depth, at, operator, left, height, rest)
        }
    }
}

// The right operand of an operator, and the operators behind it.
#[cycle(expression)]
fn parse_behind<'a>(
    alloc: Global,
    depth: u32,
    at: Pos,
    operator: Infix,
    left: Box<Expr>,
    height: u32,
    tokens: &'a [Piece<'a>],
) -> Found<'a>
    requires shallow { suc depth < 2 ^ 30 }
    requires high { height ≤ depth }
    ensures same { Gives phrase result (behind_of depth operator (At at.0 ∷ []) (Phrase (term_in left)) height (pieces tokens.now)) }
    ensures low { IfOk result (λ x. x.1 ≤ suc depth) }
{
    let (joined, right_height, rest) = parse_operation(alloc, depth, at, operator, left, tokens)?;
    let height = 1 + height.max(right_height);
    if operator.chains() {
        parse_chain(alloc, operator.level(), depth, at, joined, height, rest)
    } else {
        Ok((joined, height, rest))
    }
}

// An operator's right operand, behind the left one, which begins at `at`.
#[cycle(expression)]
fn parse_operation<'a>(
    alloc: Global,
    depth: u32,
    at: Pos,
    operator: Infix,
    left: Box<Expr>,
    tokens: &'a [Piece<'a>],
) -> Found<'a>
    requires { depth < 2 ^ 30 }
    ensures same { Gives phrase result (reads depth (infix_rule operator) (Phrase (term_in left) ∷ At at.0 ∷ []) (pieces tokens.now)) }
    ensures low { IfOk result (λ x. x.1 ≤ depth) }
{
    let (right, height, rest) = parse_expr(alloc, operator.right_level(), depth, tokens)?;
    let right = Box::new(alloc, right)?;
    Ok((make::operation(at, operator, left, right), height, rest))
}
