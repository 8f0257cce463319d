// Variables and calls.
ghost use Rattle.std.specs.Prelude.{◌≤◌, ◌<◌, ◌^◌, suc, [], ◌∷◌, IfOk};
ghost use Rattle.parse_spec.specs.Rules.{Done};
ghost use Rattle.parse_spec.specs.Reading.{list_of, formed};
ghost use Rattle.parse_table.specs.Table.{expr, key, inner_act, args_rule, name_rule, At};
ghost use Rattle.parse_table.specs.Steps.{reads};
ghost use Rattle.parse_table.specs.Read.{Gives, pieces, phrase, phrases};
ghost use Rattle.parse_table.specs.declared.token.Sign.TheVariants.{Comma};

use crate::exprs::{EXPR, Found, parse_expr};
use parse_spec::Kind;
use parse_table::make;
use parse_table::stop::Stop;
use parse_table::take::{behind, take_sign};
use parse_table::token::{Piece, Sign};
use raml_syntax::{Expr, Pos};
use std::alloc::Global;

const MAX_ARGS: usize = 8;

/// A variable, or a call.
#[cycle(expression)]
pub fn parse_name<'a>(
    alloc: Global,
    depth: u32,
    at: Pos,
    name: &str,
    tokens: &'a [Piece<'a>],
) -> Found<'a>
    requires { suc depth < 2 ^ 30 }
    ensures same { Gives phrase result (formed (reads depth (name_rule name.now) (At at.0 ∷ []) (pieces tokens.now))) }
    ensures low { IfOk result (λ x. x.1 ≤ suc depth) }
{
    match behind(tokens, Sign::Open) {
        None => Ok((make::variable(alloc, at, name)?, 1, tokens)),
        Some(_) if depth == 0 => Err(Stop::Fault(Kind::TooDeep, tokens)),
        Some(rest) => parse_call(alloc, depth, at, name, rest),
    }
}

// The arguments of a call.
#[cycle(expression)]
fn parse_call<'a>(
    alloc: Global,
    depth: u32,
    at: Pos,
    name: &str,
    tokens: &'a [Piece<'a>],
) -> Found<'a>
    requires { suc depth < 2 ^ 30 }
    ensures same { Gives phrase result (formed (reads depth (args_rule name.now) (At at.0 ∷ []) (pieces tokens.now))) }
    ensures low { IfOk result (λ x. x.1 ≤ suc depth) }
{
    let (args, height, rest) = parse_args(alloc, depth, tokens)?;
    let rest = take_sign(rest, Sign::Close)?;
    Ok((make::call(alloc, at, name, args)?, 1 + height, rest))
}

// An argument.
#[cycle(expression)]
fn parse_arg<'a>(alloc: Global, depth: u32, tokens: &'a [Piece<'a>]) -> Found<'a>
    requires { depth < 2 ^ 30 }
    ensures same { Gives phrase result (reads depth (expr (Done inner_act)) [] (pieces tokens.now)) }
    ensures low { IfOk result (λ x. x.1 ≤ depth) }
{
    parse_expr(alloc, EXPR, depth, tokens)
}

// Arguments with commas between.
#[cycle(expression)]
#[tactic(auto, unfolding(parse_spec::specs::Reading::items_of))]
fn parse_args<'a>(
    alloc: Global,
    depth: u32,
    tokens: &'a [Piece<'a>],
) -> Result<(Vec<Expr>, u32, &'a [Piece<'a>]), Stop<'a>>
    requires { depth < 2 ^ 30 }
    ensures same { Gives phrases result (list_of (reads depth (expr (Done inner_act)) []) (key Comma) 7 (pieces tokens.now)) }
    ensures low { IfOk result (λ x. x.1 ≤ depth) }
{
    let (first, mut height, mut rest) = parse_arg(alloc, depth, tokens)?;
    let mut args = Vec::new(alloc);
    args.push(first)?;
    while let Some(next) = behind(rest, Sign::Comma) {
        if args.len() == MAX_ARGS {
            return Err(Stop::Fault(Kind::TooMany, rest));
        }
        let (arg, part, after) = parse_arg(alloc, depth, next)?;
        args.push(arg)?;
        height = height.max(part);
        rest = after;
    }
    Ok((args, height, rest))
}
