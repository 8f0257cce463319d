// Expressions from tokens.
ghost use Rattle.std.specs.Prelude.{◌≤◌, ◌<◌, ◌^◌, suc, [], ◌∷◌, IfOk};
ghost use Rattle.parse_spec.specs.Reading.{read, level_of, formed};
ghost use Rattle.parse_table.specs.Table.{grammar, Exprs, not_rule, At};
ghost use Rattle.parse_table.specs.Steps.{reads, form_by};
ghost use Rattle.parse_table.specs.Forms.{start_rule, simple_rule, compound_rule};
ghost use Rattle.parse_table.specs.Read.{Gives, pieces, phrase};

mod bindings;
mod calls;
mod cases;
mod groups;
mod operators;
pub mod parts;

use crate::exprs::bindings::{parse_if, parse_let, parse_tick};
use crate::exprs::calls::parse_name;
use crate::exprs::cases::parse_match;
use crate::exprs::groups::{parse_node, parse_parens, parse_some};
use crate::exprs::operators::parse_operators;
use parse_spec::Kind;
use parse_table::form::{Compound, Simple, Start};
use parse_table::make;
use parse_table::stop::Stop;
use parse_table::take::first_place;
use parse_table::token::Piece;
use raml_syntax::{Expr, Pos};
use std::alloc::Global;

/// The highest level of expressions.
pub const EXPR: u32 = 4;

/// An expression, its height, and the tokens behind it.
pub type Found<'a> = Result<(Expr, u32, &'a [Piece<'a>]), Stop<'a>>;

/// An expression of this level, of height `depth` at most.
#[cycle(expression)]
pub fn parse_expr<'a>(alloc: Global, level: u32, depth: u32, tokens: &'a [Piece<'a>]) -> Found<'a>
    requires low { level ≤ 4 }
    requires shallow { depth < 2 ^ 30 }
    ensures same { Gives phrase result (read grammar 0 depth Exprs level (pieces tokens.now)) }
    ensures low { IfOk result (λ x. x.1 ≤ depth) }
{
    if depth == 0 {
        return Err(Stop::Fault(Kind::TooDeep, tokens));
    }
    parse_level(alloc, level, depth - 1, tokens)
}

/// An expression of this level with parts of height `depth` at most.
#[cycle(expression)]
pub fn parse_level<'a>(alloc: Global, level: u32, depth: u32, tokens: &'a [Piece<'a>]) -> Found<'a>
    requires low { level ≤ 4 }
    requires shallow { suc depth < 2 ^ 30 }
    ensures same { Gives phrase result (level_of grammar (read grammar 0 depth) 0 depth Exprs level (pieces tokens.now)) }
    ensures low { IfOk result (λ x. x.1 ≤ suc depth) }
{
    let Some(at) = first_place(tokens) else {
        return Err(Stop::Fault(Kind::Syntax, tokens));
    };
    if let Some((start, rest)) = Start::at(tokens, level) {
        return parse_form(alloc, depth, at, start, tokens, rest);
    }
    if level == 0 {
        return Err(Stop::Fault(Kind::Syntax, tokens));
    }
    parse_operators(alloc, level - 1, depth, at, tokens)
}

// The form that begins at `at` with the first of the tokens, of which `rest` are those behind it.
#[cycle(expression)]
fn parse_form<'a>(
    alloc: Global,
    depth: u32,
    at: Pos,
    start: Start,
    tokens: &'a [Piece<'a>],
    rest: &'a [Piece<'a>],
) -> Found<'a>
    requires { suc depth < 2 ^ 30 }
    ensures same { Gives phrase result (form_by depth (start_rule start.entry) at.0 (pieces tokens.now) (pieces rest.now)) }
    ensures low { IfOk result (λ x. x.1 ≤ suc depth) }
{
    match start {
        Start::Simple(form) => parse_simple(alloc, depth, at, form, rest),
        Start::Compound(_) if depth == 0 => Err(Stop::Fault(Kind::TooDeep, tokens)),
        Start::Compound(form) => parse_compound(alloc, depth, at, form, rest),
    }
}

// What stands behind the token of this form.
#[cycle(expression)]
fn parse_simple<'a>(
    alloc: Global,
    depth: u32,
    at: Pos,
    form: Simple,
    tokens: &'a [Piece<'a>],
) -> Found<'a>
    requires { suc depth < 2 ^ 30 }
    ensures same { Gives phrase result (formed (reads depth (simple_rule form.entry) (At at.0 ∷ []) (pieces tokens.now))) }
    ensures low { IfOk result (λ x. x.1 ≤ suc depth) }
{
    match form {
        Simple::Name(name) => parse_name(alloc, depth, at, name, tokens),
        Simple::Number(value) => Ok((make::number(at, value), 1, tokens)),
        Simple::Truth(value) => Ok((make::truth(at, value), 1, tokens)),
        Simple::Nil => Ok((make::nil(at), 1, tokens)),
        Simple::Leaf => Ok((make::leaf(at), 1, tokens)),
        Simple::Nothing => Ok((make::nothing(at), 1, tokens)),
    }
}

// What stands behind the first token of this form.
#[cycle(expression)]
fn parse_compound<'a>(
    alloc: Global,
    depth: u32,
    at: Pos,
    form: Compound,
    tokens: &'a [Piece<'a>],
) -> Found<'a>
    requires shallow { suc depth < 2 ^ 30 }
    requires deep { 0 < depth }
    ensures same { Gives phrase result (formed (reads depth (compound_rule form) (At at.0 ∷ []) (pieces tokens.now))) }
    ensures low { IfOk result (λ x. x.1 ≤ suc depth) }
{
    match form {
        Compound::Node => parse_node(alloc, depth, at, tokens),
        Compound::Just => parse_some(alloc, depth, at, tokens),
        Compound::Not => parse_not(alloc, depth, at, tokens),
        Compound::Parens => parse_parens(alloc, depth, at, tokens),
        Compound::Let => parse_let(alloc, depth, at, tokens),
        Compound::If => parse_if(alloc, depth, at, tokens),
        Compound::Match => parse_match(alloc, depth, at, tokens),
        Compound::Tick => parse_tick(alloc, depth, at, tokens),
    }
}

// What stands behind `not`.
#[cycle(expression)]
fn parse_not<'a>(alloc: Global, depth: u32, at: Pos, tokens: &'a [Piece<'a>]) -> Found<'a>
    requires { suc depth < 2 ^ 30 }
    ensures same { Gives phrase result (formed (reads depth not_rule (At at.0 ∷ []) (pieces tokens.now))) }
    ensures low { IfOk result (λ x. x.1 ≤ suc depth) }
{
    let (operand, height, rest) = parse_expr(alloc, 0, depth, tokens)?;
    let operand = Box::new(alloc, operand)?;
    Ok((make::negation(at, operand), 1 + height, rest))
}
