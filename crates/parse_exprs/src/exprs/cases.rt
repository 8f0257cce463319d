// The cases of a `match`.
ghost use Rattle.std.specs.Prelude.{◌≤◌, ◌<◌, ◌^◌, suc, IfOk};
ghost use Rattle.parse_table.specs.Table.{Phrase};
ghost use Rattle.parse_table.specs.Read.{Gives, pieces, phrase, term_in};
ghost use Rattle.parse_exprs.specs.Phrases.{match_of, any_cases_of, list_cases_of, option_cases_of, tree_cases_of};

use crate::exprs::Found;
use crate::exprs::parts::{parse_after, parse_before, parse_part};
use parse_table::front::{take_list, take_option, take_tree};
use parse_table::make;
use parse_table::take::{behind, take_sign};
use parse_table::token::{Piece, Sign};
use raml_syntax::{Expr, Pos};
use std::alloc::Global;

/// What stands behind `match`.
#[cycle(expression)]
pub fn parse_match<'a>(alloc: Global, depth: u32, at: Pos, tokens: &'a [Piece<'a>]) -> Found<'a>
    requires shallow { suc depth < 2 ^ 30 }
    requires deep { 0 < depth }
    ensures same { Gives phrase result (match_of depth at.0 (pieces tokens.now)) }
    ensures low { IfOk result (λ x. x.1 ≤ suc depth) }
{
    let (subject, height, rest) = parse_before(alloc, depth, Sign::With, tokens)?;
    let (whole, cases_height, rest) = parse_cases(alloc, depth, at, subject, rest)?;
    Ok((whole, 1 + height.max(cases_height), rest))
}

// The cases of a `match`.
#[cycle(expression)]
fn parse_cases<'a>(
    alloc: Global,
    depth: u32,
    at: Pos,
    subject: Box<Expr>,
    tokens: &'a [Piece<'a>],
) -> Found<'a>
    requires shallow { depth < 2 ^ 30 }
    requires deep { 0 < depth }
    ensures same { Gives phrase result (any_cases_of depth (Phrase (term_in subject)) at.0 (pieces tokens.now)) }
    ensures low { IfOk result (λ x. x.1 ≤ depth) }
{
    if let Some(rest) = behind(tokens, Sign::Nil) {
        return parse_list_cases(alloc, depth, at, subject, rest);
    }
    if let Some(rest) = behind(tokens, Sign::Nothing) {
        return parse_option_cases(alloc, depth, at, subject, rest);
    }
    let rest = take_sign(tokens, Sign::Leaf)?;
    parse_tree_cases(alloc, depth, at, subject, rest)
}

// What stands behind the `nil` of the cases of a list.
#[cycle(expression)]
fn parse_list_cases<'a>(
    alloc: Global,
    depth: u32,
    at: Pos,
    subject: Box<Expr>,
    tokens: &'a [Piece<'a>],
) -> Found<'a>
    requires { depth < 2 ^ 30 }
    ensures same { Gives phrase result (list_cases_of depth (Phrase (term_in subject)) at.0 (pieces tokens.now)) }
    ensures low { IfOk result (λ x. x.1 ≤ depth) }
{
    let (empty, height, rest) = parse_after(alloc, depth, Sign::Arrow, tokens)?;
    let (head, tail, rest) = take_list(rest)?;
    let (body, body_height, rest) = parse_part(alloc, depth, rest)?;
    let whole = make::list_cases(alloc, at, subject, empty, head, tail, body)?;
    Ok((whole, height.max(body_height), rest))
}

// What stands behind the `none` of the cases of an option.
#[cycle(expression)]
fn parse_option_cases<'a>(
    alloc: Global,
    depth: u32,
    at: Pos,
    subject: Box<Expr>,
    tokens: &'a [Piece<'a>],
) -> Found<'a>
    requires { depth < 2 ^ 30 }
    ensures same { Gives phrase result (option_cases_of depth (Phrase (term_in subject)) at.0 (pieces tokens.now)) }
    ensures low { IfOk result (λ x. x.1 ≤ depth) }
{
    let (empty, height, rest) = parse_after(alloc, depth, Sign::Arrow, tokens)?;
    let (content, rest) = take_option(rest)?;
    let (body, body_height, rest) = parse_part(alloc, depth, rest)?;
    let whole = make::option_cases(alloc, at, subject, empty, content, body)?;
    Ok((whole, height.max(body_height), rest))
}

// What stands behind the `leaf` of the cases of a tree.
#[cycle(expression)]
fn parse_tree_cases<'a>(
    alloc: Global,
    depth: u32,
    at: Pos,
    subject: Box<Expr>,
    tokens: &'a [Piece<'a>],
) -> Found<'a>
    requires { depth < 2 ^ 30 }
    ensures same { Gives phrase result (tree_cases_of depth (Phrase (term_in subject)) at.0 (pieces tokens.now)) }
    ensures low { IfOk result (λ x. x.1 ≤ depth) }
{
    let (empty, height, rest) = parse_after(alloc, depth, Sign::Arrow, tokens)?;
    let (element, left, right, rest) = take_tree(rest)?;
    let (body, body_height, rest) = parse_part(alloc, depth, rest)?;
    let whole = make::tree_cases(alloc, at, subject, empty, element, left, right, body)?;
    Ok((whole, height.max(body_height), rest))
}
