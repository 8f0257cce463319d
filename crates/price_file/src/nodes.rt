// Expressions whose nodes stand behind their prices.
ghost use Rattle.std.specs.Prelude.{◌≡◌, IfOk};
ghost use Rattle.raml_syntax.specs.Tree as t;
ghost use Rattle.raml_syntax.specs.Read.{term_of, terms_of};
ghost use Rattle.price_file.specs.Construct as c;
ghost use Rattle.price_file.specs.Read.{term_in, behind_price, applied_by, all_applied_by};

mod bindings;
mod matches;
mod operators;
mod values;

use crate::construct::Construct;
use crate::node::{Maker, copy_name, node};
use crate::nodes::bindings::{apply_let, apply_let_pair, apply_tick, apply_typed};
use crate::nodes::matches::{apply_if, apply_match_list, apply_match_option, apply_match_tree};
use crate::nodes::operators::{apply_arith, apply_compare, apply_not};
use crate::nodes::values::{apply_cons, apply_just, apply_node, apply_pair};
use raml_syntax::{Expr, Form, Name, Pos};
use std::alloc::AllocError;

/// The expression with each node behind its price.
#[cycle(nodes)]
pub fn apply_expr<'a>(maker: Maker<'a>, e: &Expr) -> Result<Box<Expr>, AllocError>
    ensures { IfOk result (λ made. term_in made ≡ applied_by maker.entry (term_of e.now)) }
{
    let at = e.at;
    match &e.form {
        Form::Number(number) => node(maker, at, Construct::Number, Form::Number(*number)),
        Form::Truth(truth) => node(maker, at, Construct::Truth, Form::Truth(*truth)),
        Form::Nil => node(maker, at, Construct::Nil, Form::Nil),
        Form::Leaf => node(maker, at, Construct::Leaf, Form::Leaf),
        Form::Nothing => node(maker, at, Construct::Nothing, Form::Nothing),
        Form::Var(name) => apply_variable(maker, at, name),
        Form::Arith(op, a, b) => apply_arith(maker, at, *op, a, b),
        Form::Compare(op, a, b) => apply_compare(maker, at, *op, a, b),
        Form::Not(a) => apply_not(maker, at, a),
        Form::Pair(a, b) => apply_pair(maker, at, a, b),
        Form::Cons(a, b) => apply_cons(maker, at, a, b),
        Form::Node(a, b, c) => apply_node(maker, at, a, b, c),
        Form::Just(a) => apply_just(maker, at, a),
        Form::Call(name, args) => apply_call(maker, at, name, args),
        Form::Let(x, a, b) => apply_let(maker, at, x, a, b),
        Form::LetPair(x, y, a, b) => apply_let_pair(maker, at, x, y, a, b),
        Form::If(c, a, b) => apply_if(maker, at, c, a, b),
        Form::MatchList(c, a, x, y, b) => apply_match_list(maker, at, c, a, x, y, b),
        Form::MatchTree(c, a, x, y, z, b) => apply_match_tree(maker, at, c, a, x, y, z, b),
        Form::MatchOption(c, a, x, b) => apply_match_option(maker, at, c, a, x, b),
        Form::Tick(count, a) => apply_tick(maker, at, *count, a),
        Form::Typed(a, ty) => apply_typed(maker, at, a, ty),
    }
}

fn apply_variable<'a>(maker: Maker<'a>, at: Pos, name: &Name) -> Result<Box<Expr>, AllocError>
    ensures { IfOk result (λ made. term_in made ≡ applied_by maker.entry (t.Var at.0 name.now)) }
{
    let name = copy_name(maker.alloc, name)?;
    node(maker, at, Construct::Var, Form::Var(name))
}

fn call<'a>(
    maker: Maker<'a>,
    at: Pos,
    name: &Name,
    args: Vec<Expr>,
) -> Result<Box<Expr>, AllocError>
    ensures { IfOk result (λ made. term_in made ≡ behind_price maker.entry c.Call at.0 (t.Call at.0 name.now (terms_of args.items))) }
{
    let name = copy_name(maker.alloc, name)?;
    node(maker, at, Construct::Call, Form::Call(name, args))
}

#[cycle(nodes)]
fn apply_call<'a>(
    maker: Maker<'a>,
    at: Pos,
    name: &Name,
    args: &[Expr],
) -> Result<Box<Expr>, AllocError>
    ensures { IfOk result (λ made. term_in made ≡ applied_by maker.entry (t.Call at.0 name.now (terms_of args.now))) }
{
    let args = apply_all(maker, args)?;
    call(maker, at, name, args)
}

/// The arguments, in each of which each node stands behind its price.
#[cycle(nodes)]
fn apply_all<'a>(maker: Maker<'a>, args: &[Expr]) -> Result<Vec<Expr>, AllocError>
    ensures { IfOk result (λ made. terms_of made.items ≡ all_applied_by maker.entry (terms_of args.now)) }
{
    let mut made = Vec::new(maker.alloc);
    for arg in args {
        let arg = apply_expr(maker, arg)?;
        made.push(Box::into_inner(arg))?;
    }
    Ok(made)
}
