// Expressions without their ticks.
ghost use Rattle.std.specs.Prelude.{◌≡◌, IfOk};
ghost use Rattle.raml_syntax.specs.Tree as t;
ghost use Rattle.raml_syntax.specs.Read.{term_of, terms_of};
ghost use Rattle.explain_count.specs.Count.{without_ticks, all_without_ticks};
ghost use Rattle.explain_count.specs.Read.{term_in};

mod bindings;
mod branches;
mod operators;
mod values;

use crate::copied::{copy_name, node};
use crate::tickless::bindings::{let_one, let_pair, typed};
use crate::tickless::branches::{branch, match_list, match_option, match_tree};
use crate::tickless::operators::{arith, compare, not};
use crate::tickless::values::{cons, just, pair, tree_node};
use raml_syntax::{Expr, Form, Name, Pos};
use std::alloc::{AllocError, Global};

/// A copy of the expression without its ticks.
#[cycle(tickless)]
pub fn without_ticks(alloc: Global, e: &Expr) -> Result<Box<Expr>, AllocError>
    ensures { IfOk result (λ made. term_in made ≡ without_ticks (term_of e.now)) }
{
    let at = e.at;
    match &e.form {
        Form::Number(number) => node(alloc, at, Form::Number(*number)),
        Form::Truth(truth) => node(alloc, at, Form::Truth(*truth)),
        Form::Nil => node(alloc, at, Form::Nil),
        Form::Leaf => node(alloc, at, Form::Leaf),
        Form::Nothing => node(alloc, at, Form::Nothing),
        Form::Var(name) => variable(alloc, at, name),
        Form::Arith(op, a, b) => arith(alloc, at, *op, a, b),
        Form::Compare(op, a, b) => compare(alloc, at, *op, a, b),
        Form::Not(a) => not(alloc, at, a),
        Form::Pair(a, b) => pair(alloc, at, a, b),
        Form::Cons(a, b) => cons(alloc, at, a, b),
        Form::Node(a, b, c) => tree_node(alloc, at, a, b, c),
        Form::Just(a) => just(alloc, at, a),
        Form::Call(name, args) => call(alloc, at, name, args),
        Form::Let(x, a, b) => let_one(alloc, at, x, a, b),
        Form::LetPair(x, y, a, b) => let_pair(alloc, at, x, y, a, b),
        Form::If(c, a, b) => branch(alloc, at, c, a, b),
        Form::MatchList(c, a, x, y, b) => match_list(alloc, at, c, a, x, y, b),
        Form::MatchTree(c, a, x, y, z, b) => match_tree(alloc, at, c, a, x, y, z, b),
        Form::MatchOption(c, a, x, b) => match_option(alloc, at, c, a, x, b),
        Form::Tick(_, a) => without_ticks(alloc, a),
        Form::Typed(a, ty) => typed(alloc, at, a, ty),
    }
}

fn variable(alloc: Global, at: Pos, name: &Name) -> Result<Box<Expr>, AllocError>
    ensures { IfOk result (λ made. term_in made ≡ t.Var at.0 name.now) }
{
    let name = copy_name(alloc, name)?;
    node(alloc, at, Form::Var(name))
}

fn made_call(alloc: Global, at: Pos, name: &Name, args: Vec<Expr>) -> Result<Box<Expr>, AllocError>
    ensures { IfOk result (λ made. term_in made ≡ t.Call at.0 name.now (terms_of args.items)) }
{
    let name = copy_name(alloc, name)?;
    node(alloc, at, Form::Call(name, args))
}

#[cycle(tickless)]
fn call(alloc: Global, at: Pos, name: &Name, args: &[Expr]) -> Result<Box<Expr>, AllocError>
    ensures { IfOk result (λ made. term_in made ≡ without_ticks (t.Call at.0 name.now (terms_of args.now))) }
{
    let args = all_without_ticks(alloc, args)?;
    made_call(alloc, at, name, args)
}

#[cycle(tickless)]
fn all_without_ticks(alloc: Global, args: &[Expr]) -> Result<Vec<Expr>, AllocError>
    ensures { IfOk result (λ made. terms_of made.items ≡ all_without_ticks (terms_of args.now)) }
{
    let mut made = Vec::new(alloc);
    for arg in args {
        let arg = without_ticks(alloc, arg)?;
        made.push(Box::into_inner(arg))?;
    }
    Ok(made)
}
