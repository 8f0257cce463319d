// Pairs, lists, trees and options.
ghost use Rattle.std.specs.Prelude.{◌≡◌, IfOk};
ghost use Rattle.raml_syntax.specs.Tree as t;
ghost use Rattle.raml_syntax.specs.Read.{term_of};
ghost use Rattle.price_file.specs.Read.{term_in, applied_by};

use crate::construct::Construct;
use crate::node::{Maker, node};
use crate::nodes::apply_expr;
use raml_syntax::{Expr, Form, Pos};
use std::alloc::AllocError;

#[cycle(nodes)]
pub fn apply_pair<'a>(
    maker: Maker<'a>,
    at: Pos,
    first: &Expr,
    second: &Expr,
) -> Result<Box<Expr>, AllocError>
    ensures { IfOk result (λ made. term_in made ≡ applied_by maker.entry (t.Pair at.0 (term_of first.now) (term_of second.now))) }
{
    let first = apply_expr(maker, first)?;
    let second = apply_expr(maker, second)?;
    node(maker, at, Construct::Pair, Form::Pair(first, second))
}

#[cycle(nodes)]
pub fn apply_cons<'a>(
    maker: Maker<'a>,
    at: Pos,
    head: &Expr,
    tail: &Expr,
) -> Result<Box<Expr>, AllocError>
    ensures { IfOk result (λ made. term_in made ≡ applied_by maker.entry (t.Cons at.0 (term_of head.now) (term_of tail.now))) }
{
    let head = apply_expr(maker, head)?;
    let tail = apply_expr(maker, tail)?;
    node(maker, at, Construct::Cons, Form::Cons(head, tail))
}

#[cycle(nodes)]
pub fn apply_node<'a>(
    maker: Maker<'a>,
    at: Pos,
    element: &Expr,
    left: &Expr,
    right: &Expr,
) -> Result<Box<Expr>, AllocError>
    ensures { IfOk result (λ made. term_in made
        ≡ applied_by maker.entry (t.Node at.0 (term_of element.now) (term_of left.now) (term_of right.now))) }
{
    let element = apply_expr(maker, element)?;
    let left = apply_expr(maker, left)?;
    let right = apply_expr(maker, right)?;
    node(maker, at, Construct::Node, Form::Node(element, left, right))
}

#[cycle(nodes)]
pub fn apply_just<'a>(maker: Maker<'a>, at: Pos, content: &Expr) -> Result<Box<Expr>, AllocError>
    ensures { IfOk result (λ made. term_in made ≡ applied_by maker.entry (t.Just at.0 (term_of content.now))) }
{
    let content = apply_expr(maker, content)?;
    node(maker, at, Construct::Just, Form::Just(content))
}
