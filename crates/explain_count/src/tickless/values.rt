// Pairs, lists, trees and options.
ghost use Rattle.std.specs.Prelude.{◌≡◌, IfOk};
ghost use Rattle.raml_syntax.specs.Tree as t;
ghost use Rattle.raml_syntax.specs.Read.{term_of};
ghost use Rattle.explain_count.specs.Count.{without_ticks};
ghost use Rattle.explain_count.specs.Read.{term_in};

use crate::copied::node;
use crate::tickless::without_ticks;
use raml_syntax::{Expr, Form, Pos};
use std::alloc::{AllocError, Global};

#[cycle(tickless)]
pub fn pair(alloc: Global, at: Pos, first: &Expr, second: &Expr) -> Result<Box<Expr>, AllocError>
    ensures { IfOk result (λ made. term_in made ≡ without_ticks (t.Pair at.0 (term_of first.now) (term_of second.now))) }
{
    let first = without_ticks(alloc, first)?;
    let second = without_ticks(alloc, second)?;
    node(alloc, at, Form::Pair(first, second))
}

#[cycle(tickless)]
pub fn cons(alloc: Global, at: Pos, head: &Expr, tail: &Expr) -> Result<Box<Expr>, AllocError>
    ensures { IfOk result (λ made. term_in made ≡ without_ticks (t.Cons at.0 (term_of head.now) (term_of tail.now))) }
{
    let head = without_ticks(alloc, head)?;
    let tail = without_ticks(alloc, tail)?;
    node(alloc, at, Form::Cons(head, tail))
}

#[cycle(tickless)]
pub fn tree_node(
    alloc: Global,
    at: Pos,
    element: &Expr,
    left: &Expr,
    right: &Expr,
) -> Result<Box<Expr>, AllocError>
    ensures { IfOk result (λ made. term_in made
        ≡ without_ticks (t.Node at.0 (term_of element.now) (term_of left.now) (term_of right.now))) }
{
    let element = without_ticks(alloc, element)?;
    let left = without_ticks(alloc, left)?;
    let right = without_ticks(alloc, right)?;
    node(alloc, at, Form::Node(element, left, right))
}

#[cycle(tickless)]
pub fn just(alloc: Global, at: Pos, content: &Expr) -> Result<Box<Expr>, AllocError>
    ensures { IfOk result (λ made. term_in made ≡ without_ticks (t.Just at.0 (term_of content.now))) }
{
    let content = without_ticks(alloc, content)?;
    node(alloc, at, Form::Just(content))
}
