// Branches.
ghost use Rattle.std.specs.Prelude.{◌≡◌, IfOk};
ghost use Rattle.raml_syntax.specs.Tree as t;
ghost use Rattle.raml_syntax.specs.Read.{term_of, bound_of};
ghost use Rattle.explain_count.specs.Count.{without_ticks};
ghost use Rattle.explain_count.specs.Read.{term_in};

use crate::copied::{copy_binder, node};
use crate::tickless::without_ticks;
use raml_syntax::{Binder, Expr, Form, Pos};
use std::alloc::{AllocError, Global};

#[cycle(tickless)]
pub fn branch(
    alloc: Global,
    at: Pos,
    condition: &Expr,
    first: &Expr,
    second: &Expr,
) -> Result<Box<Expr>, AllocError>
    ensures { IfOk result (λ made. term_in made
        ≡ without_ticks (t.If at.0 (term_of condition.now) (term_of first.now) (term_of second.now))) }
{
    let condition = without_ticks(alloc, condition)?;
    let first = without_ticks(alloc, first)?;
    let second = without_ticks(alloc, second)?;
    node(alloc, at, Form::If(condition, first, second))
}

fn made_match_list(
    alloc: Global,
    at: Pos,
    subject: Box<Expr>,
    empty: Box<Expr>,
    head: &Binder,
    tail: &Binder,
    rest: Box<Expr>,
) -> Result<Box<Expr>, AllocError>
    ensures { IfOk result (λ made. term_in made
        ≡ t.MatchList at.0 (term_in subject) (term_in empty) (bound_of head.now) (bound_of tail.now) (term_in rest)) }
{
    let head = copy_binder(alloc, head)?;
    let tail = copy_binder(alloc, tail)?;
    node(alloc, at, Form::MatchList(subject, empty, head, tail, rest))
}

fn made_match_tree(
    alloc: Global,
    at: Pos,
    subject: Box<Expr>,
    empty: Box<Expr>,
    element: &Binder,
    left: &Binder,
    right: &Binder,
    rest: Box<Expr>,
) -> Result<Box<Expr>, AllocError>
    ensures { IfOk result (λ made. term_in made
        ≡ t.MatchTree at.0 (term_in subject) (term_in empty) (bound_of element.now) (bound_of left.now) (bound_of right.now)
        (term_in rest)) }
{
    let element = copy_binder(alloc, element)?;
    let left = copy_binder(alloc, left)?;
    let right = copy_binder(alloc, right)?;
    node(
        alloc,
        at,
        Form::MatchTree(subject, empty, element, left, right, rest),
    )
}

fn made_match_option(
    alloc: Global,
    at: Pos,
    subject: Box<Expr>,
    empty: Box<Expr>,
    content: &Binder,
    rest: Box<Expr>,
) -> Result<Box<Expr>, AllocError>
    ensures { IfOk result (λ made. term_in made
        ≡ t.MatchOption at.0 (term_in subject) (term_in empty) (bound_of content.now) (term_in rest)) }
{
    let content = copy_binder(alloc, content)?;
    node(alloc, at, Form::MatchOption(subject, empty, content, rest))
}

#[cycle(tickless)]
pub fn match_list(
    alloc: Global,
    at: Pos,
    subject: &Expr,
    empty: &Expr,
    head: &Binder,
    tail: &Binder,
    rest: &Expr,
) -> Result<Box<Expr>, AllocError>
    ensures { IfOk result (λ made. term_in made
        ≡ without_ticks (t.MatchList at.0 (term_of subject.now) (term_of empty.now) (bound_of head.now) (bound_of tail.now)
        (term_of rest.now))) }
{
    let subject = without_ticks(alloc, subject)?;
    let empty = without_ticks(alloc, empty)?;
    let rest = without_ticks(alloc, rest)?;
    made_match_list(alloc, at, subject, empty, head, tail, rest)
}

#[cycle(tickless)]
pub fn match_tree(
    alloc: Global,
    at: Pos,
    subject: &Expr,
    empty: &Expr,
    element: &Binder,
    left: &Binder,
    right: &Binder,
    rest: &Expr,
) -> Result<Box<Expr>, AllocError>
    ensures { IfOk result (λ made. term_in made
        ≡ without_ticks (t.MatchTree at.0 (term_of subject.now) (term_of empty.now) (bound_of element.now) (bound_of left.now)
        (bound_of right.now) (term_of rest.now))) }
{
    let subject = without_ticks(alloc, subject)?;
    let empty = without_ticks(alloc, empty)?;
    let rest = without_ticks(alloc, rest)?;
    made_match_tree(alloc, at, subject, empty, element, left, right, rest)
}

#[cycle(tickless)]
pub fn match_option(
    alloc: Global,
    at: Pos,
    subject: &Expr,
    empty: &Expr,
    content: &Binder,
    rest: &Expr,
) -> Result<Box<Expr>, AllocError>
    ensures { IfOk result (λ made. term_in made
        ≡ without_ticks (t.MatchOption at.0 (term_of subject.now) (term_of empty.now) (bound_of content.now) (term_of rest.now))) }
{
    let subject = without_ticks(alloc, subject)?;
    let empty = without_ticks(alloc, empty)?;
    let rest = without_ticks(alloc, rest)?;
    made_match_option(alloc, at, subject, empty, content, rest)
}
