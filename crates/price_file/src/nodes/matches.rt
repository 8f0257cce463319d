// Conditions and matches.
ghost use Rattle.std.specs.Prelude.{◌≡◌, IfOk};
ghost use Rattle.raml_syntax.specs.Tree as t;
ghost use Rattle.raml_syntax.specs.Read.{term_of, bound_of};
ghost use Rattle.price_file.specs.Construct as c;
ghost use Rattle.price_file.specs.Read.{term_in, behind_price, applied_by};

use crate::construct::Construct;
use crate::node::{Maker, copy_binder, node};
use crate::nodes::apply_expr;
use raml_syntax::{Binder, Expr, Form, Pos};
use std::alloc::AllocError;

#[cycle(nodes)]
pub fn apply_if<'a>(
    maker: Maker<'a>,
    at: Pos,
    condition: &Expr,
    first: &Expr,
    second: &Expr,
) -> Result<Box<Expr>, AllocError>
    ensures { IfOk result (λ made. term_in made
        ≡ applied_by maker.entry (t.If at.0 (term_of condition.now) (term_of first.now) (term_of second.now))) }
{
    let condition = apply_expr(maker, condition)?;
    let first = apply_expr(maker, first)?;
    let second = apply_expr(maker, second)?;
    node(maker, at, Construct::If, Form::If(condition, first, second))
}

fn match_list<'a>(
    maker: Maker<'a>,
    at: Pos,
    subject: Box<Expr>,
    empty: Box<Expr>,
    head: &Binder,
    tail: &Binder,
    rest: Box<Expr>,
) -> Result<Box<Expr>, AllocError>
    ensures { IfOk result (λ made. term_in made
        ≡ behind_price maker.entry c.Match at.0
        (t.MatchList at.0 (term_in subject) (term_in empty) (bound_of head.now) (bound_of tail.now) (term_in rest))) }
{
    let head = copy_binder(maker.alloc, head)?;
    let tail = copy_binder(maker.alloc, tail)?;
    node(
        maker,
        at,
        Construct::Match,
        Form::MatchList(subject, empty, head, tail, rest),
    )
}

fn match_tree<'a>(
    maker: Maker<'a>,
    at: Pos,
    subject: Box<Expr>,
    empty: Box<Expr>,
    element: &Binder,
    left: &Binder,
    right: &Binder,
    rest: Box<Expr>,
) -> Result<Box<Expr>, AllocError>
    ensures { IfOk result (λ made. term_in made
        ≡ behind_price maker.entry c.Match at.0
        (t.MatchTree at.0 (term_in subject) (term_in empty) (bound_of element.now)
        (bound_of left.now) (bound_of right.now) (term_in rest))) }
{
    let element = copy_binder(maker.alloc, element)?;
    let left = copy_binder(maker.alloc, left)?;
    let right = copy_binder(maker.alloc, right)?;
    node(
        maker,
        at,
        Construct::Match,
        Form::MatchTree(subject, empty, element, left, right, rest),
    )
}

fn match_option<'a>(
    maker: Maker<'a>,
    at: Pos,
    subject: Box<Expr>,
    empty: Box<Expr>,
    content: &Binder,
    rest: Box<Expr>,
) -> Result<Box<Expr>, AllocError>
    ensures { IfOk result (λ made. term_in made
        ≡ behind_price maker.entry c.Match at.0
        (t.MatchOption at.0 (term_in subject) (term_in empty) (bound_of content.now) (term_in rest))) }
{
    let content = copy_binder(maker.alloc, content)?;
    node(
        maker,
        at,
        Construct::Match,
        Form::MatchOption(subject, empty, content, rest),
    )
}

#[cycle(nodes)]
pub fn apply_match_list<'a>(
    maker: Maker<'a>,
    at: Pos,
    subject: &Expr,
    empty: &Expr,
    head: &Binder,
    tail: &Binder,
    rest: &Expr,
) -> Result<Box<Expr>, AllocError>
    ensures { IfOk result (λ made. term_in made
        ≡ applied_by maker.entry
        (t.MatchList at.0 (term_of subject.now) (term_of empty.now) (bound_of head.now) (bound_of tail.now) (term_of rest.now))) }
{
    let subject = apply_expr(maker, subject)?;
    let empty = apply_expr(maker, empty)?;
    let rest = apply_expr(maker, rest)?;
    match_list(maker, at, subject, empty, head, tail, rest)
}

#[cycle(nodes)]
pub fn apply_match_tree<'a>(
    maker: Maker<'a>,
    at: Pos,
    subject: &Expr,
    empty: &Expr,
    element: &Binder,
    left: &Binder,
    right: &Binder,
    rest: &Expr,
) -> Result<Box<Expr>, AllocError>
    ensures { IfOk result (λ made. term_in made
        ≡ applied_by maker.entry
        (t.MatchTree at.0 (term_of subject.now) (term_of empty.now) (bound_of element.now)
        (bound_of left.now) (bound_of right.now) (term_of rest.now))) }
{
    let subject = apply_expr(maker, subject)?;
    let empty = apply_expr(maker, empty)?;
    let rest = apply_expr(maker, rest)?;
    match_tree(maker, at, subject, empty, element, left, right, rest)
}

#[cycle(nodes)]
pub fn apply_match_option<'a>(
    maker: Maker<'a>,
    at: Pos,
    subject: &Expr,
    empty: &Expr,
    content: &Binder,
    rest: &Expr,
) -> Result<Box<Expr>, AllocError>
    ensures { IfOk result (λ made. term_in made
        ≡ applied_by maker.entry (t.MatchOption at.0 (term_of subject.now) (term_of empty.now) (bound_of content.now) (term_of rest.now))) }
{
    let subject = apply_expr(maker, subject)?;
    let empty = apply_expr(maker, empty)?;
    let rest = apply_expr(maker, rest)?;
    match_option(maker, at, subject, empty, content, rest)
}
