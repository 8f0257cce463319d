// Bindings, ticks and annotations.
ghost use Rattle.std.specs.Prelude.{◌≡◌, IfOk};
ghost use Rattle.raml_syntax.specs.Tree as t;
ghost use Rattle.raml_syntax.specs.Read.{term_of, bound_of, ty_of};
ghost use Rattle.price_file.specs.Construct as c;
ghost use Rattle.price_file.specs.Read.{term_in, behind_price, applied_by};

use crate::construct::Construct;
use crate::node::{Maker, copy_binder, node};
use crate::nodes::apply_expr;
use raml_syntax::{Binder, Expr, Form, Pos, Ty};
use std::alloc::AllocError;

fn let_one<'a>(
    maker: Maker<'a>,
    at: Pos,
    x: &Binder,
    bound: Box<Expr>,
    rest: Box<Expr>,
) -> Result<Box<Expr>, AllocError>
    ensures { IfOk result (λ made. term_in made
        ≡ behind_price maker.entry c.Let at.0 (t.Let at.0 (bound_of x.now) (term_in bound) (term_in rest))) }
{
    let x = copy_binder(maker.alloc, x)?;
    node(maker, at, Construct::Let, Form::Let(x, bound, rest))
}

fn let_pair<'a>(
    maker: Maker<'a>,
    at: Pos,
    x: &Binder,
    y: &Binder,
    bound: Box<Expr>,
    rest: Box<Expr>,
) -> Result<Box<Expr>, AllocError>
    ensures { IfOk result (λ made. term_in made
        ≡ behind_price maker.entry c.Let at.0 (t.LetPair at.0 (bound_of x.now) (bound_of y.now) (term_in bound) (term_in rest))) }
{
    let x = copy_binder(maker.alloc, x)?;
    let y = copy_binder(maker.alloc, y)?;
    node(maker, at, Construct::Let, Form::LetPair(x, y, bound, rest))
}

#[cycle(nodes)]
pub fn apply_let<'a>(
    maker: Maker<'a>,
    at: Pos,
    x: &Binder,
    bound: &Expr,
    rest: &Expr,
) -> Result<Box<Expr>, AllocError>
    ensures { IfOk result (λ made. term_in made
        ≡ applied_by maker.entry (t.Let at.0 (bound_of x.now) (term_of bound.now) (term_of rest.now))) }
{
    let bound = apply_expr(maker, bound)?;
    let rest = apply_expr(maker, rest)?;
    let_one(maker, at, x, bound, rest)
}

#[cycle(nodes)]
pub fn apply_let_pair<'a>(
    maker: Maker<'a>,
    at: Pos,
    x: &Binder,
    y: &Binder,
    bound: &Expr,
    rest: &Expr,
) -> Result<Box<Expr>, AllocError>
    ensures { IfOk result (λ made. term_in made
        ≡ applied_by maker.entry (t.LetPair at.0 (bound_of x.now) (bound_of y.now) (term_of bound.now) (term_of rest.now))) }
{
    let bound = apply_expr(maker, bound)?;
    let rest = apply_expr(maker, rest)?;
    let_pair(maker, at, x, y, bound, rest)
}

#[cycle(nodes)]
pub fn apply_tick<'a>(
    maker: Maker<'a>,
    at: Pos,
    count: u32,
    rest: &Expr,
) -> Result<Box<Expr>, AllocError>
    ensures { IfOk result (λ made. term_in made ≡ applied_by maker.entry (t.Tick at.0 count (term_of rest.now))) }
{
    let rest = apply_expr(maker, rest)?;
    node(maker, at, Construct::Tick, Form::Tick(count, rest))
}

fn typed<'a>(maker: Maker<'a>, at: Pos, inner: Box<Expr>, ty: &Ty) -> Result<Box<Expr>, AllocError>
    ensures { IfOk result (λ made. term_in made ≡ t.Typed at.0 (term_in inner) (ty_of ty.now)) }
{
    let ty = ty.copy(maker.alloc)?;
    let form = Form::Typed(inner, ty);
    Ok(Box::new(maker.alloc, Expr { at, form })?)
}

/// An annotation is no node, and has no price.
#[cycle(nodes)]
pub fn apply_typed<'a>(
    maker: Maker<'a>,
    at: Pos,
    inner: &Expr,
    ty: &Ty,
) -> Result<Box<Expr>, AllocError>
    ensures { IfOk result (λ made. term_in made ≡ applied_by maker.entry (t.Typed at.0 (term_of inner.now) (ty_of ty.now))) }
{
    let inner = apply_expr(maker, inner)?;
    typed(maker, at, inner, ty)
}
