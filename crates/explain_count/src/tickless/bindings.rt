// Bindings and annotations.
ghost use Rattle.std.specs.Prelude.{◌≡◌, IfOk};
ghost use Rattle.raml_syntax.specs.Tree as t;
ghost use Rattle.raml_syntax.specs.Read.{term_of, bound_of, ty_of};
ghost use Rattle.explain_count.specs.Count.{without_ticks};
ghost use Rattle.explain_count.specs.Read.{term_in};

use crate::copied::{copy_binder, node};
use crate::tickless::without_ticks;
use raml_syntax::{Binder, Expr, Form, Pos, Ty};
use std::alloc::{AllocError, Global};

fn made_let_one(
    alloc: Global,
    at: Pos,
    x: &Binder,
    bound: Box<Expr>,
    rest: Box<Expr>,
) -> Result<Box<Expr>, AllocError>
    ensures { IfOk result (λ made. term_in made ≡ t.Let at.0 (bound_of x.now) (term_in bound) (term_in rest)) }
{
    let x = copy_binder(alloc, x)?;
    node(alloc, at, Form::Let(x, bound, rest))
}

fn made_let_pair(
    alloc: Global,
    at: Pos,
    x: &Binder,
    y: &Binder,
    bound: Box<Expr>,
    rest: Box<Expr>,
) -> Result<Box<Expr>, AllocError>
    ensures { IfOk result (λ made. term_in made
        ≡ t.LetPair at.0 (bound_of x.now) (bound_of y.now) (term_in bound) (term_in rest)) }
{
    let x = copy_binder(alloc, x)?;
    let y = copy_binder(alloc, y)?;
    node(alloc, at, Form::LetPair(x, y, bound, rest))
}

#[cycle(tickless)]
pub fn let_one(
    alloc: Global,
    at: Pos,
    x: &Binder,
    bound: &Expr,
    rest: &Expr,
) -> Result<Box<Expr>, AllocError>
    ensures { IfOk result (λ made. term_in made
        ≡ without_ticks (t.Let at.0 (bound_of x.now) (term_of bound.now) (term_of rest.now))) }
{
    let bound = without_ticks(alloc, bound)?;
    let rest = without_ticks(alloc, rest)?;
    made_let_one(alloc, at, x, bound, rest)
}

#[cycle(tickless)]
pub fn let_pair(
    alloc: Global,
    at: Pos,
    x: &Binder,
    y: &Binder,
    bound: &Expr,
    rest: &Expr,
) -> Result<Box<Expr>, AllocError>
    ensures { IfOk result (λ made. term_in made
        ≡ without_ticks (t.LetPair at.0 (bound_of x.now) (bound_of y.now) (term_of bound.now) (term_of rest.now))) }
{
    let bound = without_ticks(alloc, bound)?;
    let rest = without_ticks(alloc, rest)?;
    made_let_pair(alloc, at, x, y, bound, rest)
}

fn made_typed(alloc: Global, at: Pos, inner: Box<Expr>, ty: &Ty) -> Result<Box<Expr>, AllocError>
    ensures { IfOk result (λ made. term_in made ≡ t.Typed at.0 (term_in inner) (ty_of ty.now)) }
{
    let ty = ty.copy(alloc)?;
    node(alloc, at, Form::Typed(inner, ty))
}

#[cycle(tickless)]
pub fn typed(alloc: Global, at: Pos, inner: &Expr, ty: &Ty) -> Result<Box<Expr>, AllocError>
    ensures { IfOk result (λ made. term_in made ≡ without_ticks (t.Typed at.0 (term_of inner.now) (ty_of ty.now))) }
{
    let inner = without_ticks(alloc, inner)?;
    made_typed(alloc, at, inner, ty)
}
