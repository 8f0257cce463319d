// `let`, and expressions below more variables.
ghost use Rattle.std.specs.Prelude.{◌≡◌, [], ◌∷◌, IfOk};
ghost use Rattle.raml_syntax.specs.Read.{term_of, bound_of};
ghost use Rattle.raml_syntax.specs.Tree as t;
ghost use Rattle.normal_operands.specs.Types.{wanted};
ghost use Rattle.normal_operands.specs.Read.{named, norm_in, form_at, form_below};

use crate::found::found;
use crate::maker::Maker;
use crate::naming::{name_expr, name_operand};
use crate::operand::{close_one, plus};
use crate::scope::{Env, Local, Scope};
use crate::types::TyRef;
use normal_spec::{NormExpr, NormForm};
use raml_syntax::{Binder, Expr};
use std::alloc::AllocError;

/// The form of an expression below one more variable.
#[cycle(naming)]
pub fn name_below_one<'s, 'a>(
    env: Env<'s, 'a>,
    maker: &mut Maker,
    want: Option<TyRef>,
    local: Local<'s, 'a>,
    e: &'a Expr,
) -> Result<Box<NormExpr>, AllocError>
    ensures { IfOk result (λ made. norm_in made ≡ form_below env.entry (named local.entry ∷ []) (wanted want.entry) (term_of e.now)) }
{
    let scope = Scope::Bound {
        local,
        outer: env.scope,
    };
    let inner = Env {
        scope: &scope,
        ..env
    };
    name_expr(inner, maker, want, e)
}

/// The form of an expression below two more variables, of which the second is the newer.
#[cycle(naming)]
pub fn name_below_two<'s, 'a>(
    env: Env<'s, 'a>,
    maker: &mut Maker,
    want: Option<TyRef>,
    first: Local<'s, 'a>,
    second: Local<'s, 'a>,
    e: &'a Expr,
) -> Result<Box<NormExpr>, AllocError>
    ensures { IfOk result (λ made. norm_in made
        ≡ form_below env.entry (named second.entry ∷ (named first.entry ∷ [])) (wanted want.entry) (term_of e.now)) }
{
    let scope = Scope::Bound {
        local: first,
        outer: env.scope,
    };
    let inner = Env {
        scope: &scope,
        ..env
    };
    name_below_one(inner, maker, want, second, e)
}

/// The form of an expression below three more variables, of which the third is the newest.
#[cycle(naming)]
pub fn name_below_three<'s, 'a>(
    env: Env<'s, 'a>,
    maker: &mut Maker,
    want: Option<TyRef>,
    first: Local<'s, 'a>,
    second: Local<'s, 'a>,
    third: Local<'s, 'a>,
    e: &'a Expr,
) -> Result<Box<NormExpr>, AllocError>
    ensures { IfOk result (λ made. norm_in made
        ≡ form_below env.entry (named third.entry ∷ (named second.entry ∷ (named first.entry ∷ []))) (wanted want.entry) (term_of e.now)) }
{
    let scope = Scope::Bound {
        local: first,
        outer: env.scope,
    };
    let inner = Env {
        scope: &scope,
        ..env
    };
    name_below_two(inner, maker, want, second, third, e)
}

/// The form of `let x = bound in rest`.
#[cycle(naming)]
pub fn name_let<'s, 'a>(
    env: Env<'s, 'a>,
    maker: &mut Maker,
    want: Option<TyRef>,
    x: &'a Binder,
    bound: &'a Expr,
    rest: &'a Expr,
) -> Result<Box<NormExpr>, AllocError>
    ensures { IfOk result (λ made. norm_in made
        ≡ form_at env.entry (wanted want.entry) (t.Let 0 (bound_of x.now) (term_of bound.now) (term_of rest.now))) }
{
    let free = plus(env.free, 1)?;
    let form = name_expr(env, maker, None, bound)?;
    let ty = found(env, maker, bound)?;
    let local = Local {
        name: &x.name,
        number: env.free,
        ty: TyRef::Of(&ty),
    };
    let rest = name_below_one(Env { free, ..env }, maker, want, local, rest)?;
    maker.form(1, NormForm::Let(env.free, ty, form, rest))
}

/// The form of `let (x, y) = bound in rest`.
#[cycle(naming)]
pub fn name_let_pair<'s, 'a>(
    env: Env<'s, 'a>,
    maker: &mut Maker,
    want: Option<TyRef>,
    x: &'a Binder,
    y: &'a Binder,
    bound: &'a Expr,
    rest: &'a Expr,
) -> Result<Box<NormExpr>, AllocError>
    ensures { IfOk result (λ made. norm_in made
        ≡ form_at env.entry (wanted want.entry) (t.LetPair 0 (bound_of x.now) (bound_of y.now) (term_of bound.now) (term_of rest.now))) }
{
    let pair = name_operand(env, maker, None, bound)?;
    let first_number = pair.after(env.free)?;
    let second_number = plus(first_number, 1)?;
    let free = plus(first_number, 2)?;
    let ty = found(env, maker, bound)?;
    let first = Local {
        name: &x.name,
        number: first_number,
        ty: TyRef::Of(&ty).first_part(),
    };
    let second = Local {
        name: &y.name,
        number: second_number,
        ty: TyRef::Of(&ty).second_part(),
    };
    let rest = name_below_two(Env { free, ..env }, maker, want, first, second, rest)?;
    let form = NormForm::Split(pair.variable(), first_number, second_number, rest);
    close_one(maker, pair, form)
}
