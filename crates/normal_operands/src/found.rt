// The types that are found for expressions. The numbers of variables do not matter here.
ghost use Rattle.std.specs.Prelude.{◌≡◌, ◌∷◌, IfOk};
ghost use Rattle.raml_syntax.specs.Read.{ty_of, term_of, bound_of};
ghost use Rattle.raml_syntax.specs.Tree as t;
ghost use Rattle.raml_syntax.specs.Eval.{find};
ghost use Rattle.normal_spec.specs.One as one;
ghost use Rattle.normal_operands.specs.Read.{program_in, scope_in, found_in, named};

use crate::functions::function_named;
use crate::maker::Maker;
use crate::scope::{Env, Local, Scope};
use crate::types::TyRef;
use raml_syntax::{Binder, Expr, Form, Name, Ty};
use std::alloc::AllocError;

/// The type of the results of the function of this name.
fn result_type<'s, 'a>(env: Env<'s, 'a>, maker: &mut Maker, name: &Name) -> Result<Ty, AllocError>
    ensures { IfOk result (λ ty. ty_of ty ≡ one.result_or (find name.now (program_in env.entry))) }
{
    match function_named(env.names, name.text()) {
        Some(fun) => maker.copy(&fun.result),
        None => Ok(Ty::Int),
    }
}

/// The type of the variable of this name.
fn variable_type<'s, 'a>(env: Env<'s, 'a>, maker: &mut Maker, name: &Name) -> Result<Ty, AllocError>
    ensures { IfOk result (λ ty. ty_of ty ≡ found_in env.entry (t.Var 0 name.now)) }
{
    match env.scope.type_of(name.text()) {
        Some(ty) => maker.owned(ty),
        None => Ok(Ty::Int),
    }
}

/// The type that is found for an expression.
#[cycle(found)]
pub fn found<'s, 'a>(env: Env<'s, 'a>, maker: &mut Maker, e: &'a Expr) -> Result<Ty, AllocError>
    ensures { IfOk result (λ ty. ty_of ty ≡ found_in env.entry (term_of e.now)) }
{
    match &e.form {
        Form::Number(_) | Form::Nil | Form::Leaf | Form::Nothing | Form::Arith(..) => Ok(Ty::Int),
        Form::Truth(_) | Form::Compare(..) | Form::Not(_) => Ok(Ty::Bool),
        Form::Var(name) => variable_type(env, maker, name),
        Form::Pair(first, second) => found_pair(env, maker, first, second),
        Form::Cons(head, _) => {
            let element = found(env, maker, head)?;
            maker.list(element)
        }
        Form::Node(element, _, _) => {
            let element = found(env, maker, element)?;
            maker.tree(element)
        }
        Form::Just(content) => {
            let content = found(env, maker, content)?;
            maker.option(content)
        }
        Form::Call(function, _) => result_type(env, maker, function),
        Form::Let(x, bound, rest) => found_let(env, maker, x, bound, rest),
        Form::LetPair(x, y, bound, rest) => found_let_pair(env, maker, x, y, bound, rest),
        Form::If(_, yes, _) => found(env, maker, yes),
        Form::MatchList(_, empty, _, _, _) => found(env, maker, empty),
        Form::MatchTree(_, empty, _, _, _, _) => found(env, maker, empty),
        Form::MatchOption(_, empty, _, _) => found(env, maker, empty),
        Form::Tick(_, rest) => found(env, maker, rest),
        Form::Typed(_, ty) => maker.copy(ty),
    }
}

#[cycle(found)]
fn found_pair<'s, 'a>(
    env: Env<'s, 'a>,
    maker: &mut Maker,
    first: &'a Expr,
    second: &'a Expr,
) -> Result<Ty, AllocError>
    ensures { IfOk result (λ ty. ty_of ty ≡ found_in env.entry (t.Pair 0 (term_of first.now) (term_of second.now))) }
{
    let first = found(env, maker, first)?;
    let second = found(env, maker, second)?;
    maker.pair(first, second)
}

#[cycle(found)]
fn found_let<'s, 'a>(
    env: Env<'s, 'a>,
    maker: &mut Maker,
    x: &'a Binder,
    bound: &'a Expr,
    rest: &'a Expr,
) -> Result<Ty, AllocError>
    ensures { IfOk result (λ ty. ty_of ty ≡ found_in env.entry (t.Let 0 (bound_of x.now) (term_of bound.now) (term_of rest.now))) }
{
    let ty = found(env, maker, bound)?;
    let local = Local {
        name: &x.name,
        number: 0,
        ty: TyRef::Of(&ty),
    };
    found_below(env, maker, local, rest)
}

#[cycle(found)]
fn found_let_pair<'s, 'a>(
    env: Env<'s, 'a>,
    maker: &mut Maker,
    x: &'a Binder,
    y: &'a Binder,
    bound: &'a Expr,
    rest: &'a Expr,
) -> Result<Ty, AllocError>
    ensures { IfOk result (λ ty. ty_of ty
        ≡ found_in env.entry (t.LetPair 0 (bound_of x.now) (bound_of y.now) (term_of bound.now) (term_of rest.now))) }
{
    let ty = found(env, maker, bound)?;
    let first = Local {
        name: &x.name,
        number: 0,
        ty: TyRef::Of(&ty).first_part(),
    };
    let second = Local {
        name: &y.name,
        number: 0,
        ty: TyRef::Of(&ty).second_part(),
    };
    found_below_two(env, maker, first, second, rest)
}

/// The type that is found below one more variable.
#[cycle(found)]
fn found_below<'s, 'a>(
    env: Env<'s, 'a>,
    maker: &mut Maker,
    local: Local<'s, 'a>,
    e: &'a Expr,
) -> Result<Ty, AllocError>
    ensures { IfOk result (λ ty. ty_of ty
        ≡ one.found (program_in env.entry) (one.types_in (named local.entry ∷ scope_in env.entry.scope.now)) (term_of e.now)) }
{
    let scope = Scope::Bound {
        local,
        outer: env.scope,
    };
    let inner = Env {
        scope: &scope,
        ..env
    };
    found(inner, maker, e)
}

/// The type that is found below two more variables, of which the second is the newer.
#[cycle(found)]
fn found_below_two<'s, 'a>(
    env: Env<'s, 'a>,
    maker: &mut Maker,
    first: Local<'s, 'a>,
    second: Local<'s, 'a>,
    e: &'a Expr,
) -> Result<Ty, AllocError>
    ensures { IfOk result (λ ty. ty_of ty
        ≡ one.found (program_in env.entry)
        (one.types_in (named second.entry ∷ (named first.entry ∷ scope_in env.entry.scope.now))) (term_of e.now)) }
{
    let scope = Scope::Bound {
        local: first,
        outer: env.scope,
    };
    let inner = Env {
        scope: &scope,
        ..env
    };
    found_below(inner, maker, second, e)
}
