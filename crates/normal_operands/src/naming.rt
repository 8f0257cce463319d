// Forms in which each operand is a variable, and no variable hides another.
ghost use Rattle.std.specs.Prelude.{◌≡◌, IfOk, option_map};
ghost use Rattle.raml_syntax.specs.Read.{ty_of, term_of};
ghost use Rattle.normal_spec.specs.One as one;
ghost use Rattle.normal_operands.specs.Types.{wanted};
ghost use Rattle.normal_operands.specs.Read.{program_in, scope_in, norm_in, form_at, operand_at};
ghost use Rattle.normal_operands.specs.Operand.{operand_of};

mod bindings;
mod calls;
mod matches;
mod operators;

use crate::found::found;
use crate::maker::Maker;
use crate::naming::bindings::{name_let, name_let_pair};
use crate::naming::calls::name_call;
use crate::naming::matches::{name_if, name_match_list, name_match_option, name_match_tree};
use crate::naming::operators::{
    name_arith, name_compare, name_cons, name_just, name_node, name_not, name_pair, name_tick,
};
use crate::operand::{Binding, Operand};
use crate::scope::Env;
use crate::types::TyRef;
use normal_spec::{Const, NormExpr, NormForm};
use raml_syntax::{Expr, Form, Name, Ty};
use std::alloc::AllocError;

/// The variable that an expression is, annotations aside.
fn plain(e: &Expr) -> Option<&Name>
    ensures { option_map (λ name. name.now) result ≡ one.plain (term_of e.now) }
{
    match &e.form {
        Form::Var(name) => Some(name),
        Form::Typed(part, _) => plain(part),
        Form::Number(_)
        | Form::Truth(_)
        | Form::Nil
        | Form::Leaf
        | Form::Nothing
        | Form::Arith(..)
        | Form::Compare(..)
        | Form::Not(_)
        | Form::Pair(..)
        | Form::Cons(..)
        | Form::Node(..)
        | Form::Just(_)
        | Form::Call(..)
        | Form::Let(..)
        | Form::LetPair(..)
        | Form::If(..)
        | Form::MatchList(..)
        | Form::MatchTree(..)
        | Form::MatchOption(..)
        | Form::Tick(..) => None,
    }
}

/// The type that is wanted, or else the one that is found.
fn type_of<'s, 'a>(
    env: Env<'s, 'a>,
    maker: &mut Maker,
    want: Option<TyRef>,
    e: &'a Expr,
) -> Result<Ty, AllocError>
    ensures { IfOk result (λ ty. ty_of ty
        ≡ one.type_of (program_in env.entry) (wanted want.entry) (scope_in env.entry.scope.now) (term_of e.now)) }
{
    match want {
        Some(ty) => maker.owned(ty),
        None => found(env, maker, e),
    }
}

/// The form of an expression of a wanted type, if one is wanted.
#[cycle(naming)]
pub fn name_expr<'s, 'a>(
    env: Env<'s, 'a>,
    maker: &mut Maker,
    want: Option<TyRef>,
    e: &'a Expr,
) -> Result<Box<NormExpr>, AllocError>
    ensures { IfOk result (λ made. norm_in made ≡ form_at env.entry (wanted want.entry) (term_of e.now)) }
{
    match &e.form {
        Form::Number(number) => maker.form(1, NormForm::Const(Const::Number(*number))),
        Form::Truth(truth) => maker.form(1, NormForm::Const(Const::Truth(*truth))),
        Form::Nil => maker.form(1, NormForm::Nil),
        Form::Leaf => maker.form(1, NormForm::Leaf),
        Form::Nothing => maker.form(1, NormForm::Nothing),
        Form::Var(name) => maker.form(1, NormForm::Var(env.scope.number_of(name.text()))),
        Form::Arith(op, left, right) => name_arith(env, maker, *op, left, right),
        Form::Compare(op, left, right) => name_compare(env, maker, *op, left, right),
        Form::Not(part) => name_not(env, maker, part),
        Form::Pair(first, second) => name_pair(env, maker, want, first, second),
        Form::Cons(head, tail) => name_cons(env, maker, want, head, tail),
        Form::Node(element, left, right) => name_node(env, maker, want, element, left, right),
        Form::Just(content) => name_just(env, maker, want, content),
        Form::Call(function, args) => name_call(env, maker, function, args),
        Form::Let(x, bound, rest) => name_let(env, maker, want, x, bound, rest),
        Form::LetPair(x, y, bound, rest) => name_let_pair(env, maker, want, x, y, bound, rest),
        Form::If(condition, yes, no) => name_if(env, maker, want, condition, yes, no),
        Form::MatchList(subject, empty, x, y, rest) => {
            name_match_list(env, maker, want, subject, empty, x, y, rest)
        }
        Form::MatchTree(subject, empty, x, y, z, rest) => {
            name_match_tree(env, maker, want, subject, empty, x, y, z, rest)
        }
        Form::MatchOption(subject, empty, x, rest) => {
            name_match_option(env, maker, want, subject, empty, x, rest)
        }
        Form::Tick(ticks, rest) => name_tick(env, maker, want, *ticks, rest),
        Form::Typed(part, ty) => name_expr(env, maker, Some(TyRef::Of(ty)), part),
    }
}

/// What stands for an operand of a wanted type, if one is wanted.
#[cycle(naming)]
fn name_operand<'s, 'a>(
    env: Env<'s, 'a>,
    maker: &mut Maker,
    want: Option<TyRef>,
    e: &'a Expr,
) -> Result<Operand, AllocError>
    ensures { IfOk result (λ operand. operand_of operand ≡ operand_at env.entry (wanted want.entry) (term_of e.now)) }
{
    match plain(e) {
        Some(name) => Ok(Operand::Is(env.scope.number_of(name.text()))),
        None => {
            let form = name_expr(env, maker, want, e)?;
            let ty = type_of(env, maker, want, e)?;
            let number = env.free;
            Ok(Operand::Binds(Box::new(maker.alloc, Binding { number, ty, form })?))
        }
    }
}
