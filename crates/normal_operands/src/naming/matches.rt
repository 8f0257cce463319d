// Branches.
ghost use Rattle.std.specs.Prelude.{◌≡◌, [], ◌∷◌, IfOk};
ghost use Rattle.raml_syntax.specs.Read.{term_of, bound_of};
ghost use Rattle.raml_syntax.specs.Tree as t;
ghost use Rattle.normal_spec.specs.Norm as n;
ghost use Rattle.normal_spec.specs.Read.{form_of};
ghost use Rattle.normal_operands.specs.Types.{wanted};
ghost use Rattle.normal_operands.specs.Read.{named, norm_in, form_at, other_below};

use crate::found::found;
use crate::maker::Maker;
use crate::naming::bindings::{name_below_one, name_below_three, name_below_two};
use crate::naming::{name_expr, name_operand, type_of};
use crate::operand::{close_one, plus};
use crate::scope::{Env, Local};
use crate::types::TyRef;
use normal_spec::{NormExpr, NormForm};
use raml_syntax::{Binder, Expr};
use std::alloc::AllocError;

/// The form of `if condition then yes else no`.
#[cycle(naming)]
pub fn name_if<'s, 'a>(
    env: Env<'s, 'a>,
    maker: &mut Maker,
    want: Option<TyRef>,
    condition: &'a Expr,
    yes: &'a Expr,
    no: &'a Expr,
) -> Result<Box<NormExpr>, AllocError>
    ensures { IfOk result (λ made. norm_in made
        ≡ form_at env.entry (wanted want.entry) (t.If 0 (term_of condition.now) (term_of yes.now) (term_of no.now))) }
{
    let condition = name_operand(env, maker, Some(TyRef::Bool), condition)?;
    let free = condition.after(env.free)?;
    let inner = Env { free, ..env };
    let first = name_expr(inner, maker, want, yes)?;
    let ty = type_of(inner, maker, want, yes)?;
    let second = name_expr(inner, maker, Some(TyRef::Of(&ty)), no)?;
    let form = NormForm::If(condition.variable(), first, second);
    close_one(maker, condition, form)
}

/// The form of a match on a list that is a variable.
#[cycle(naming)]
fn list_form<'s, 'a>(
    env: Env<'s, 'a>,
    maker: &mut Maker,
    want: Option<TyRef>,
    list: u32,
    empty: &'a Expr,
    head: Local<'s, 'a>,
    tail: Local<'s, 'a>,
    rest: &'a Expr,
) -> Result<NormForm, AllocError>
    ensures { IfOk result (λ form. form_of form 0
        ≡ n.CaseList 0 list (form_at env.entry (wanted want.entry) (term_of empty.now)) head.entry.number tail.entry.number
        (other_below env.entry (named tail.entry ∷ (named head.entry ∷ [])) (wanted want.entry) (term_of empty.now) (term_of rest.now))) }
{
    let free = plus(env.free, 2)?;
    let first = name_expr(env, maker, want, empty)?;
    let ty = type_of(env, maker, want, empty)?;
    let want = Some(TyRef::Of(&ty));
    let second = name_below_two(Env { free, ..env }, maker, want, head, tail, rest)?;
    Ok(NormForm::CaseList(list, first, head.number, tail.number, second))
}

/// The form of a match on a list.
#[cycle(naming)]
pub fn name_match_list<'s, 'a>(
    env: Env<'s, 'a>,
    maker: &mut Maker,
    want: Option<TyRef>,
    subject: &'a Expr,
    empty: &'a Expr,
    x: &'a Binder,
    y: &'a Binder,
    rest: &'a Expr,
) -> Result<Box<NormExpr>, AllocError>
    ensures { IfOk result (λ made. norm_in made ≡ form_at env.entry (wanted want.entry)
        (t.MatchList 0 (term_of subject.now) (term_of empty.now) (bound_of x.now) (bound_of y.now) (term_of rest.now))) }
{
    let list = name_operand(env, maker, None, subject)?;
    let free = list.after(env.free)?;
    let next = plus(free, 1)?;
    let ty = found(env, maker, subject)?;
    let head = Local {
        name: &x.name,
        number: free,
        ty: TyRef::Of(&ty).element(),
    };
    let tail = Local {
        name: &y.name,
        number: next,
        ty: TyRef::Of(&ty),
    };
    let inner = Env { free, ..env };
    let form = list_form(inner, maker, want, list.variable(), empty, head, tail, rest)?;
    close_one(maker, list, form)
}

/// The form of a match on a tree that is a variable.
#[cycle(naming)]
fn tree_form<'s, 'a>(
    env: Env<'s, 'a>,
    maker: &mut Maker,
    want: Option<TyRef>,
    tree: u32,
    empty: &'a Expr,
    element: Local<'s, 'a>,
    left: Local<'s, 'a>,
    right: Local<'s, 'a>,
    rest: &'a Expr,
) -> Result<NormForm, AllocError>
    ensures { IfOk result (λ form. form_of form 0
        ≡ n.CaseTree 0 tree (form_at env.entry (wanted want.entry)
        (term_of empty.now)) element.entry.number left.entry.number right.entry.number
        (other_below env.entry (named right.entry ∷ (named left.entry ∷ (named element.entry ∷ [])))
        (wanted want.entry) (term_of empty.now) (term_of rest.now))) }
{
    let free = plus(env.free, 3)?;
    let first = name_expr(env, maker, want, empty)?;
    let ty = type_of(env, maker, want, empty)?;
    let want = Some(TyRef::Of(&ty));
    let inner = Env { free, ..env };
    let second = name_below_three(inner, maker, want, element, left, right, rest)?;
    Ok(NormForm::CaseTree(
        tree,
        first,
        element.number,
        left.number,
        right.number,
        second,
    ))
}

/// The form of a match on a tree.
#[cycle(naming)]
pub fn name_match_tree<'s, 'a>(
    env: Env<'s, 'a>,
    maker: &mut Maker,
    want: Option<TyRef>,
    subject: &'a Expr,
    empty: &'a Expr,
    x: &'a Binder,
    y: &'a Binder,
    z: &'a Binder,
    rest: &'a Expr,
) -> Result<Box<NormExpr>, AllocError>
    ensures { IfOk result (λ made. norm_in made ≡ form_at env.entry (wanted want.entry)
        (t.MatchTree 0 (term_of subject.now) (term_of empty.now) (bound_of x.now) (bound_of y.now) (bound_of z.now) (term_of rest.now))) }
{
    let tree = name_operand(env, maker, None, subject)?;
    let free = tree.after(env.free)?;
    let second_number = plus(free, 1)?;
    let third_number = plus(free, 2)?;
    let ty = found(env, maker, subject)?;
    let element = Local {
        name: &x.name,
        number: free,
        ty: TyRef::Of(&ty).element(),
    };
    let left = Local {
        name: &y.name,
        number: second_number,
        ty: TyRef::Of(&ty),
    };
    let right = Local {
        name: &z.name,
        number: third_number,
        ty: TyRef::Of(&ty),
    };
    let inner = Env { free, ..env };
    let form = tree_form(
        inner,
        maker,
        want,
        tree.variable(),
        empty,
        element,
        left,
        right,
        rest,
    )?;
    close_one(maker, tree, form)
}

/// The form of a match on an option that is a variable.
#[cycle(naming)]
fn option_form<'s, 'a>(
    env: Env<'s, 'a>,
    maker: &mut Maker,
    want: Option<TyRef>,
    option: u32,
    empty: &'a Expr,
    content: Local<'s, 'a>,
    rest: &'a Expr,
) -> Result<NormForm, AllocError>
    ensures { IfOk result (λ form. form_of form 0
        ≡ n.CaseOption 0 option (form_at env.entry (wanted want.entry) (term_of empty.now)) content.entry.number
        (other_below env.entry (named content.entry ∷ []) (wanted want.entry) (term_of empty.now) (term_of rest.now))) }
{
    let free = plus(env.free, 1)?;
    let first = name_expr(env, maker, want, empty)?;
    let ty = type_of(env, maker, want, empty)?;
    let want = Some(TyRef::Of(&ty));
    let second = name_below_one(Env { free, ..env }, maker, want, content, rest)?;
    Ok(NormForm::CaseOption(option, first, content.number, second))
}

/// The form of a match on an option.
#[cycle(naming)]
pub fn name_match_option<'s, 'a>(
    env: Env<'s, 'a>,
    maker: &mut Maker,
    want: Option<TyRef>,
    subject: &'a Expr,
    empty: &'a Expr,
    x: &'a Binder,
    rest: &'a Expr,
) -> Result<Box<NormExpr>, AllocError>
    ensures { IfOk result (λ made. norm_in made ≡ form_at env.entry (wanted want.entry)
        (t.MatchOption 0 (term_of subject.now) (term_of empty.now) (bound_of x.now) (term_of rest.now))) }
{
    let option = name_operand(env, maker, None, subject)?;
    let free = option.after(env.free)?;
    let ty = found(env, maker, subject)?;
    let content = Local {
        name: &x.name,
        number: free,
        ty: TyRef::Of(&ty).element(),
    };
    let inner = Env { free, ..env };
    let form = option_form(inner, maker, want, option.variable(), empty, content, rest)?;
    close_one(maker, option, form)
}
