// Forms over operands.
ghost use Rattle.std.specs.Prelude.{◌≡◌, IfOk, None};
ghost use Rattle.raml_syntax.specs.Read.{term_of};
ghost use Rattle.raml_syntax.specs.Tree as t;
ghost use Rattle.normal_operands.specs.Types.{wanted};
ghost use Rattle.normal_operands.specs.Read.{norm_in, form_at};

use crate::maker::Maker;
use crate::naming::{name_expr, name_operand, type_of};
use crate::operand::{close_one, close_three, close_two};
use crate::scope::Env;
use crate::types::{TyRef, element_of, first_of, second_of};
use normal_spec::{NormExpr, NormForm, NormOp};
use raml_syntax::{ArithOp, CompareOp, Expr};
use std::alloc::AllocError;

/// The form of an arithmetic operator.
#[cycle(naming)]
pub fn name_arith<'s, 'a>(
    env: Env<'s, 'a>,
    maker: &mut Maker,
    op: ArithOp,
    left: &'a Expr,
    right: &'a Expr,
) -> Result<Box<NormExpr>, AllocError>
    ensures { IfOk result (λ made. norm_in made ≡ form_at env.entry None (t.Arith 0 op (term_of left.now) (term_of right.now))) }
{
    let left = name_operand(env, maker, Some(TyRef::Int), left)?;
    let free = left.after(env.free)?;
    let right = name_operand(Env { free, ..env }, maker, Some(TyRef::Int), right)?;
    let form = NormForm::Op(NormOp::Arith(op, left.variable(), right.variable()));
    close_two(maker, left, right, form)
}

/// The form of a comparison.
#[cycle(naming)]
pub fn name_compare<'s, 'a>(
    env: Env<'s, 'a>,
    maker: &mut Maker,
    op: CompareOp,
    left: &'a Expr,
    right: &'a Expr,
) -> Result<Box<NormExpr>, AllocError>
    ensures { IfOk result (λ made. norm_in made ≡ form_at env.entry None (t.Compare 0 op (term_of left.now) (term_of right.now))) }
{
    let left = name_operand(env, maker, Some(TyRef::Int), left)?;
    let free = left.after(env.free)?;
    let right = name_operand(Env { free, ..env }, maker, Some(TyRef::Int), right)?;
    let form = NormForm::Op(NormOp::Compare(op, left.variable(), right.variable()));
    close_two(maker, left, right, form)
}

/// The form of `not part`.
#[cycle(naming)]
pub fn name_not<'s, 'a>(
    env: Env<'s, 'a>,
    maker: &mut Maker,
    part: &'a Expr,
) -> Result<Box<NormExpr>, AllocError>
    ensures { IfOk result (λ made. norm_in made ≡ form_at env.entry None (t.Not 0 (term_of part.now))) }
{
    let part = name_operand(env, maker, Some(TyRef::Bool), part)?;
    let form = NormForm::Op(NormOp::Not(part.variable()));
    close_one(maker, part, form)
}

/// The form of a pair.
#[cycle(naming)]
pub fn name_pair<'s, 'a>(
    env: Env<'s, 'a>,
    maker: &mut Maker,
    want: Option<TyRef>,
    first: &'a Expr,
    second: &'a Expr,
) -> Result<Box<NormExpr>, AllocError>
    ensures { IfOk result (λ made. norm_in made
        ≡ form_at env.entry (wanted want.entry) (t.Pair 0 (term_of first.now) (term_of second.now))) }
{
    let first = name_operand(env, maker, first_of(want), first)?;
    let free = first.after(env.free)?;
    let second = name_operand(Env { free, ..env }, maker, second_of(want), second)?;
    let form = NormForm::Pair(first.variable(), second.variable());
    close_two(maker, first, second, form)
}

/// The form of `head :: tail`.
#[cycle(naming)]
pub fn name_cons<'s, 'a>(
    env: Env<'s, 'a>,
    maker: &mut Maker,
    want: Option<TyRef>,
    head: &'a Expr,
    tail: &'a Expr,
) -> Result<Box<NormExpr>, AllocError>
    ensures { IfOk result (λ made. norm_in made ≡ form_at env.entry (wanted want.entry) (t.Cons 0 (term_of head.now) (term_of tail.now))) }
{
    let element = type_of(env, maker, element_of(want), head)?;
    let list = maker.list(element)?;
    let head = name_operand(env, maker, element_of(want), head)?;
    let free = head.after(env.free)?;
    let tail = name_operand(Env { free, ..env }, maker, Some(TyRef::Of(&list)), tail)?;
    let form = NormForm::Cons(head.variable(), tail.variable());
    close_two(maker, head, tail, form)
}

/// The form of a node of a tree.
#[cycle(naming)]
pub fn name_node<'s, 'a>(
    env: Env<'s, 'a>,
    maker: &mut Maker,
    want: Option<TyRef>,
    element: &'a Expr,
    left: &'a Expr,
    right: &'a Expr,
) -> Result<Box<NormExpr>, AllocError>
    ensures { IfOk result (λ made. norm_in made
        ≡ form_at env.entry (wanted want.entry) (t.Node 0 (term_of element.now) (term_of left.now) (term_of right.now))) }
{
    let item = type_of(env, maker, element_of(want), element)?;
    let tree = maker.tree(item)?;
    let element = name_operand(env, maker, element_of(want), element)?;
    let free = element.after(env.free)?;
    let left = name_operand(Env { free, ..env }, maker, Some(TyRef::Of(&tree)), left)?;
    let free = left.after(free)?;
    let right = name_operand(Env { free, ..env }, maker, Some(TyRef::Of(&tree)), right)?;
    let form = NormForm::Node(element.variable(), left.variable(), right.variable());
    close_three(maker, element, left, right, form)
}

/// The form of `some` of its content.
#[cycle(naming)]
pub fn name_just<'s, 'a>(
    env: Env<'s, 'a>,
    maker: &mut Maker,
    want: Option<TyRef>,
    content: &'a Expr,
) -> Result<Box<NormExpr>, AllocError>
    ensures { IfOk result (λ made. norm_in made ≡ form_at env.entry (wanted want.entry) (t.Just 0 (term_of content.now))) }
{
    let content = name_operand(env, maker, element_of(want), content)?;
    let form = NormForm::Just(content.variable());
    close_one(maker, content, form)
}

/// The form of `tick ticks in rest`.
#[cycle(naming)]
pub fn name_tick<'s, 'a>(
    env: Env<'s, 'a>,
    maker: &mut Maker,
    want: Option<TyRef>,
    ticks: u32,
    rest: &'a Expr,
) -> Result<Box<NormExpr>, AllocError>
    ensures { IfOk result (λ made. norm_in made ≡ form_at env.entry (wanted want.entry) (t.Tick 0 ticks (term_of rest.now))) }
{
    let rest = name_expr(env, maker, want, rest)?;
    maker.form(1, NormForm::Tick(ticks, rest))
}
