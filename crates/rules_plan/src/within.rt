// Contexts and types of a walk that are small enough.
ghost use Rattle.std.specs.Prelude.{◌≤◌, ◌++◌, ◌∷◌, [], OnOk, IsErrOf};
ghost use Rattle.raml_syntax.specs.Read.{ty_of};
ghost use Rattle.base_poly.specs.Read.{context_of};
ghost use Rattle.normal_spec.specs.Read.{norm_of, parameters_of};
ghost use Rattle.normal_spec.specs.Context.{without, opened, parts_of, copies_of, inners, others};
ghost use Rattle.annot_types.specs.Rows.{size as size_of};
ghost use Rattle.rules_plan.specs.Within.{AreSmall, IsWithin, BoundWithin};

use crate::context;
use crate::fault::PlanFault;
use base_poly::{IndexFault, degrees};
use normal_spec::{NormExpr, NormForm};
use raml_syntax::Ty;
use std::alloc::Global;
use std::slice;

/// The most indices that a context or a type may have.
pub const MOST: usize = 2000;

// The types together have few enough indices.
fn few(alloc: Global, types: &[Ty], d: u8) -> Result<(), PlanFault>
    ensures fits { OnOk result (size_of (context_of types.now) d ≤ 2000) }
    ensures many { IsErrOf result PlanFault.TooMany → size_of (context_of types.now) d ≤ 2000 → ⊥ }
{
    match degrees(alloc, types, d, MOST) {
        Ok(_) => Ok(()),
        Err(IndexFault::TooMany) => Err(PlanFault::TooMany),
        Err(IndexFault::NoMemory) => Err(PlanFault::NoMemory),
    }
}

// The context and the type have.
fn small(alloc: Global, context: &[(u32, Ty)], ty: &Ty, d: u8) -> Result<(), PlanFault>
    ensures fits { OnOk result (AreSmall 2000 (parameters_of context.now) (ty_of ty.now) d) }
    ensures many { IsErrOf result PlanFault.TooMany → AreSmall 2000 (parameters_of context.now) (ty_of ty.now) d → ⊥ }
{
    few(alloc, &context::types(alloc, context)?, d)?;
    few(alloc, slice::from_ref(ty), d)
}

/// A walk through the form from this context comes to small contexts and types alone.
///
/// `TooMany` where it does not.
#[cycle(within)]
pub fn check(
    alloc: Global,
    expr: &NormExpr,
    context: &[(u32, Ty)],
    ty: &Ty,
    d: u8,
) -> Result<(), PlanFault>
    ensures fits { OnOk result (IsWithin 2000 (norm_of expr.now) (parameters_of context.now) (ty_of ty.now) d) }
    ensures many { IsErrOf result PlanFault.TooMany → IsWithin 2000 (norm_of expr.now) (parameters_of context.now) (ty_of ty.now) d → ⊥ }
{
    small(alloc, context, ty, d)?;
    match &expr.form {
        NormForm::Let(x, bound, a, b) => check_let(alloc, *x, bound, a, b, context, ty, d),
        NormForm::Split(x, p, q, a) => check_opened(alloc, *x, &[*p, *q], a, context, ty, d),
        NormForm::If(x, a, b) => check_both(alloc, *x, a, b, context, ty, d),
        NormForm::CaseList(x, a, h, t, b) => {
            check_case(alloc, *x, a, &[*h, *t], b, context, ty, d)
        }
        NormForm::CaseTree(x, a, e, l, r, b) => {
            check_case(alloc, *x, a, &[*e, *l, *r], b, context, ty, d)
        }
        NormForm::CaseOption(x, a, w, b) => check_case(alloc, *x, a, &[*w], b, context, ty, d),
        NormForm::Tick(_, a) => check(alloc, a, context, ty, d),
        NormForm::Share(x, p, q, a) => check_shared(alloc, *x, &[*p, *q], a, context, ty, d),
        NormForm::Drop(x, a) => check_without(alloc, *x, a, context, ty, d),
        _ => Ok(()),
    }
}

// Without a variable.
#[cycle(within)]
fn check_without(
    alloc: Global,
    x: u32,
    a: &NormExpr,
    context: &[(u32, Ty)],
    ty: &Ty,
    d: u8,
) -> Result<(), PlanFault>
    ensures fits { OnOk result (IsWithin 2000 (norm_of a.now) (without x (parameters_of context.now)) (ty_of ty.now) d) }
    ensures many { IsErrOf result PlanFault.TooMany →
        IsWithin 2000 (norm_of a.now) (without x (parameters_of context.now)) (ty_of ty.now) d → ⊥ }
{
    let rest = context::without(alloc, context, x)?;
    check(alloc, a, &rest, ty, d)
}

// With the parts of a variable.
#[cycle(within)]
fn check_opened(
    alloc: Global,
    x: u32,
    names: &[u32],
    a: &NormExpr,
    context: &[(u32, Ty)],
    ty: &Ty,
    d: u8,
) -> Result<(), PlanFault>
    ensures fits { OnOk result (IsWithin 2000 (norm_of a.now) (opened x names.now parts_of (parameters_of context.now)) (ty_of ty.now) d) }
    ensures many { IsErrOf result PlanFault.TooMany →
        IsWithin 2000 (norm_of a.now) (opened x names.now parts_of (parameters_of context.now)) (ty_of ty.now) d → ⊥ }
{
    let rest = context::opened(alloc, context, x, names)?;
    check(alloc, a, &rest, ty, d)
}

// With two copies of a variable.
#[cycle(within)]
fn check_shared(
    alloc: Global,
    x: u32,
    names: &[u32],
    a: &NormExpr,
    context: &[(u32, Ty)],
    ty: &Ty,
    d: u8,
) -> Result<(), PlanFault>
    ensures fits { OnOk result (IsWithin 2000 (norm_of a.now) (opened x names.now copies_of (parameters_of context.now)) (ty_of ty.now) d) }
    ensures many { IsErrOf result PlanFault.TooMany →
        IsWithin 2000 (norm_of a.now) (opened x names.now copies_of (parameters_of context.now)) (ty_of ty.now) d → ⊥ }
{
    let rest = context::shared(alloc, context, x, names)?;
    check(alloc, a, &rest, ty, d)
}

// Two branches without a variable.
#[cycle(within)]
fn check_both(
    alloc: Global,
    x: u32,
    a: &NormExpr,
    b: &NormExpr,
    context: &[(u32, Ty)],
    ty: &Ty,
    d: u8,
) -> Result<(), PlanFault>
    ensures fits { OnOk result
        (IsWithin 2000 (norm_of a.now) (without x (parameters_of context.now)) (ty_of ty.now) d
        × IsWithin 2000 (norm_of b.now) (without x (parameters_of context.now)) (ty_of ty.now) d) }
    ensures many { IsErrOf result PlanFault.TooMany →
        IsWithin 2000 (norm_of a.now) (without x (parameters_of context.now)) (ty_of ty.now) d
        × IsWithin 2000 (norm_of b.now) (without x (parameters_of context.now)) (ty_of ty.now) d → ⊥ }
{
    check_without(alloc, x, a, context, ty, d)?;
    check_without(alloc, x, b, context, ty, d)
}

// A branch without a variable, and one with its parts.
#[cycle(within)]
fn check_case(
    alloc: Global,
    x: u32,
    a: &NormExpr,
    names: &[u32],
    b: &NormExpr,
    context: &[(u32, Ty)],
    ty: &Ty,
    d: u8,
) -> Result<(), PlanFault>
    ensures fits { OnOk result
        (IsWithin 2000 (norm_of a.now) (without x (parameters_of context.now)) (ty_of ty.now) d
        × IsWithin 2000 (norm_of b.now) (opened x names.now parts_of (parameters_of context.now)) (ty_of ty.now) d) }
    ensures many { IsErrOf result PlanFault.TooMany →
        IsWithin 2000 (norm_of a.now) (without x (parameters_of context.now)) (ty_of ty.now) d
        × IsWithin 2000 (norm_of b.now) (opened x names.now parts_of (parameters_of context.now)) (ty_of ty.now) d → ⊥ }
{
    check_without(alloc, x, a, context, ty, d)?;
    check_opened(alloc, x, names, b, context, ty, d)
}

// The form that is bound, at the greatest budget that a tuple leaves.
#[cycle(within)]
fn check_bound(
    alloc: Global,
    a: &NormExpr,
    context: &[(u32, Ty)],
    ty: &Ty,
    d: u8,
) -> Result<(), PlanFault>
    ensures fits { OnOk result (IsWithin 2000 (norm_of a.now) (inners (norm_of a.now) (parameters_of context.now)) (ty_of ty.now) d) }
    ensures many { IsErrOf result PlanFault.TooMany →
        IsWithin 2000 (norm_of a.now) (inners (norm_of a.now) (parameters_of context.now)) (ty_of ty.now) d → ⊥ }
{
    let used = context::inners(alloc, a, context)?;
    check(alloc, a, &used, ty, d)
}

// The rest behind a bound form.
#[cycle(within)]
fn check_rest(
    alloc: Global,
    x: u32,
    bound: &Ty,
    a: &NormExpr,
    b: &NormExpr,
    context: &[(u32, Ty)],
    ty: &Ty,
    d: u8,
) -> Result<(), PlanFault>
    ensures fits { OnOk result
        (IsWithin 2000 (norm_of b.now) (others (norm_of a.now) (parameters_of context.now) ++ (x, ty_of bound.now) ∷ []) (ty_of ty.now) d) }
    ensures many { IsErrOf result PlanFault.TooMany →
        IsWithin 2000 (norm_of b.now)
        (others (norm_of a.now) (parameters_of context.now) ++ (x, ty_of bound.now) ∷ []) (ty_of ty.now) d → ⊥ }
{
    let unused = context::others(alloc, a, context)?;
    let rest = context::with_bound(alloc, &unused, x, bound)?;
    check(alloc, b, &rest, ty, d)
}

// Both.
#[cycle(within)]
fn check_let(
    alloc: Global,
    x: u32,
    bound: &Ty,
    a: &NormExpr,
    b: &NormExpr,
    context: &[(u32, Ty)],
    ty: &Ty,
    d: u8,
) -> Result<(), PlanFault>
    ensures fits { OnOk result
        (BoundWithin 2000 (norm_of a.now) (parameters_of context.now) (ty_of bound.now) d
        × IsWithin 2000 (norm_of b.now)
        (others (norm_of a.now) (parameters_of context.now) ++ (x, ty_of bound.now) ∷ []) (ty_of ty.now) d) }
    ensures many { IsErrOf result PlanFault.TooMany →
        BoundWithin 2000 (norm_of a.now) (parameters_of context.now) (ty_of bound.now) d
        × IsWithin 2000 (norm_of b.now)
        (others (norm_of a.now) (parameters_of context.now) ++ (x, ty_of bound.now) ∷ []) (ty_of ty.now) d → ⊥ }
{
    check_bound(alloc, a, context, bound, d)?;
    check_rest(alloc, x, bound, a, b, context, ty, d)
}
