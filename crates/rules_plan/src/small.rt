// Walks that are within their limits, since their contexts have a few lists and trees of scalars, and
// else scalars alone.
ghost use Rattle.std.specs.Prelude.{◌≡◌, ◌≤◌, ◌-◌, ◌&&◌, nat_le, IsTrue};
ghost use Rattle.raml_syntax.specs.Read.{ty_of};
ghost use Rattle.normal_spec.specs.Read.{norm_of, parameters_of};
ghost use Rattle.rules_plan.specs.Flat.{flat_size, is_flat};
ghost use Rattle.rules_plan.specs.Within.{IsWithin};

use crate::flat::{MOST, held, holders};
use normal_spec::{NormExpr, NormForm, NormFun};
use raml_syntax::Ty;

// A walk through the form comes to at most so many more than its first context has.
#[cycle(small)]
fn is_flat(expr: &NormExpr, left: u8) -> bool
    ensures { result ≡ is_flat (norm_of expr.now) left }
{
    match &expr.form {
        NormForm::Let(_, bound, a, b) => is_flat_behind(holders(bound), a, b, left),
        NormForm::CaseTree(_, a, _, _, _, b) => is_flat_behind(1, a, b, left),
        NormForm::If(_, a, b) => is_flat(a, left) && is_flat(b, left),
        NormForm::CaseList(_, a, _, _, b) => is_flat(a, left) && is_flat(b, left),
        NormForm::CaseOption(_, a, _, b) => is_flat(a, left) && is_flat(b, left),
        NormForm::Share(_, _, _, a) => 1 <= left && is_flat(a, left - 1),
        NormForm::Split(_, _, _, a) | NormForm::Tick(_, a) | NormForm::Drop(_, a) => is_flat(
            a, left,
        ),
        _ => true,
    }
}

// The same of two forms, of which the second begins with so many more.
#[cycle(small)]
fn is_flat_behind(more: u8, a: &NormExpr, b: &NormExpr, left: u8) -> bool
    ensures { result ≡ (nat_le more left && (is_flat (norm_of a.now) left && is_flat (norm_of b.now) (left - more))) }
{
    more <= left && is_flat(a, left) && is_flat(b, left - more)
}

// How many a context may have at a budget, so that it has at most 2000 tuples.
#[tactic(auto, using(crate::proofs::Flatness::ten_few, crate::proofs::Flatness::none_few))]
fn room(d: u8) -> u8
    ensures ten { result ≤ 10 }
    ensures few { flat_size result d ≤ 2000 }
{
    if d <= 4 { MOST } else { 0 }
}

/// Whether the walk of the function's body is found to be within its limits.
pub fn is_small(function: &NormFun, ty: &Ty, d: u8) -> bool
    ensures { IsTrue result → IsWithin 2000 (norm_of function.now.body) (parameters_of function.now.params.items) (ty_of ty.now) d }
{
    let room = room(d);
    match held(&function.params) {
        Some(held) if held <= room => {
            holders(ty) <= room && is_flat(&function.body, room - held)
        }
        _ => false,
    }
}
