// Free variables of forms.
ghost use Rattle.std.specs.Prelude.{◌≡◌, ◌&&◌, not, ℕ, IfOk};
ghost use Rattle.normal_spec.specs.Free.{among, free_in};
ghost use Rattle.normal_spec.specs.Read.{norm_of, parameters_of, op_form};
ghost use Rattle.annot_types.specs.Carried.{marks};

use normal_spec::{NormExpr, NormForm, NormOp};
use raml_syntax::Ty;
use std::alloc::{AllocError, Global};

// Whether the variable is one of some others.
fn among(x: u32, others: &[u32]) -> bool
    ensures { result ≡ among x others.now }
{
    others.contains(&x)
}

fn is_free_in_operator(x: u32, op: NormOp) -> bool
    ensures { (nodes : ℕ) → result ≡ free_in x (op_form op nodes) }
{
    match op {
        NormOp::Arith(_, y, z) | NormOp::Compare(_, y, z) => among(x, &[y, z]),
        NormOp::Not(y) => among(x, &[y]),
    }
}

// Free in the form, where it is none of those that are bound for it.
#[cycle(free)]
fn is_free_behind(x: u32, bound: &[u32], expr: &NormExpr) -> bool
    ensures { result ≡ (not (among x bound.now) && free_in x (norm_of expr.now)) }
{
    if among(x, bound) {
        false
    } else {
        is_free(x, expr)
    }
}

/// Whether the variable is free in the form.
#[cycle(free)]
pub fn is_free(x: u32, expr: &NormExpr) -> bool
    ensures { result ≡ free_in x (norm_of expr.now) }
{
    match &expr.form {
        NormForm::Const(_) | NormForm::Nil | NormForm::Leaf | NormForm::Nothing => false,
        NormForm::Var(y) | NormForm::Just(y) => among(x, &[*y]),
        NormForm::Op(op) => is_free_in_operator(x, *op),
        NormForm::Pair(y, z) | NormForm::Cons(y, z) => among(x, &[*y, *z]),
        NormForm::Node(y, z, w) => among(x, &[*y, *z, *w]),
        NormForm::Call(_, args) => among(x, args),
        NormForm::Let(y, _, a, b) => is_free(x, a) || is_free_behind(x, &[*y], b),
        NormForm::Split(y, p, q, a) => x == *y || is_free_behind(x, &[*p, *q], a),
        NormForm::If(y, a, b) => x == *y || is_free(x, a) || is_free(x, b),
        NormForm::CaseList(y, a, h, t, b) => x == *y
            || is_free(x, a)
            || is_free_behind(x, &[*h, *t], b),
        NormForm::CaseTree(y, a, e, l, r, b) => {
            x == *y || is_free(x, a) || is_free_behind(x, &[*e, *l, *r], b)
        }
        NormForm::CaseOption(y, a, w, b) => x == *y || is_free(x, a) || is_free_behind(x, &[*w], b),
        NormForm::Tick(_, a) => is_free(x, a),
        NormForm::Share(y, p, q, a) => x == *y || is_free_behind(x, &[*p, *q], a),
        NormForm::Drop(y, a) => x == *y || is_free(x, a),
    }
}

/// Which variables of the context the form uses.
pub fn marks(alloc: Global, expr: &NormExpr, context: &[(u32, Ty)]) -> Result<Vec<bool>, AllocError>
    ensures { IfOk result (λ found. found.items ≡ marks (norm_of expr.now) (parameters_of context.now)) }
{
    let mut found = Vec::with_capacity(alloc, context.len())?;
    for (variable, _) in context {
        found.push(is_free(*variable, expr))?;
    }
    Ok(found)
}
