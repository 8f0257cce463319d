// Forms, and shares and drops around them.
ghost use Rattle.std.specs.Prelude.{◌≡◌, IfOk};
ghost use Rattle.normal_spec.specs.Norm as n;
ghost use Rattle.normal_spec.specs.Two as two;
ghost use Rattle.normal_spec.specs.Read.{form_of, norm_of};

use crate::slots::{Shared, Slot};
use normal_spec::{NormExpr, NormForm};
use std::alloc::{AllocError, Global};

/// A form that stands for so many nodes.
pub fn expr(nodes: u32, form: NormForm) -> NormExpr
    ensures { norm_of result ≡ form_of form nodes }
{
    NormExpr { nodes, form }
}

/// A share, and then the rest.
fn share_before(alloc: Global, shared: Shared, rest: NormExpr) -> Result<NormExpr, AllocError>
    ensures { IfOk result (λ made. norm_of made ≡ n.Share 0 shared.variable shared.first shared.second (norm_of rest)) }
{
    let rest = Box::new(alloc, rest)?;
    let form = NormForm::Share(shared.variable, shared.first, shared.second, rest);
    Ok(expr(0, form))
}

/// A drop of the copy of a slot, and then the rest.
fn drop_before(alloc: Global, slot: Slot, rest: NormExpr) -> Result<NormExpr, AllocError>
    ensures { IfOk result (λ made. norm_of made ≡ n.Drop 0 slot.1 (norm_of rest)) }
{
    let rest = Box::new(alloc, rest)?;
    let form = NormForm::Drop(slot.copy, rest);
    Ok(expr(0, form))
}

/// The shares in their order, and then the rest.
#[tactic(auto, using(crate::proofs::Pushed::share_all_push))]
pub fn share_all(alloc: Global, shares: Vec<Shared>, rest: NormExpr) -> Result<NormExpr, AllocError>
    ensures { IfOk result (λ made. norm_of made ≡ two.share_all shares.items (norm_of rest)) }
{
    let mut shares = shares;
    let mut made = rest;
    while let Some(shared) = shares.pop() {
        made = share_before(alloc, shared, made)?;
    }
    Ok(made)
}

/// A drop of the copy of each slot in their order, and then the rest.
#[tactic(auto, using(crate::proofs::Pushed::drop_all_push))]
pub fn drop_all(alloc: Global, slots: Vec<Slot>, rest: NormExpr) -> Result<NormExpr, AllocError>
    ensures { IfOk result (λ made. norm_of made ≡ two.drop_all slots.items (norm_of rest)) }
{
    let mut slots = slots;
    let mut made = rest;
    while let Some(slot) = slots.pop() {
        made = drop_before(alloc, slot, made)?;
    }
    Ok(made)
}
