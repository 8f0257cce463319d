// Lists and trees of scalars: contexts that have a few of them, and else scalars alone, are counted
// without a list of their tuples.
ghost use Rattle.std.specs.Prelude.{◌≡◌, ◌≤◌, map, IfOk, IfSome};
ghost use Rattle.raml_syntax.specs.Read.{ty_of};
ghost use Rattle.base_poly.specs.Read.{context_of};
ghost use Rattle.normal_spec.specs.Context.{types};
ghost use Rattle.normal_spec.specs.Read.{parameters_of};
ghost use Rattle.annot_types.specs.Rows.{size as size_of};
ghost use Rattle.rules_plan.specs.Down.{up};
ghost use Rattle.rules_plan.specs.Flat.{holder_of, holders, all_holders, flat_size};

use raml_syntax::Ty;
use std::alloc::{AllocError, Global};

/// The most of them that a context may have here.
pub const MOST: u8 = 10;

fn holder_of(element: &Ty) -> u8
    ensures { result ≡ holder_of (ty_of element.now) }
{
    match element {
        Ty::Int | Ty::Bool => 1,
        Ty::Pair(..) | Ty::List(_) | Ty::Tree(_) | Ty::Opt(_) => MOST + 1,
    }
}

/// Whether the type is one of them: 1 where it is, 0 where it is a scalar, and else too many.
pub fn holders(ty: &Ty) -> u8
    ensures { result ≡ holders (ty_of ty.now) }
{
    match ty {
        Ty::Int | Ty::Bool => 0,
        Ty::List(element) | Ty::Tree(element) => holder_of(element),
        Ty::Pair(..) | Ty::Opt(_) => MOST + 1,
    }
}

/// How many the context has, where these are not too many.
pub fn held(context: &[(u32, Ty)]) -> Option<u8>
    ensures { IfSome result (λ held. (held ≡ all_holders (types (parameters_of context.now))) × (held ≤ 10)) }
{
    let mut left = MOST;
    for (_, ty) in context {
        let more = holders(ty);
        if more > left {
            return None;
        }
        left -= more;
    }
    Some(MOST - left)
}

/// How many there are among the types.
pub fn held_among(types: &[Ty]) -> Option<u8>
    ensures { IfSome result (λ held. (held ≡ all_holders (context_of types.now)) × (held ≤ 10)) }
{
    let mut left = MOST;
    for ty in types {
        let more = holders(ty);
        if more > left {
            return None;
        }
        left -= more;
    }
    Some(MOST - left)
}

// How many tuples there are with so many of them.
#[tactic(auto, using(crate::proofs::Flatness::size_step))]
fn flat_size(held: u8, d: u8) -> usize
    requires few { held ≤ 10 }
    requires low { d ≤ 4 }
    ensures { result ≡ flat_size held d }
{
    let mut first: usize = 1;
    let mut second: usize = 1;
    let mut third: usize = 1;
    let mut fourth: usize = 1;
    for done in 0..held {
        first += 1;
        second += first;
        third += second;
        fourth += third;
    }
    match d {
        0 => 1,
        1 => first,
        2 => second,
        3 => third,
        _ => fourth,
    }
}

/// How many tuples of degree at most `d` the context has, where it is of this kind.
pub fn flat_context(context: &[(u32, Ty)], d: u8) -> Option<usize>
    ensures { IfSome result (λ size. size ≡ size_of (types (parameters_of context.now)) d) }
{
    if d > 4 {
        return None;
    }
    Some(flat_size(held(context)?, d))
}

/// How many the types have, where they are of this kind.
pub fn flat_types(types: &[Ty], d: u8) -> Option<usize>
    ensures { IfSome result (λ size. size ≡ size_of (context_of types.now) d) }
{
    if d > 4 {
        return None;
    }
    Some(flat_size(held_among(types)?, d))
}

/// The same at each budget from 0 on, of a context with so many of them.
#[tactic(auto, using(crate::proofs::Calling::up_more, crate::proofs::Calling::up_end))]
pub fn flat_sizes(alloc: Global, held: u8, top: u8) -> Result<Vec<usize>, AllocError>
    requires few { held ≤ 10 }
    requires low { top ≤ 4 }
    ensures { IfOk result (λ found. found.items ≡ up (flat_size held) top) }
{
    let mut found = Vec::with_capacity(alloc, usize::from(top) + 1)?;
    for d in 0..u16::from(top) + 1 {
        found.push(flat_size(held, d as u8))?;
    }
    Ok(found)
}
