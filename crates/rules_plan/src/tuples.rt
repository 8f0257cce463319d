// Tuples of contexts, and their places.
ghost use Rattle.std.specs.Prelude.{◌≡◌, ◌∷◌, [], ◌++◌, IfOk};
ghost use Rattle.raml_syntax.specs.Read.{ty_of};
ghost use Rattle.base_poly.specs.Read.{context_of};
ghost use Rattle.normal_spec.specs.Context.{types};
ghost use Rattle.normal_spec.specs.Read.{parameters_of};
ghost use Rattle.index_shift.specs.Contexts.{marked_items, other_items};
ghost use Rattle.annot_types.specs.Rows.{size as size_of};
ghost use Rattle.rules_plan.specs.Down.{up, many_low};
ghost use Rattle.tuple_ranks.specs.Spots.{permuted_spots, half_spots, joined_spots};

use crate::context;
use crate::flat::{flat_context, flat_sizes, flat_types, held, held_among};
use crate::within::MOST;
use base_poly::degrees;
use raml_syntax::Ty;
use std::alloc::{AllocError, Global};
use tuple_ranks::Cut;

/// How many tuples of degree at most `d` the types have. They are few where a walk was found to be
/// within its limits; else memory is wanting.
pub fn size(alloc: Global, types: &[Ty], d: u8) -> Result<usize, AllocError>
    ensures { IfOk result (λ size. size ≡ size_of (context_of types.now) d) }
{
    match flat_types(types, d) {
        Some(size) => Ok(size),
        None => counted(alloc, types, d),
    }
}

/// How many the context has, under the same condition.
pub fn context_size(alloc: Global, context: &[(u32, Ty)], d: u8) -> Result<usize, AllocError>
    ensures { IfOk result (λ size. size ≡ size_of (types (parameters_of context.now)) d) }
{
    match flat_context(context, d) {
        Some(size) => Ok(size),
        None => counted_in(alloc, context, d),
    }
}

fn counted_in(alloc: Global, context: &[(u32, Ty)], d: u8) -> Result<usize, AllocError>
    ensures { IfOk result (λ size. size ≡ size_of (types (parameters_of context.now)) d) }
{
    let types = context::types(alloc, context)?;
    let size = counted(alloc, &types, d)?;
    Ok(size)
}

// By the degrees of all.
fn counted(alloc: Global, types: &[Ty], d: u8) -> Result<usize, AllocError>
    ensures { IfOk result (λ size. size ≡ size_of (context_of types.now) d) }
{
    match degrees(alloc, types, d, MOST) {
        Ok(found) => Ok(found.len()),
        Err(_) => Err(AllocError),
    }
}

// How many of the degrees are at most `d`.
fn many_low(degrees: &[u8], d: u8) -> usize
    ensures { result ≡ many_low degrees.now d }
{
    let mut found = 0;
    for degree in degrees {
        if *degree <= d {
            found += 1;
        }
    }
    found
}

// The same for each budget from 0 on.
#[tactic(auto, using(crate::proofs::Calling::up_more, crate::proofs::Calling::up_end))]
fn counts(alloc: Global, degrees: &[u8], top: u8) -> Result<Vec<usize>, AllocError>
    ensures { IfOk result (λ found. found.items ≡ up (many_low degrees.now) top) }
{
    let mut found = Vec::new(alloc);
    for d in 0..u16::from(top) + 1 {
        found.push(many_low(degrees, d as u8))?;
    }
    Ok(found)
}

/// How many tuples the types have at each budget from 0 on, under the same condition.
#[tactic(auto, using(crate::proofs::Flatness::sizes_flat))]
pub fn sizes(alloc: Global, types: &[Ty], top: u8) -> Result<Vec<usize>, AllocError>
    ensures { IfOk result (λ found. found.items ≡ up (size_of (context_of types.now)) top) }
{
    match held_among(types) {
        Some(held) if top <= 4 => {
            let found = flat_sizes(alloc, held, top)?;
            Ok(found)
        }
        _ => counted_sizes(alloc, types, top),
    }
}

/// How many the context has, under the same condition.
#[tactic(auto, using(crate::proofs::Flatness::sizes_flat))]
pub fn context_sizes(
    alloc: Global,
    context: &[(u32, Ty)],
    top: u8,
) -> Result<Vec<usize>, AllocError>
    ensures { IfOk result (λ found. found.items ≡ up (size_of (types (parameters_of context.now))) top) }
{
    match held(context) {
        Some(held) if top <= 4 => {
            let found = flat_sizes(alloc, held, top)?;
            Ok(found)
        }
        _ => counted_sizes_in(alloc, context, top),
    }
}

fn counted_sizes_in(alloc: Global, context: &[(u32, Ty)], top: u8) -> Result<Vec<usize>, AllocError>
    ensures { IfOk result (λ found. found.items ≡ up (size_of (types (parameters_of context.now))) top) }
{
    let types = context::types(alloc, context)?;
    let found = counted_sizes(alloc, &types, top)?;
    Ok(found)
}

// By the degrees of all at the greatest.
#[tactic(auto, using(crate::proofs::Calling::sizes_are))]
fn counted_sizes(alloc: Global, types: &[Ty], top: u8) -> Result<Vec<usize>, AllocError>
    ensures { IfOk result (λ found. found.items ≡ up (size_of (context_of types.now)) top) }
{
    match degrees(alloc, types, top, MOST) {
        Ok(found) => counts(alloc, &found, top),
        Err(_) => Err(AllocError),
    }
}

/// Where the tuples of one context stand in another order among those of another, under the same
/// condition.
pub fn permuted_spots(
    alloc: Global,
    order: &[usize],
    from: &[Ty],
    to: &[Ty],
    d: u8,
) -> Result<Vec<usize>, AllocError>
    ensures { IfOk result (λ found. found.items ≡ permuted_spots order.now (context_of from.now) (context_of to.now) d) }
{
    match tuple_ranks::permuted_spots(alloc, order, from, to, d) {
        Ok(found) => Ok(found),
        Err(_) => Err(AllocError),
    }
}

/// What is made of a context that is cut in two for a bound form of a type, under the same condition.
pub fn cut_spots(
    alloc: Global,
    marks: &[bool],
    types: &[Ty],
    bound: &Ty,
    d: u8,
) -> Result<Cut, AllocError>
    ensures halves { IfOk result (λ cut. cut.halves.items ≡ half_spots marks.now (context_of types.now) d) }
    ensures joined { IfOk result
        (λ cut. cut.joined.items ≡ joined_spots (other_items marks.now (context_of types.now)) (ty_of bound.now ∷ []) d) }
    ensures whole { IfOk result (λ cut. cut.whole.items ≡ up (size_of (context_of types.now)) d) }
    ensures marked { IfOk result (λ cut. cut.marked.items ≡ up (size_of (marked_items marks.now (context_of types.now))) d) }
    ensures others { IfOk result (λ cut. cut.others.items ≡ up (size_of (other_items marks.now (context_of types.now))) d) }
    ensures bound { IfOk result (λ cut. cut.bound.items ≡ up (size_of (ty_of bound.now ∷ [])) d) }
    ensures rest { IfOk result
        (λ cut. cut.rest.items ≡ up (size_of (other_items marks.now (context_of types.now) ++ ty_of bound.now ∷ [])) d) }
{
    match tuple_ranks::cut_spots(alloc, marks, types, bound, d) {
        Ok(cut) => Ok(cut),
        Err(_) => Err(AllocError),
    }
}
