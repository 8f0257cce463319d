// Whether a block without cost reaches its target.
ghost use Rattle.std.specs.Prelude.{◌≡◌, ◌≤◌, ◌∷◌, [], nat_eq, nat_lt, ◌&&◌, cond, unsigned_abs, map, length, slice_get, IfOk, IfSome};
ghost use Rattle.std.specs.Prelude.{IfNone, Some, None};
ghost use Rattle.std.specs.Option.{option_map, unwrap_or};
ghost use Rattle.std.specs.List.{list_any};
ghost use Rattle.raml_syntax.specs.Read.{ty_of};
ghost use Rattle.base_poly.specs.Plain.{alike};
ghost use Rattle.base_poly.specs.Indices.{index_list};
ghost use Rattle.call_groups.specs.Read.{ids_of};
ghost use Rattle.cost_free.specs.Target.{targets};
ghost use Rattle.annot_types.specs.Certificate.{annotation};
ghost use Rattle.annot_types.specs.Signature.{sig_among};
ghost use Rattle.annot_types.specs.Read as a;
ghost use Rattle.rules_spec.specs.Planned.{place_in};
ghost use Rattle.cert_check.specs.Finds.{missing_from};
ghost use Rattle.cert_check.specs.Covering.{has_from, has_all, AreFew};

use annot_types::{Annot, Sig};
use base_poly::{IndexFault, Tuple, indices, positions};
use cost_free::{Target, targets};
use raml_syntax::{FunId, Ty};
use std::alloc::{AllocError, Global};
use std::slice;

/// A target, and the tuples of its type at a budget, at most 2000.
#[derive(Drop)]
pub struct Aim {
    pub target: Target,
    pub tuples: Vec<Tuple>,
}

/// The signature of a function of a group.
pub fn sig_of<'s>(functions: &[FunId], sigs: &'s [Sig], fun: FunId) -> Option<&'s Sig>
    ensures { option_map (λ s. a.sig_of s.now) result ≡ sig_among (ids_of functions.now) (map a.sig_of sigs.now) fun.0 }
{
    let mut rest = sigs;
    for function in functions {
        match rest {
            [] => return None,
            [sig, more @ ..] => {
                if function.0 == fun.0 {
                    return Some(sig);
                }
                rest = more;
            }
        }
    }
    None
}

/// Its place in the group, 0 where it has none.
pub fn place_of(functions: &[FunId], fun: FunId) -> usize
    ensures low { result ≤ length functions.now }
    ensures is { result ≡ unwrap_or (place_in (ids_of functions.now) fun.0) 0 }
{
    for place in 0..functions.len() {
        if functions[place].0 == fun.0 {
            return place;
        }
    }
    0
}

/// Whether the type has a tuple with this place at a degree. So many targets are unit targets, each with
/// one tuple.
pub fn has_tuple(alloc: Global, ty: &Ty, degree: u8, place: u32) -> Result<bool, AllocError>
    ensures { IfOk result (λ has. has ≡ nat_lt place (length (index_list (ty_of ty.now ∷ []) degree))) }
{
    match positions(alloc, slice::from_ref(ty), degree, place as usize) {
        Ok(_) => Ok(false),
        Err(IndexFault::TooMany) => Ok(true),
        Err(IndexFault::NoMemory) => Err(AllocError),
    }
}

/// Of a unit target, whose position is its number, the position at which the annotation has no number;
/// 0 where it is no position of a tuple.
pub fn unit_missing(number: u32, is_position: bool, annot: &Annot) -> Option<usize>
    ensures { result ≡ cond is_position (cond (nat_lt 0 (annotation annot.now number)) None (Some number)) (Some 0) }
{
    if !is_position {
        return Some(0);
    }
    if annot.get(number).unsigned_abs() > 0 {
        return None;
    }
    Some(number as usize)
}

// The target of this number, where there is one. The schedule has come to it, so there are few indices.
fn target_at(alloc: Global, ty: &Ty, degree: u8, number: u32) -> Result<Option<Target>, AllocError>
    ensures { IfOk result (λ found. found ≡ slice_get (targets (ty_of ty.now) degree) number) }
{
    match targets(alloc, ty, degree) {
        Ok(all) => all.get(alloc, number as usize),
        Err(_) => Err(AllocError),
    }
}

// The tuples of a type, of which there are few.
fn all_tuples(alloc: Global, ty: &Ty, budget: u8) -> Result<Vec<Tuple>, AllocError>
    requires { length (index_list (ty_of ty.now ∷ []) budget) ≤ 2000 }
    ensures all { IfOk result (λ all. all.items ≡ index_list (ty_of ty.now ∷ []) budget) }
    ensures few { IfOk result (λ all. AreFew all.items) }
{
    match indices(alloc, slice::from_ref(ty), budget, 2000) {
        Ok(all) => Ok(all),
        Err(IndexFault::TooMany) => unreachable!(),
        Err(IndexFault::NoMemory) => Err(AllocError),
    }
}

/// The target of this number, where there is one.
pub fn aim_at(
    alloc: Global,
    ty: &Ty,
    degree: u8,
    budget: u8,
    number: u32,
) -> Result<Option<Aim>, AllocError>
    requires { length (index_list (ty_of ty.now ∷ []) budget) ≤ 2000 }
    ensures there { IfOk result (λ found. IfSome found (λ aim. slice_get (targets (ty_of ty.now) degree) number ≡ Some aim.target)) }
    ensures tuples { IfOk result (λ found. IfSome found (λ aim. aim.tuples.items ≡ index_list (ty_of ty.now ∷ []) budget)) }
    ensures few { IfOk result (λ found. IfSome found (λ aim. AreFew aim.tuples.items)) }
    ensures none { IfOk result (λ found. IfNone found (slice_get (targets (ty_of ty.now) degree) number ≡ None)) }
{
    match target_at(alloc, ty, degree, number)? {
        None => Ok(None),
        Some(target) => {
            let tuples = all_tuples(alloc, ty, budget)?;
            Ok(Some(Aim { target, tuples }))
        }
    }
}

// The annotation has a number at the tuple.
fn has_number(tuple: &Tuple, tuples: &[Tuple], annot: &Annot) -> bool
    requires { AreFew tuples.now }
    ensures { result ≡ has_from 0 tuple.now tuples.now (annotation annot.now) }
{
    for place in 0..tuples.len() {
        if *tuple == tuples[place] {
            return annot.get(place as u32).unsigned_abs() > 0;
        }
    }
    false
}

/// It has one at each tuple of the target.
pub fn covers(aim: &Aim, annot: &Annot) -> bool
    requires { AreFew aim.now.tuples.items }
    ensures { result ≡ has_all aim.now.tuples.items (annotation annot.now) aim.now.target }
{
    for tuple in aim.target.tuples() {
        if !has_number(tuple, &aim.tuples, annot) {
            return false;
        }
    }
    true
}

fn is_among(tuple: &Tuple, tuples: &[Tuple]) -> bool
    ensures { result ≡ list_any (alike tuple.now) tuples.now }
{
    for other in tuples {
        if *tuple == *other {
            return true;
        }
    }
    false
}

fn is_missing(aim: &Aim, tuple: &Tuple, number: i128) -> bool
    ensures { result ≡ (list_any (alike tuple.now) aim.now.target && nat_eq (unsigned_abs number) 0) }
{
    is_among(tuple, aim.target.tuples()) && number.unsigned_abs() == 0
}

/// The first position of the target at which it has none; 0 where there is none.
pub fn first_missing(aim: &Aim, annot: &Annot) -> usize
    requires { AreFew aim.now.tuples.items }
    ensures { result ≡ missing_from 0 (annotation annot.now) aim.now.target aim.now.tuples.items }
{
    for place in 0..aim.tuples.len() {
        if is_missing(aim, &aim.tuples[place], annot.get(place as u32)) {
            return place;
        }
    }
    0
}
