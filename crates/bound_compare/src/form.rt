// Bounds as powers of element counts.
ghost use Rattle.std.specs.Prelude.{◌≡◌, ◌≤◌, ◌<◌, ◌*◌, ◌^◌, ◌-ℤ◌, ◌≤ℤ◌, ◌<ℤ◌, ℕ, ℤ, pos, length, All, [], map, unsigned_abs, FitsSigned};
ghost use Rattle.std.specs.Prelude.{IfOk, OnOk, IsErrOf};
ghost use Rattle.std.specs.Int.{w128};
ghost use Rattle.std.specs.Option.{SomeIff};
ghost use Rattle.std.specs.Str.{bytes_eq};
ghost use Rattle.raml_syntax.specs.Read.{ty_of};
ghost use Rattle.base_poly.specs.Plain.{degrees};
ghost use Rattle.base_poly.specs.Indices.{AreIndices};
ghost use Rattle.base_poly.specs.Poly.{den_of, magnitudes, terms_of, IsPoly};
ghost use Rattle.base_poly.specs.Read.{context_of};
ghost use Rattle.bound_compare.specs.Powers.{is_scalar, is_flat, are_flat, powers_of, ArePowers, Fits, Leaves};
ghost use Rattle.bound_compare.specs.Steps.{both, leads, joined, numbers, AreSmall, HasLarge};

use crate::exponents::Exponents;
use crate::fault::PowerFault;
use crate::parts::{Part, parts};
use base_poly::{Poly, Tuple};
use raml_syntax::Ty;
use std::alloc::{AllocError, Global};

/// A sum of numbers, each times powers of the element counts of the arguments, over a denominator.
#[derive(Debug, Drop)]
pub struct PowerForm {
    pub den: i128,
    pub terms: Vec<(Exponents, i128)>,
}

/// Whether a function with these parameter types is flat: each is an integer, a boolean, or a list or
/// tree of one of these.
pub fn is_flat(params: &[Ty]) -> bool
    ensures { result ≡ are_flat (context_of params.now) }
{
    for param in params {
        if !is_flat_type(param) {
            return false;
        }
    }
    true
}

fn is_flat_type(ty: &Ty) -> bool
    ensures { result ≡ is_flat (ty_of ty.now) }
{
    match ty {
        Ty::Int | Ty::Bool => true,
        Ty::List(element) | Ty::Tree(element) => is_scalar(element),
        Ty::Pair(..) | Ty::Opt(_) => false,
    }
}

fn is_scalar(ty: &Ty) -> bool
    ensures { result ≡ is_scalar (ty_of ty.now) }
{
    matches!(ty, Ty::Int | Ty::Bool)
}

/// The polynomial in powers of its arguments' element counts, over 24 times its denominator. It is worth as much as
/// the polynomial where the function is flat.
///
/// `Leaves` where that does not fit 128 bits, or at some exponents the total of the numbers above 0 or
/// of those below does not.
pub fn powers(alloc: Global, poly: &Poly, params: &[Ty]) -> Result<PowerForm, PowerFault>
    requires poly { IsPoly poly.now }
    requires tuples { All (λ t. AreIndices t.0 (context_of params.now)) poly.now.terms.items }
    requires low { All (λ t. degrees t.0 ≤ 4) poly.now.terms.items }
    ensures den { IfOk result (λ form. form.den ≡ pos (24 * den_of poly.now)) }
    ensures positive { IfOk result (λ form. pos 0 <ℤ form.den) }
    ensures powers { IfOk result (λ form. ArePowers (terms_of poly.now) form.terms.items) }
    ensures these { IfOk result (λ form. form.terms.items ≡ powers_of (length params.now) (terms_of poly.now)) }
    ensures fits { OnOk result (Fits (den_of poly.now) (terms_of poly.now)) }
    ensures leaves { IsErrOf result PowerFault.Leaves → Leaves (den_of poly.now) (terms_of poly.now) }
{
    match times_24(poly.den) {
        None => Err(PowerFault::Leaves),
        Some(den) => {
            let terms = sums(alloc, &poly.terms)?;
            Ok(PowerForm { den, terms })
        }
    }
}

fn times_24(den: i128) -> Option<i128>
    requires { pos 0 ≤ℤ den }
    ensures { SomeIff result (24 * unsigned_abs den < 2 ^ 127) (pos (24 * unsigned_abs den)) }
{
    den.checked_mul(24)
}

// The powers of the terms.
fn sums(alloc: Global, terms: &[(Tuple, i128)]) -> Result<Vec<(Exponents, i128)>, PowerFault>
    requires low { All (λ t. degrees t.0 ≤ 4) terms.now }
    ensures powers { IfOk result (λ found. ArePowers (magnitudes terms.now) found.items) }
    ensures fits { OnOk result ((den : ℕ) → 24 * den < 2 ^ 127 → Fits den (magnitudes terms.now)) }
    ensures leaves { IsErrOf result PowerFault.Leaves → (den : ℕ) → Leaves den (magnitudes terms.now) }
{
    let mut parts = parts(alloc, terms)?;
    parts.sort()?;
    let sums = joined(alloc, &parts)?;
    numbers(alloc, &sums)
}

// Neighbours of the same exponents added up.
fn joined(alloc: Global, parts: &[Part]) -> Result<Vec<Part>, AllocError>
    ensures { IfOk result (λ found. found.items ≡ joined (0, 0) parts.now) }
{
    let mut found = Vec::new(alloc);
    let mut carried = (0, 0);
    let mut left = parts;
    while let [(exponents, totals), rest @ ..] = left {
        let sum = both(carried, *totals);
        if leads(exponents, rest) {
            carried = sum;
        } else {
            found.push((exponents.copy(alloc)?, sum))?;
            carried = (0, 0);
        }
        left = rest;
    }
    Ok(found)
}

// The sums of both totals.
fn both(one: (u128, u128), other: (u128, u128)) -> (u128, u128)
    ensures { result ≡ both one other }
{
    (one.0.saturating_add(other.0), one.1.saturating_add(other.1))
}

// Whether the first of the parts has these exponents.
fn leads(exponents: &Exponents, parts: &[Part]) -> bool
    ensures { result ≡ leads exponents.now parts.now }
{
    match parts {
        [] => false,
        [(first, _), ..] => exponents == first,
    }
}

// The sums as numbers, without those that are 0.
fn numbers(alloc: Global, sums: &[Part]) -> Result<Vec<(Exponents, i128)>, PowerFault>
    ensures numbers { IfOk result (λ found. found.items ≡ numbers sums.now) }
    ensures small { OnOk result (AreSmall sums.now) }
    ensures leaves { IsErrOf result PowerFault.Leaves → HasLarge sums.now }
{
    let mut found = Vec::new(alloc);
    for (exponents, (above, below)) in sums {
        match difference(*above, *below) {
            None => return Err(PowerFault::Leaves),
            Some(0) => {}
            Some(number) => found.push((exponents.copy(alloc)?, number))?,
        }
    }
    Ok(found)
}

// The difference of numbers that fit a signed number of 128 bits, the second one below 0.
fn difference(above: u128, below: u128) -> Option<i128>
    ensures { SomeIff result ((above < 2 ^ 127) × (below ≤ 2 ^ 127)) (pos above -ℤ pos below) }
{
    if above > LARGEST || below > LARGEST + 1 {
        return None;
    }
    if above >= below {
        Some((above - below) as i128)
    } else {
        Some(-((below - above - 1) as i128) - 1)
    }
}

/// The greatest number of 128 bits with a sign.
const LARGEST: u128 = 0x7fff_ffff_ffff_ffff_ffff_ffff_ffff_ffff;
