// The positions of terms.
ghost use Rattle.std.specs.Prelude.{◌≡◌, ◌<◌, ◌≤◌, ◌^◌, length, map, option_map, IfOk, IfSome};
ghost use Rattle.std.specs.List.{All};
ghost use Rattle.base_poly.specs.Plain.{degrees};
ghost use Rattle.base_poly.specs.Read.{context_of};
ghost use Rattle.raml_syntax.specs.Read.{parameter_of};
ghost use Rattle.raml_syntax.specs.Tree.{Parameter};
ghost use Rattle.bound_file.specs.Read.{coefficients_of, ArePositive};
ghost use Rattle.bound_file.specs.Reading.{term_of, is_placed, all_placed, gathered, bound_over, bound_read};
ghost use Rattle.bound_file.specs.Seen.{counted_of, all_counted_of};

use crate::counted::Counted;
use crate::matching::is_text_of;
use base_poly::{IndexFault, Tuple, indices};
use raml_syntax::{Param, Ty};
use std::alloc::{AllocError, Global};

/// The greatest number of positions.
const MOST: usize = 2000;

// The first of the terms whose tuple is this one.
fn term_of<'a>(tuple: &Tuple, terms: &[Counted<'a>]) -> Option<Counted<'a>>
    requires { degrees tuple.now < 2 ^ 32 }
    ensures { option_map counted_of result ≡ term_of tuple.now (all_counted_of terms.now) }
{
    for term in terms {
        if is_text_of(term.tuple, tuple) {
            return Some(*term);
        }
    }
    None
}

// Whether one of the tuples is written so.
fn is_placed(tuples: &[Tuple], text: &str) -> bool
    requires { All (λ t. degrees t < 2 ^ 32) tuples.now }
    ensures { result ≡ is_placed tuples.now text.now }
{
    for tuple in tuples {
        if is_text_of(text, tuple) {
            return true;
        }
    }
    false
}

// Whether each of the terms has a tuple among these.
fn all_placed<'a>(tuples: &[Tuple], terms: &[Counted<'a>]) -> bool
    requires { All (λ t. degrees t < 2 ^ 32) tuples.now }
    ensures { result ≡ all_placed tuples.now (all_counted_of terms.now) }
{
    for term in terms {
        if !is_placed(tuples, term.tuple) {
            return false;
        }
    }
    true
}

// The coefficients of the terms at the positions of these tuples.
fn gathered<'a>(
    alloc: Global,
    tuples: &[Tuple],
    terms: &[Counted<'a>],
) -> Result<Vec<(u32, i128, i128)>, AllocError>
    requires low { All (λ t. degrees t < 2 ^ 32) tuples.now }
    requires few { length tuples.now ≤ 2000 }
    ensures gathered { IfOk result (λ found. coefficients_of found.items ≡ gathered 0 tuples.now (all_counted_of terms.now)) }
    ensures positive { IfOk result (λ found. ArePositive found.items) }
{
    let mut found = Vec::new(alloc);
    let mut position = 0;
    for tuple in tuples {
        if let Some(term) = term_of(tuple, terms) {
            found.push((position, term.numerator, term.denominator))?;
        }
        position += 1;
    }
    Ok(found)
}

fn bound_over<'a>(
    alloc: Global,
    tuples: &[Tuple],
    terms: &[Counted<'a>],
) -> Result<Option<Vec<(u32, i128, i128)>>, AllocError>
    requires low { All (λ t. degrees t < 2 ^ 32) tuples.now }
    requires few { length tuples.now ≤ 2000 }
    ensures bound { IfOk result
        (λ found. option_map (λ cs. coefficients_of cs.items) found ≡ bound_over tuples.now (all_counted_of terms.now)) }
    ensures positive { IfOk result (λ found. IfSome found (λ cs. ArePositive cs.items)) }
{
    if all_placed(tuples, terms) {
        Ok(Some(gathered(alloc, tuples, terms)?))
    } else {
        Ok(None)
    }
}

/// The bound that terms declare over indices of these types up to a degree: their numbers at the
/// positions of their tuples, in order. `None` where there are terms and more than 2000 positions, or a
/// term whose tuple stands at none.
pub fn bound<'a>(
    alloc: Global,
    types: &[Ty],
    degree: u8,
    terms: &[Counted<'a>],
) -> Result<Option<Vec<(u32, i128, i128)>>, AllocError>
    ensures bound { IfOk result
        (λ found. option_map (λ cs. coefficients_of cs.items) found ≡ bound_read (context_of types.now) degree (all_counted_of terms.now)) }
    ensures positive { IfOk result (λ found. IfSome found (λ cs. ArePositive cs.items)) }
{
    if terms.is_empty() {
        return Ok(Some(Vec::new(alloc)));
    }
    match indices(alloc, types, degree, MOST) {
        Ok(tuples) => bound_over(alloc, &tuples, terms),
        Err(IndexFault::TooMany) => Ok(None),
        Err(IndexFault::NoMemory) => Err(AllocError),
    }
}

/// The types of parameters.
pub fn types_of(alloc: Global, params: &[Param]) -> Result<Vec<Ty>, AllocError>
    ensures { IfOk result (λ types. context_of types.items ≡ map (λ (p : Parameter). p.type) (map parameter_of params.now)) }
{
    let mut types = Vec::with_capacity(alloc, params.len())?;
    for param in params {
        types.push(param.ty.copy(alloc)?)?;
    }
    Ok(types)
}
