// Sizes that occur in a sum.
ghost use Rattle.std.specs.Prelude.{◌≡◌, IfOk, cond, None, slice_index_or};
ghost use Rattle.explain_reading.specs.Reading.{occurs, used_names};

use bound_compare::Exponents;
use std::alloc::{AllocError, Global};

/// The names of the sizes that occur in the sum, and None in the places of the others.
pub(crate) fn used_names(
    alloc: Global,
    terms: &[(Exponents, i128)],
    names: &[Option<char>],
) -> Result<Vec<Option<char>>, AllocError>
    ensures { IfOk result (λ used. used.items ≡ used_names terms.now names.now) }
{
    let mut used = Vec::with_capacity(alloc, names.len())?;
    let mut place = 0;
    for name in names {
        used.push(if_occurs(terms, place, *name))?;
        place += 1;
    }
    Ok(used)
}

// The name, where a power of the parameter at this place stands in the sum.
fn if_occurs(terms: &[(Exponents, i128)], place: usize, name: Option<char>) -> Option<char>
    ensures { result ≡ cond (occurs place terms.now) name None }
{
    if occurs(terms, place) { name } else { None }
}

// Whether a power of the parameter at this place stands in the sum.
fn occurs(terms: &[(Exponents, i128)], place: usize) -> bool
    ensures { result ≡ occurs place terms.now }
{
    for term in terms {
        if exponent_at(term.0.each(), place) != 0 {
            return true;
        }
    }
    false
}

// The exponent at this place, which is 0 past the last one.
fn exponent_at(exponents: &[u8], place: usize) -> u8
    ensures { result ≡ slice_index_or exponents.now place 0 }
{
    match exponents.get(place) {
        Some(exponent) => *exponent,
        None => 0,
    }
}
