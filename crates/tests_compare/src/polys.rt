//! Polynomials by the numbers of their tuples.
ghost use Rattle.std.specs.Prelude.{◌≡◌, ◌≤◌, ◌<ℤ◌, ◌≤ℤ◌, pos, map, All, IfOk};
ghost use Rattle.base_poly.specs.Plain.{degrees};
ghost use Rattle.base_poly.specs.Indices.{AreIndices};
ghost use Rattle.base_poly.specs.Poly.{IsPoly};
ghost use Rattle.base_poly.specs.Read.{context_of};

use base_poly::{Poly, Tuple, indices};
use raml_syntax::Ty;
use std::alloc::{AllocError, Global};
use std::test::Fail;

/// The polynomial with these numbers of the tuples of degree at most `degree`, in their order. A tuple
/// without a number has the number 0.
pub fn poly_of(
    alloc: Global,
    params: &[Ty],
    degree: u8,
    den: i128,
    numbers: &[i128],
) -> Result<Poly, Fail>
    requires degree { degree ≤ 4 }
    requires den { pos 0 <ℤ den }
    ensures poly { IfOk result IsPoly }
    ensures own { IfOk result (λ poly. All (λ t. AreIndices t.0 (context_of params.now)) poly.terms.items) }
    ensures low { IfOk result (λ poly. All (λ t. degrees t.0 ≤ 4) poly.terms.items) }
{
    let tuples = indices(alloc, params, degree, 2000)?;
    let terms = with_numbers(alloc, tuples, numbers)?;
    Ok(Poly { den, terms })
}

// The tuples with these numbers; one below 0 counts as 0.
fn with_numbers(
    alloc: Global,
    tuples: Vec<Tuple>,
    numbers: &[i128],
) -> Result<Vec<(Tuple, i128)>, AllocError>
    ensures natural { IfOk result (λ terms. All (λ t. pos 0 ≤ℤ t.1) terms.items) }
    ensures tuples { IfOk result (λ terms. map (λ t. t.0) terms.items ≡ tuples.items) }
{
    let mut terms = Vec::new(alloc);
    for tuple in tuples {
        let number = natural(numbers.get(terms.len()).copied().unwrap_or(0));
        terms.push((tuple, number))?;
    }
    Ok(terms)
}

fn natural(number: i128) -> i128
    ensures { pos 0 ≤ℤ result }
{
    if number < 0 { 0 } else { number }
}
