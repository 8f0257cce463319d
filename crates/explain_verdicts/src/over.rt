// What a line declares, over one denominator.
ghost use Rattle.std.specs.Prelude.{◌≡◌, ◌<◌, ◌≤◌, ◌≤ℤ◌, ◌^◌, ◌*◌, ◌/◌, pos, map, IfOk, IfSome, IfNone, MatchOption};
ghost use Rattle.std.specs.List.{All, IsDistinct};
ghost use Rattle.base_poly.specs.Plain.{degrees, alike};
ghost use Rattle.base_poly.specs.Poly.{magnitudes};
ghost use Rattle.explain_verdicts.specs.Fractions.{terms_over, NoneFit};
ghost use Rattle.explain_verdicts.specs.Over.{IsLeastCommon, NoCommon, OneLeaves, IsOverOne};

use crate::fraction::Fraction;
use base_poly::{Poly, Tuple};
use raml_num::lcm;
use std::alloc::{AllocError, Global};

/// What is declared, as a polynomial; None where over no common denominator its numbers are below 2^127.
pub(crate) fn over_one(alloc: Global, fractions: &[Fraction]) -> Result<Option<Poly>, AllocError>
    requires denominators { All (λ f. 0 < f.denominator) fractions.now }
    requires low { All (λ f. degrees f.tuple ≤ 4) fractions.now }
    requires distinct { IsDistinct alike (map (λ f. f.tuple) fractions.now) }
    ensures some { IfOk result (λ made. IfSome made (IsOverOne fractions.now)) }
    ensures none { IfOk result (λ made. IfNone made (NoneFit fractions.now)) }
{
    match common(fractions) {
        Some(den) => over(alloc, fractions, den),
        None => Ok(None),
    }
}

// The least common denominator; None where it does not fit 128 bits.
fn common(fractions: &[Fraction]) -> Option<u128>
    requires { All (λ f. 0 < f.denominator) fractions.now }
    ensures { MatchOption result (NoCommon fractions.now) (IsLeastCommon fractions.now) }
{
    let mut so_far: u128 = 1;
    for fraction in fractions {
        so_far = lcm(so_far, fraction.denominator)?;
    }
    Some(so_far)
}

// The polynomial over the least common denominator.
fn over(alloc: Global, fractions: &[Fraction], den: u128) -> Result<Option<Poly>, AllocError>
    requires denominators { All (λ f. 0 < f.denominator) fractions.now }
    requires low { All (λ f. degrees f.tuple ≤ 4) fractions.now }
    requires distinct { IsDistinct alike (map (λ f. f.tuple) fractions.now) }
    requires least { IsLeastCommon fractions.now den }
    ensures some { IfOk result (λ made. IfSome made (IsOverOne fractions.now)) }
    ensures none { IfOk result (λ made. IfNone made (NoneFit fractions.now)) }
{
    if den > i128::MAX as u128 {
        return Ok(None);
    }
    match terms_over(alloc, fractions, den)? {
        Some(terms) => Ok(Some(Poly {
            den: den as i128,
            terms,
        })),
        None => Ok(None),
    }
}

// The fractions over a denominator; None where a number is not below 2^127.
fn terms_over(
    alloc: Global,
    fractions: &[Fraction],
    den: u128,
) -> Result<Option<Vec<(Tuple, i128)>>, AllocError>
    requires { All (λ f. 0 < f.denominator) fractions.now }
    ensures some { IfOk result (λ made. IfSome made (λ terms. magnitudes terms.items ≡ terms_over den fractions.now)) }
    ensures natural { IfOk result (λ made. IfSome made (λ terms. All (λ t. pos 0 ≤ℤ t.1) terms.items)) }
    ensures below { IfOk result (λ made. IfSome made (λ terms. All (λ t. t.1 < 2 ^ 127) (terms_over den fractions.now))) }
    ensures none { IfOk result (λ made. IfNone made (OneLeaves den fractions.now)) }
{
    let mut terms = Vec::with_capacity(alloc, fractions.len())?;
    for fraction in fractions {
        match number_over(fraction, den) {
            Some(number) => terms.push((fraction.tuple.copy(alloc)?, number))?,
            None => return Ok(None),
        }
    }
    Ok(Some(terms))
}

// The numerator over a denominator; None where it is not below 2^127.
fn number_over(fraction: &Fraction, den: u128) -> Option<i128>
    requires { 0 < fraction.now.denominator }
    ensures none { IfNone result (2 ^ 127 ≤ fraction.now.numerator * (den / fraction.now.denominator)) }
    ensures some { IfSome result (λ number. number ≡ pos (fraction.now.numerator * (den / fraction.now.denominator))) }
    ensures below { IfSome result (λ _. fraction.now.numerator * (den / fraction.now.denominator) < 2 ^ 127) }
{
    let number = fraction.numerator.checked_mul(den / fraction.denominator)?;
    if number > i128::MAX as u128 {
        None
    } else {
        Some(number as i128)
    }
}
