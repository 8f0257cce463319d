// Bounds on nested data.
ghost use Rattle.std.specs.Prelude.{◌≡◌, ◌≢◌, ◌≤◌, ◌++◌, ◌==◌, not, filter, reverse, All, codes, string_bytes, OnOk, IfOk};
ghost use Rattle.base_poly.specs.Plain.{degrees};
ghost use Rattle.base_poly.specs.Poly.{den_of, magnitudes, terms_of, IsPoly};
ghost use Rattle.poly_point.specs.Point.{AreLow};
ghost use Rattle.explain_nested.specs.Text.{texts, term_text, more_terms, sum_text, IsNestedText};

use crate::names::behind;
use crate::reading::read;
use crate::text::push_product;
use base_poly::{Poly, Tuple};
use std::alloc::{AllocError, Global};

/// The polynomial as a sum of readings, such as `2·Σ(x in l) |x| + |l| + 1`: the terms that are not
/// zero, those of the highest degree first, with coefficients in lowest terms. The names are those
/// that `value_names` gives.
pub fn nested_sum<'a>(alloc: Global, poly: &Poly, names: &[&'a str]) -> Result<String, AllocError>
    requires poly { IsPoly poly.now }
    requires low { AreLow poly.now }
    ensures { IfOk result (λ text. IsNestedText (den_of poly.now) (texts names.now) (terms_of poly.now) (string_bytes text)) }
{
    let mut terms = nonzero_terms(alloc, &poly.terms)?;
    terms.sort()?;
    sum(alloc, &terms, names, poly.den.unsigned_abs())
}

// The terms that are not zero.
fn nonzero_terms(alloc: Global, terms: &[(Tuple, i128)]) -> Result<Vec<(Tuple, u128)>, AllocError>
    ensures { IfOk result (λ found. found.items ≡ filter (λ t. not (t.1 == 0)) (magnitudes terms.now)) }
{
    let mut found = Vec::new(alloc);
    for (tuple, number) in terms {
        let number = number.unsigned_abs();
        if number != 0 {
            found.push((tuple.copy(alloc)?, number))?;
        }
    }
    Ok(found)
}

// The terms from the last to the first, or a zero.
fn sum<'a>(
    alloc: Global,
    terms: &[(Tuple, u128)],
    names: &[&'a str],
    den: u128,
) -> Result<String, AllocError>
    requires den { den ≢ 0 }
    requires low { All (λ t. degrees t.0 ≤ 4) terms.now }
    ensures { IfOk result (λ text. string_bytes text ≡ sum_text den (texts names.now) (reverse terms.now)) }
{
    let mut text = String::new(alloc);
    match terms.split_last() {
        None => text.push_str("0")?,
        Some((last, rest)) => {
            push_term(alloc, &mut text, last, names, den)?;
            push_more(alloc, &mut text, rest, names, den)?;
        }
    }
    Ok(text)
}

// Appends each of the terms behind a plus, from the last to the first.
fn push_more<'a>(
    alloc: Global,
    text: &mut String,
    terms: &[(Tuple, u128)],
    names: &[&'a str],
    den: u128,
) -> Result<(), AllocError>
    requires den { den ≢ 0 }
    requires low { All (λ t. degrees t.0 ≤ 4) terms.now }
    ensures { OnOk result (string_bytes text.new ≡ string_bytes text.old ++ more_terms den (texts names.now) (reverse terms.now)) }
{
    for place in (0..terms.len()).rev() {
        text.push_str(" + ")?;
        push_term(alloc, text, &terms[place], names, den)?;
    }
    Ok(())
}

// Appends the coefficient and the reading of the tuple.
fn push_term<'a>(
    alloc: Global,
    text: &mut String,
    term: &(Tuple, u128),
    names: &[&'a str],
    den: u128,
) -> Result<(), AllocError>
    requires den { den ≢ 0 }
    requires low { degrees term.now.0 ≤ 4 }
    ensures { OnOk result (string_bytes text.new ≡ string_bytes text.old ++ term_text den (texts names.now) term.now) }
{
    let pieces = read(alloc, &term.0)?;
    let next = behind(names, term.0.parts().len());
    push_product(text, names, next, term.1, den, &pieces)
}
