// Where the bound that was found exceeds what is declared.
ghost use Rattle.std.specs.Prelude.{◌≡◌, ◌<◌, ◌≤◌, ◌++◌, ◌<ℤ◌, ◌≤ℤ◌, [], pos, unsigned_abs, cond, codes, List, Some, option_map};
ghost use Rattle.std.specs.Prelude.{IfOk, IfSome, OnOk, string_bytes};
ghost use Rattle.std.specs.List.{All};
ghost use Rattle.raml_syntax.specs.Tree.{Text, Type'};
ghost use Rattle.base_poly.specs.Plain.{degrees};
ghost use Rattle.base_poly.specs.Indices.{AreIndices};
ghost use Rattle.base_poly.specs.Read.{context_of};
ghost use Rattle.explain_algebra.specs.Algebra.{texts};
ghost use Rattle.explain_verdicts.specs.Reads.{bound_of, Reads};
ghost use Rattle.explain_verdicts.specs.Exceeding.{alone, declared_at, exceeds, ReadsAt, TellsExcess, TellsExceeding};
ghost use Rattle.explain_verdicts.specs.Written.{IsFraction, IsFound};

use crate::fraction::Fraction;
use base_poly::{Poly, Tuple};
use explain_reading::read_bound;
use raml_num::cross_cmp;
use raml_syntax::Ty;
use std::alloc::{AllocError, Global};

/// Parameters of a function: their types and their names.
#[derive(Clone, Copy, Debug)]
pub(crate) struct Params<'a> {
    pub(crate) types: &'a [Ty],
    pub(crate) names: &'a [&'a str],
}

/// Appends the terms of a bound that exceed what is declared, each as a bound of its own with what is declared beside it.
pub(crate) fn push_exceeding(
    alloc: Global,
    text: &mut String,
    found: &Poly,
    fractions: &[Fraction],
    params: Params<'_>,
) -> Result<(), AllocError>
    requires found { IsFound (context_of params.types.now) found.now }
    requires fractions { All (IsFraction (context_of params.types.now)) fractions.now }
    ensures { OnOk result ((told : Text)
        × TellsExceeding (context_of params.entry.types.now) (texts params.entry.names.now) fractions.now (bound_of found.now) told
        × (string_bytes text.new ≡ string_bytes text.old ++ told)) }
{
    text.push_str("; exceeding: ")?;
    let mut is_first = true;
    for place in (0..found.terms.len()).rev() {
        let (tuple, number) = &found.terms[place];
        let declared = declared_at(fractions, tuple);
        if exceeds(found.den, *number, declared) {
            push_lead(text, is_first)?;
            let term = alone(alloc, tuple, *number, found.den)?;
            push_excess(alloc, text, &term, declared, params)?;
            is_first = false;
        }
    }
    Ok(())
}

// Appends what stands before a term.
fn push_lead(text: &mut String, is_first: bool) -> Result<(), AllocError>
    ensures { OnOk result (string_bytes text.new ≡ string_bytes text.old ++ cond is_first [] (codes ", ")) }
{
    text.push_str(if is_first { "" } else { ", " })
}

// What is declared at a tuple.
fn declared_at<'a>(fractions: &'a [Fraction], tuple: &Tuple) -> Option<&'a Fraction>
    ensures { option_map (λ f. f.now) result ≡ declared_at tuple.now fractions.now }
{
    for fraction in fractions {
        if fraction.tuple == *tuple {
            return Some(fraction);
        }
    }
    None
}

// Whether the number over the denominator is greater than what is declared.
fn exceeds(den: i128, number: i128, declared: Option<&Fraction>) -> bool
    requires den { pos 0 <ℤ den }
    requires declared { IfSome declared (λ f. 0 < f.now.denominator) }
    ensures { result ≡ exceeds (unsigned_abs den) (unsigned_abs number) (option_map (λ f. f.now) declared.entry) }
{
    match declared {
        None => number != 0,
        Some(fraction) => cross_cmp(
            number.unsigned_abs(),
            den.unsigned_abs(),
            fraction.numerator,
            fraction.denominator,
        )
        .is_gt(),
    }
}

// Appends a term of a bound with what is declared at its tuple: `24·n (declared 10·n)`.
fn push_excess(
    alloc: Global,
    text: &mut String,
    found: &Poly,
    declared: Option<&Fraction>,
    params: Params<'_>,
) -> Result<(), AllocError>
    requires found { IsFound (context_of params.types.now) found.now }
    requires declared { IfSome declared (λ f. IsFraction (context_of params.types.now) f.now) }
    ensures { OnOk result ((told : Text)
        × TellsExcess (context_of params.entry.types.now) (texts params.entry.names.now) (bound_of found.now)
        (option_map (λ f. f.now) declared.entry) told
        × (string_bytes text.new ≡ string_bytes text.old ++ told)) }
{
    let sum = read_alone(alloc, found, params)?;
    let beside = read_beside(alloc, declared, params)?;
    text.push_str(&sum)?;
    text.push_str(" (declared ")?;
    text.push_str(&beside)?;
    text.push_str(")")?;
    Ok(())
}

// What is declared at a tuple, in algebra; 0 where nothing is.
fn read_beside(
    alloc: Global,
    declared: Option<&Fraction>,
    params: Params<'_>,
) -> Result<String, AllocError>
    requires { IfSome declared (λ f. IsFraction (context_of params.types.now) f.now) }
    ensures { IfOk result (λ text. ReadsAt (context_of params.entry.types.now) (texts params.entry.names.now)
        (option_map (λ f. f.now) declared.entry) (string_bytes text)) }
{
    match declared {
        None => String::from_str(alloc, "0"),
        Some(fraction) => read_fraction(alloc, fraction, params),
    }
}

// A fraction in algebra.
fn read_fraction(
    alloc: Global,
    fraction: &Fraction,
    params: Params<'_>,
) -> Result<String, AllocError>
    requires { IsFraction (context_of params.types.now) fraction.now }
    ensures { IfOk result (λ text.
        ReadsAt (context_of params.entry.types.now) (texts params.entry.names.now) (Some fraction.now) (string_bytes text)) }
{
    let numerator = fraction.numerator as i128;
    let denominator = fraction.denominator as i128;
    let poly = alone(alloc, &fraction.tuple, numerator, denominator)?;
    read_alone(alloc, &poly, params)
}

// A bound in algebra, without what the names in it mean.
fn read_alone(alloc: Global, poly: &Poly, params: Params<'_>) -> Result<String, AllocError>
    requires { IsFound (context_of params.types.now) poly.now }
    ensures { IfOk result (λ text. (meaning : Text)
        × Reads (context_of params.entry.types.now) (texts params.entry.names.now) (bound_of poly.now) (string_bytes text) meaning) }
{
    let reading = read_bound(alloc, poly, params.types, params.names)?;
    Ok(reading.sum)
}

// A term as a polynomial of its own.
fn alone(alloc: Global, tuple: &Tuple, number: i128, den: i128) -> Result<Poly, AllocError>
    requires positive { pos 0 <ℤ den }
    requires natural { pos 0 ≤ℤ number }
    requires low { degrees tuple.now ≤ 4 }
    ensures is { IfOk result (λ poly. bound_of poly ≡ alone (unsigned_abs den) (tuple.now, unsigned_abs number)) }
    ensures found { (As : List Type') → AreIndices tuple.now As → IfOk result (IsFound As) }
{
    let term = (tuple.copy(alloc)?, number);
    Ok(Poly {
        den,
        terms: vec![in alloc; term]?,
    })
}
