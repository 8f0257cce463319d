// What a line declares, in algebra.
ghost use Rattle.std.specs.Prelude.{◌≡◌, ◌<◌, ◌≤◌, ◌++◌, IfOk, OnOk, string_bytes};
ghost use Rattle.std.specs.List.{All};
ghost use Rattle.base_poly.specs.Plain.{degrees};
ghost use Rattle.base_poly.specs.Read.{context_of};
ghost use Rattle.explain_algebra.specs.Algebra.{texts};
ghost use Rattle.explain_verdicts.specs.Reads.{fraction_text, in_file, ReadsDeclared};
ghost use Rattle.explain_verdicts.specs.Written.{AreFractions};

use crate::fraction::Fraction;
use crate::over::over_one;
use explain_json::{push_coefficient, push_tuple};
use explain_reading::{Reading, read_bound};
use raml_syntax::Ty;
use std::alloc::{AllocError, Global};

/// What is declared of a function whose parameters have these types and names, in algebra; as the file has it where no
/// polynomial is it.
pub(crate) fn read_declared(
    alloc: Global,
    fractions: &[Fraction],
    types: &[Ty],
    params: &[&str],
) -> Result<Reading, AllocError>
    requires { AreFractions (context_of types.now) fractions.now }
    ensures { IfOk result (λ reading. ReadsDeclared (context_of types.now) (texts params.now) fractions.now
        (string_bytes reading.sum) (string_bytes reading.legend)) }
{
    match over_one(alloc, fractions)? {
        Some(poly) => read_bound(alloc, &poly, types, params),
        None => Ok(Reading {
            sum: in_file(alloc, fractions)?,
            legend: String::new(alloc),
        }),
    }
}

// The fractions as a bounds file has them.
fn in_file(alloc: Global, fractions: &[Fraction]) -> Result<String, AllocError>
    requires denominators { All (λ f. 0 < f.denominator) fractions.now }
    requires low { All (λ f. degrees f.tuple ≤ 4) fractions.now }
    ensures { IfOk result (λ text. string_bytes text ≡ in_file fractions.now) }
{
    let mut text = String::new(alloc);
    let mut is_first = true;
    for fraction in fractions {
        text.push_str(if is_first { "" } else { " + " })?;
        push_fraction(&mut text, fraction)?;
        is_first = false;
    }
    Ok(text)
}

// Appends a fraction as a bounds file has it.
fn push_fraction(text: &mut String, fraction: &Fraction) -> Result<(), AllocError>
    requires denominator { 0 < fraction.now.denominator }
    requires low { degrees fraction.now.tuple ≤ 4 }
    ensures { OnOk result (string_bytes text.new ≡ string_bytes text.old ++ fraction_text fraction.now) }
{
    push_coefficient(text, fraction.numerator, fraction.denominator)?;
    if fraction.tuple.degree() != 0 {
        text.push_str("*")?;
        push_tuple(text, &fraction.tuple)?;
    }
    Ok(())
}
