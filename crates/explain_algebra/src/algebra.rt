// Bounds in algebra.
ghost use Rattle.std.specs.Prelude.{◌≡◌, ◌++◌, ◌<ℤ◌, ◌≢◌, [], pos, unsigned_abs, reverse, decimal, encode_utf8, string_bytes, cond, OnOk};
ghost use Rattle.std.specs.Prelude.{IfOk};
ghost use Rattle.poly_text.specs.Text.{coefficient_text};
ghost use Rattle.bound_compare.specs.Text.{sign_text, joint_text};
ghost use Rattle.explain_algebra.specs.Steps.{marked, still};
ghost use Rattle.explain_algebra.specs.Algebra.{exponent_text, factor, factors, times, term_text, more_terms, algebra_text};

use crate::names::name_at;
use bound_compare::{Exponents, PowerForm};
use itoa::Buffer;
use raml_num::gcd;
use std::alloc::AllocError;

/// Appends the sum, such as `3/2·n² + 1/2·n`, the highest degree first. The names are those of the
/// parameters' sizes. Coefficients are in lowest terms.
pub fn push_algebra(
    text: &mut String,
    form: &PowerForm,
    names: &[Option<char>],
) -> Result<(), AllocError>
    requires { pos 0 <ℤ form.now.den }
    ensures { OnOk result (string_bytes text.new ≡ string_bytes text.old
        ++ algebra_text (unsigned_abs form.now.den) names.now form.now.terms.items) }
{
    push_sum(text, &form.terms, names, form.den.unsigned_abs())
}

// Appends the terms from the last to the first, or a zero.
fn push_sum(
    text: &mut String,
    terms: &[(Exponents, i128)],
    names: &[Option<char>],
    den: u128,
) -> Result<(), AllocError>
    requires { den ≢ 0 }
    ensures { OnOk result (string_bytes text.new ≡ string_bytes text.old ++ algebra_text den names.now terms.now) }
{
    match terms.split_last() {
        None => text.push_str("0"),
        Some((last, rest)) => {
            text.push_str(sign(last.1))?;
            push_term(text, last, names, den)?;
            push_more(text, rest, names, den)
        }
    }
}

// Appends each of the terms before others, from the last to the first.
fn push_more(
    text: &mut String,
    terms: &[(Exponents, i128)],
    names: &[Option<char>],
    den: u128,
) -> Result<(), AllocError>
    requires { den ≢ 0 }
    ensures { OnOk result (string_bytes text.new ≡ string_bytes text.old ++ more_terms den names.now (reverse terms.now)) }
{
    for place in (0..terms.len()).rev() {
        let term = &terms[place];
        text.push_str(joint(term.1))?;
        push_term(text, term, names, den)?;
    }
    Ok(())
}

// The sign of the first number.
fn sign(number: i128) -> &'static str
    ensures { result.now ≡ sign_text number }
{
    if number < 0 { "-" } else { "" }
}

// The sign of a number behind others.
fn joint(number: i128) -> &'static str
    ensures { result.now ≡ joint_text number }
{
    if number < 0 { " - " } else { " + " }
}

// Appends the term without its sign.
fn push_term(
    text: &mut String,
    term: &(Exponents, i128),
    names: &[Option<char>],
    den: u128,
) -> Result<(), AllocError>
    requires { den ≢ 0 }
    ensures { OnOk result (string_bytes text.new ≡ string_bytes text.old ++ term_text den names.now term.now) }
{
    push_product(text, term.0.each(), term.1.unsigned_abs(), names, den)
}

// Appends the coefficient and the factors, or the factors alone where it is 1 and there are some.
fn push_product(
    text: &mut String,
    exponents: &[u8],
    number: u128,
    names: &[Option<char>],
    den: u128,
) -> Result<(), AllocError>
    requires { den ≢ 0 }
    ensures { OnOk result (string_bytes text.new ≡ string_bytes text.old ++ term_text den names.now (exponents.now, pos number)) }
{
    if number == den {
        let is_constant = push_factors(text, true, names, exponents)?;
        push_one(text, is_constant, number, den)
    } else {
        push_coefficient(text, number, den)?;
        push_factors(text, false, names, exponents)?;
        Ok(())
    }
}

// Appends the coefficient of a constant, and nothing otherwise.
fn push_one(text: &mut String, is_constant: bool, number: u128, den: u128) -> Result<(), AllocError>
    requires { den ≢ 0 }
    ensures { OnOk result (string_bytes text.new ≡ string_bytes text.old ++ cond is_constant (coefficient_text number den) []) }
{
    if is_constant {
        push_coefficient(text, number, den)
    } else {
        Ok(())
    }
}

// Appends the quotient in lowest terms.
fn push_coefficient(text: &mut String, number: u128, den: u128) -> Result<(), AllocError>
    requires { den ≢ 0 }
    ensures { OnOk result (string_bytes text.new ≡ string_bytes text.old ++ coefficient_text number den) }
{
    let common = gcd(number, den);
    let below = den / common;
    push_number(text, number / common)?;
    if below != 1 {
        text.push_str("/")?;
        push_number(text, below)?;
    }
    Ok(())
}

// Appends the sizes to these exponents, and tells whether a factor is still to come first.
fn push_factors(
    text: &mut String,
    is_first: bool,
    names: &[Option<char>],
    exponents: &[u8],
) -> Result<bool, AllocError>
    ensures text { OnOk result
        (string_bytes text.new ≡ string_bytes text.old ++ marked is_first times (factors names.now 0 exponents.now)) }
    ensures first { IfOk result (λ first. first ≡ still is_first (factors names.now 0 exponents.now)) }
{
    let mut first = is_first;
    let mut place = 0;
    for exponent in exponents {
        first = push_next(text, first, name_at(names, place), *exponent)?;
        place += 1;
    }
    Ok(first)
}

// Appends the size to the exponent, where it has a name and the exponent is not 0, and tells whether
// a factor is still to come first.
fn push_next(
    text: &mut String,
    is_first: bool,
    name: Option<char>,
    exponent: u8,
) -> Result<bool, AllocError>
    ensures text { OnOk result (string_bytes text.new ≡ string_bytes text.old ++ marked is_first times (factor name exponent)) }
    ensures first { IfOk result (λ first. first ≡ still is_first (factor name exponent)) }
{
    match name {
        None => Ok(is_first),
        Some(name) => {
            if exponent == 0 {
                return Ok(is_first);
            }
            text.push_str(if is_first { "" } else { "·" })?;
            push_factor(text, name, exponent)?;
            Ok(false)
        }
    }
}

// Appends the size to an exponent that is not 0.
fn push_factor(text: &mut String, name: char, exponent: u8) -> Result<(), AllocError>
    ensures { OnOk result (string_bytes text.new ≡ string_bytes text.old ++ (encode_utf8 name ++ exponent_text exponent)) }
{
    text.push(name)?;
    match exponent {
        1 => Ok(()),
        2 => text.push_str("²"),
        3 => text.push_str("³"),
        4 => text.push_str("⁴"),
        _ => {
            text.push_str("^")?;
            push_number(text, u128::from(exponent))
        }
    }
}

fn push_number(text: &mut String, number: u128) -> Result<(), AllocError>
    ensures { OnOk result (string_bytes text.new ≡ string_bytes text.old ++ decimal number) }
{
    text.push_str(Buffer::new().format(number))
}
