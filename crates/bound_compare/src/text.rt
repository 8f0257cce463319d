// The text of powers.
ghost use Rattle.std.specs.Prelude.{◌≡◌, ◌++◌, ◌<ℤ◌, ◌≢◌, pos, unsigned_abs, decimal, string_bytes, OnOk};
ghost use Rattle.poly_text.specs.Text.{coefficient_text};
ghost use Rattle.bound_compare.specs.Text.{factor_text, factors_text, power_text, sign_text, joint_text, more_powers, powers_text};

use crate::exponents::Exponents;
use crate::form::PowerForm;
use itoa::Buffer;
use raml_num::gcd;
use std::alloc::AllocError;

/// Appends the powers, such as `4 - 1/2*n1 + 1/2*n1^2`: `n1` is the element count of the first argument.
/// Coefficients are in lowest terms.
pub fn push_powers(text: &mut String, form: &PowerForm) -> Result<(), AllocError>
    requires { pos 0 <ℤ form.now.den }
    ensures { OnOk result (string_bytes text.new ≡ string_bytes text.old ++ powers_text (unsigned_abs form.now.den) form.now.terms.items) }
{
    push_sum(text, &form.terms, form.den.unsigned_abs())
}

// Appends the powers one after the other, or a zero.
fn push_sum(text: &mut String, terms: &[(Exponents, i128)], den: u128) -> Result<(), AllocError>
    requires { den ≢ 0 }
    ensures { OnOk result (string_bytes text.new ≡ string_bytes text.old ++ powers_text den terms.now) }
{
    match terms {
        [] => text.push_str("0"),
        [(exponents, number), rest @ ..] => {
            text.push_str(sign(*number))?;
            push_power(text, exponents, *number, den)?;
            push_more(text, rest, den)
        }
    }
}

// Appends each of the powers behind others.
fn push_more(text: &mut String, terms: &[(Exponents, i128)], den: u128) -> Result<(), AllocError>
    requires { den ≢ 0 }
    ensures { OnOk result (string_bytes text.new ≡ string_bytes text.old ++ more_powers den terms.now) }
{
    for (exponents, number) in terms {
        text.push_str(joint(*number))?;
        push_power(text, exponents, *number, den)?;
    }
    Ok(())
}

// The sign of the first number.
fn sign(number: i128) -> &'static str
    ensures { result.now ≡ sign_text number }
{
    if number < 0 { "-" } else { "" }
}

// The sign of a number behind others.
fn joint(number: i128) -> &'static str
    ensures { result.now ≡ joint_text number }
{
    if number < 0 { " - " } else { " + " }
}

// Appends the coefficient without its sign, and the factors.
fn push_power(
    text: &mut String,
    exponents: &Exponents,
    number: i128,
    den: u128,
) -> Result<(), AllocError>
    requires { den ≢ 0 }
    ensures { OnOk result (string_bytes text.new ≡ string_bytes text.old ++ power_text den (exponents.now, number)) }
{
    push_coefficient(text, number.unsigned_abs(), den)?;
    push_factors(text, exponents.each())
}

// Appends the quotient in lowest terms.
fn push_coefficient(text: &mut String, number: u128, den: u128) -> Result<(), AllocError>
    requires { den ≢ 0 }
    ensures { OnOk result (string_bytes text.new ≡ string_bytes text.old ++ coefficient_text number den) }
{
    let common = gcd(number, den);
    let below = den / common;
    push_number(text, number / common)?;
    if below != 1 {
        text.push_str("/")?;
        push_number(text, below)?;
    }
    Ok(())
}

// Appends the element counts to these exponents.
fn push_factors(text: &mut String, exponents: &[u8]) -> Result<(), AllocError>
    ensures { OnOk result (string_bytes text.new ≡ string_bytes text.old ++ factors_text 1 exponents.now) }
{
    let mut parameter: u128 = 1;
    for exponent in exponents {
        push_factor(text, parameter, *exponent)?;
        parameter += 1;
    }
    Ok(())
}

// Appends the parameter's element count to the exponent.
fn push_factor(text: &mut String, parameter: u128, exponent: u8) -> Result<(), AllocError>
    ensures { OnOk result (string_bytes text.new ≡ string_bytes text.old ++ factor_text parameter exponent) }
{
    if exponent == 0 {
        return Ok(());
    }
    text.push_str("*n")?;
    push_number(text, parameter)?;
    if exponent != 1 {
        text.push_str("^")?;
        push_number(text, u128::from(exponent))?;
    }
    Ok(())
}

fn push_number(text: &mut String, number: u128) -> Result<(), AllocError>
    ensures { OnOk result (string_bytes text.new ≡ string_bytes text.old ++ decimal number) }
{
    text.push_str(Buffer::new().format(number))
}
