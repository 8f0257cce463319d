// The lines of powers and of comparisons.
ghost use Rattle.std.specs.Prelude.{◌≡◌, ◌++◌, ◌<ℤ◌, pos, codes, unsigned_abs, string_bytes, IfOk, OnOk};
ghost use Rattle.bound_compare.specs.Text.{powers_line, not_flat_line, compared_line, leaves_line};

use crate::compared::Compared;
use crate::form::PowerForm;
use crate::text::push_powers;
use std::alloc::{AllocError, Global};

/// Appends that the powers are a bound of the function on the meter.
pub fn push_powers_line(
    text: &mut String,
    name: &str,
    meter: &str,
    form: &PowerForm,
) -> Result<(), AllocError>
    requires { pos 0 <ℤ form.now.den }
    ensures { OnOk result (string_bytes text.new ≡ string_bytes text.old
        ++ powers_line name.now meter.now (unsigned_abs form.now.den) form.now.terms.items) }
{
    push_subject(text, name, meter)?;
    text.push_str(" <= ")?;
    push_powers(text, form)?;
    text.push_str("\n")
}

/// Appends that the function has a bound on the meter, which is not told in powers since the function is
/// not flat.
pub fn push_not_flat_line(text: &mut String, name: &str, meter: &str) -> Result<(), AllocError>
    ensures { OnOk result (string_bytes text.new ≡ string_bytes text.old ++ not_flat_line name.now meter.now) }
{
    push_subject(text, name, meter)?;
    text.push_str(" not flat\n")
}

/// Appends what a comparison tells of the function and the meter.
pub fn push_compared_line(
    text: &mut String,
    name: &str,
    meter: &str,
    compared: Compared,
) -> Result<(), AllocError>
    ensures { OnOk result (string_bytes text.new ≡ string_bytes text.old ++ compared_line name.now meter.now compared) }
{
    push_subject(text, name, meter)?;
    text.push_str(" ")?;
    text.push_str(compared.word())?;
    text.push_str("\n")
}

/// The line that tells that the function's powers on the meter leave 128 bits.
pub fn leaves_line(alloc: Global, name: &str, meter: &str) -> Result<String, AllocError>
    ensures { IfOk result (λ line. string_bytes line ≡ leaves_line name.now meter.now) }
{
    let mut line = String::from_str(alloc, "raml: overflow: powers ")?;
    push_subject(&mut line, name, meter)?;
    line.push_str("\n")?;
    Ok(line)
}

// Appends the name of the function and that of the meter.
fn push_subject(text: &mut String, name: &str, meter: &str) -> Result<(), AllocError>
    ensures { OnOk result (string_bytes text.new ≡ string_bytes text.old ++ name.now ++ codes " " ++ meter.now) }
{
    text.push_str(name)?;
    text.push_str(" ")?;
    text.push_str(meter)
}
