// The lines of an analysis.
ghost use Rattle.std.specs.Prelude.{◌≡◌, ◌++◌, codes, OnOk, IfOk, string_bytes};
ghost use Rattle.base_poly.specs.Poly.{den_of, terms_of, IsPoly};
ghost use Rattle.report_text.specs.Names.{meter_text};
ghost use Rattle.report_text.specs.Polynomial.{polynomial_text};
ghost use Rattle.report_text.specs.Claims.{bound_line, no_bound_line, calls_line};

use crate::names::meter_name;
use base_poly::Poly;
use cost_free::Meter;
use poly_text::print;
use std::alloc::{AllocError, Global};

/// Appends that the polynomial is a bound of the function on the meter.
pub fn push_bound_line(
    alloc: Global,
    text: &mut String,
    name: &str,
    meter: Meter,
    poly: &Poly,
) -> Result<(), AllocError>
    requires { IsPoly poly.now }
    ensures { OnOk result (string_bytes text.new ≡ string_bytes text.old
        ++ bound_line name.now meter (den_of poly.now) (terms_of poly.now)) }
{
    let bound = polynomial(alloc, poly)?;
    push_subject(text, name, meter)?;
    text.push_str(" <= ")?;
    text.push_str(bound.as_str())?;
    text.push_str("\n")
}

/// Appends that the function has no bound on the meter.
pub fn push_no_bound_line(text: &mut String, name: &str, meter: Meter) -> Result<(), AllocError>
    ensures { OnOk result (string_bytes text.new ≡ string_bytes text.old ++ no_bound_line name.now meter) }
{
    push_subject(text, name, meter)?;
    text.push_str(" no bound\n")
}

/// Appends that the function has no bound on the meter, since its group calls one that has none.
pub fn push_calls_line(
    text: &mut String,
    name: &str,
    meter: Meter,
    callee: &str,
) -> Result<(), AllocError>
    ensures { OnOk result (string_bytes text.new ≡ string_bytes text.old ++ calls_line name.now meter callee.now) }
{
    push_subject(text, name, meter)?;
    text.push_str(" no bound: calls ")?;
    text.push_str(callee)?;
    text.push_str("\n")
}

// Appends the name of the function and that of the meter.
fn push_subject(text: &mut String, name: &str, meter: Meter) -> Result<(), AllocError>
    ensures { OnOk result (string_bytes text.new ≡ string_bytes text.old ++ name.now ++ codes " " ++ meter_text meter) }
{
    text.push_str(name)?;
    text.push_str(" ")?;
    text.push_str(meter_name(meter))
}

// The text of a polynomial.
fn polynomial(alloc: Global, poly: &Poly) -> Result<String, AllocError>
    requires { IsPoly poly.now }
    ensures { IfOk result (λ text. string_bytes text ≡ polynomial_text (den_of poly.now) (terms_of poly.now)) }
{
    print(alloc, poly)
}
