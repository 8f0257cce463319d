// What is told behind a bound.
ghost use Rattle.std.specs.Prelude.{◌≡◌, ◌++◌, codes, decimal, string_bytes, OnOk};
ghost use Rattle.raml_syntax.specs.Tree.{Text};
ghost use Rattle.base_poly.specs.Poly.{IsPoly};
ghost use Rattle.poly_point.specs.Point.{AreLow};
ghost use Rattle.explain_sizes.specs.Counts.{whole_at};
ghost use Rattle.explain_sizes.specs.Read.{all_sizes};
ghost use Rattle.explain_at.specs.Asked.{all_names};
ghost use Rattle.explain_at.specs.Read.{all_given, parameters};
ghost use Rattle.explain_bounds.specs.Told.{size_text, given_text, sizes_text, value_text, within_text, IsTail};
ghost use Rattle.explain_bounds.specs.Read.{told_of, CanBeFitted};

use crate::fitted::Fitted;
use base_poly::Poly;
use cost_free::Meter;
use explain_at::{Given, number_for, size_names};
use explain_sizes::{Size, Within, greatest_within, value_at};
use raml_syntax::Param;
use std::alloc::{AllocError, Global};
use std::fmt::Write;

/// Appends what is told behind the bound of a meter, of a function with these parameters.
pub(crate) fn push_tail(
    alloc: Global,
    text: &mut String,
    params: &[Param],
    meter: Meter,
    poly: &Poly,
    fitted: &Fitted<'_>,
) -> Result<(), AllocError>
    requires poly { IsPoly poly.now }
    requires low { AreLow poly.now }
    requires most { CanBeFitted fitted.now }
    ensures { OnOk result ((tail : Text) × IsTail (told_of fitted.now) (all_names (parameters params.now)) meter poly.now tail
        × (string_bytes text.new ≡ string_bytes text.old ++ tail)) }
{
    match fitted {
        Fitted::Nothing => Ok(()),
        Fitted::At { given, sizes } => {
            push_value(text, poly, sizes)?;
            text.push_str(" at ")?;
            push_given(text, given)
        }
        Fitted::Within {
            meter: one,
            most,
            given,
            sizes,
        } => {
            if meter == *one {
                let within = greatest_within(alloc, poly, sizes, *most)?;
                push_within(alloc, text, params, given, *most, within)
            } else {
                Ok(())
            }
        }
    }
}

// Appends the value at sizes, or that it is greater than it can be told.
fn push_value(text: &mut String, poly: &Poly, sizes: &[Size]) -> Result<(), AllocError>
    requires poly { IsPoly poly.now }
    requires low { AreLow poly.now }
    ensures { OnOk result (string_bytes text.new ≡ string_bytes text.old ++ value_text (whole_at poly.now (all_sizes sizes.now))) }
{
    match value_at(poly, sizes) {
        Some(value) => write!(text, " = {value}"),
        None => text.push_str(" is more than 2^127"),
    }
}

// Appends the sizes as they were given.
fn push_given(text: &mut String, given: &[Given<'_>]) -> Result<(), AllocError>
    ensures { OnOk result (string_bytes text.new ≡ string_bytes text.old ++ given_text (all_given given.now)) }
{
    let mut is_first = true;
    for one in given {
        text.push_str(if is_first { "" } else { ", " })?;
        push_size(text, one.name, one.number)?;
        is_first = false;
    }
    Ok(())
}

// Appends up to which number a bound is at most `most`.
fn push_within(
    alloc: Global,
    text: &mut String,
    params: &[Param],
    given: &[Given<'_>],
    most: u128,
    within: Within,
) -> Result<(), AllocError>
    ensures { OnOk result (string_bytes text.new ≡ string_bytes text.old ++ (codes "; at most " ++ (decimal most ++ (codes ": "
        ++ within_text (all_given given.now) (all_names (parameters params.now)) within)))) }
{
    write!(text, "; at most {most}: ")?;
    match within {
        Within::Any => text.push_str("any size"),
        Within::UpTo(number) => push_sizes(alloc, text, params, given, number),
        Within::Never => text.push_str("none"),
    }
}

// Appends the sizes of the parameters, with a number for those that were not given.
fn push_sizes(
    alloc: Global,
    text: &mut String,
    params: &[Param],
    given: &[Given<'_>],
    number: u64,
) -> Result<(), AllocError>
    ensures { OnOk result (string_bytes text.new
        ≡ string_bytes text.old ++ sizes_text (all_given given.now) (all_names (parameters params.now)) number) }
{
    let names = size_names(alloc, params)?;
    let mut is_first = true;
    for name in &names {
        text.push_str(if is_first { "" } else { ", " })?;
        push_size(text, name, number_for(given, name).unwrap_or(number))?;
        is_first = false;
    }
    Ok(())
}

// Appends NAME=N.
fn push_size(text: &mut String, name: &str, number: u64) -> Result<(), AllocError>
    ensures { OnOk result (string_bytes text.new ≡ string_bytes text.old ++ size_text name.now number) }
{
    write!(text, "{name}={number}")
}
