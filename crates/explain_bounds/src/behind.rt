// What stands behind a bound in its object.
ghost use Rattle.std.specs.Prelude.{◌≡◌, ◌++◌, ◌∷◌, [], OnOk, codes, decimal};
ghost use Rattle.json.specs.Token as token;
ghost use Rattle.json.specs.Json.{Members};
ghost use Rattle.json.specs.Tree.{json_tokens, members_tokens};
ghost use Rattle.raml_syntax.specs.Tree.{Text};
ghost use Rattle.base_poly.specs.Poly.{IsPoly};
ghost use Rattle.poly_point.specs.Point.{AreLow};
ghost use Rattle.explain_sizes.specs.Counts.{whole_at};
ghost use Rattle.explain_sizes.specs.Read.{all_sizes};
ghost use Rattle.explain_at.specs.Asked.{all_names};
ghost use Rattle.explain_at.specs.Read.{all_given, parameters};
ghost use Rattle.explain_bounds.specs.Objects.{sizes_members, filled, value_json, within_json, AreBehind};
ghost use Rattle.explain_bounds.specs.Read.{told_of, CanBeFitted};

use crate::fitted::Fitted;
use base_poly::Poly;
use cost_free::Meter;
use explain_at::{Given, number_for, size_names};
use explain_sizes::{Size, Within, greatest_within, value_at};
use itoa::Buffer;
use json::Writer;
use raml_syntax::Param;
use std::alloc::{AllocError, Global};

/// Writes what stands behind the bound of a meter, of a function with these parameters, and ends the object.
pub(crate) fn write_behind(
    alloc: Global,
    writer: &mut Writer,
    params: &[Param],
    meter: Meter,
    poly: &Poly,
    fitted: &Fitted<'_>,
) -> Result<(), AllocError>
    requires poly { IsPoly poly.now }
    requires low { AreLow poly.now }
    requires most { CanBeFitted fitted.now }
    ensures written { OnOk result ((members : Members)
        × AreBehind (told_of fitted.now) (all_names (parameters params.now)) meter poly.now members
        × (writer.new.tokens ≡ writer.old.tokens ++ members_tokens members)) }
    ensures before { writer.new.before ≡ writer.old.before }
{
    match fitted {
        Fitted::Nothing => writer.end_object(),
        Fitted::At { given, sizes } => {
            write_given(writer, given)?;
            write_value(writer, poly, sizes)?;
            writer.end_object()
        }
        Fitted::Within {
            meter: one,
            most,
            given,
            sizes,
        } => {
            if meter == *one {
                let within = greatest_within(alloc, poly, sizes, *most)?;
                write_most(writer, *most)?;
                write_within(alloc, writer, params, given, within)?;
                writer.end_object()
            } else {
                writer.end_object()
            }
        }
    }
}

// Writes the sizes as they were given.
fn write_given(writer: &mut Writer, given: &[Given<'_>]) -> Result<(), AllocError>
    ensures written { OnOk result (writer.new.tokens ≡ writer.old.tokens
        ++ token.key (codes "at") ∷ token.begin_object ∷ members_tokens (sizes_members (all_given given.now))) }
    ensures before { writer.new.before ≡ writer.old.before }
{
    writer.key("at")?;
    writer.begin_object()?;
    for one in given {
        write_size(writer, one.name, one.number)?;
    }
    writer.end_object()
}

// Writes a size.
fn write_size(writer: &mut Writer, name: &str, number: u64) -> Result<(), AllocError>
    ensures written { OnOk result (writer.new.tokens
        ≡ writer.old.tokens ++ token.key name.now ∷ token.number (decimal number) ∷ []) }
    ensures before { writer.new.before ≡ writer.old.before }
{
    writer.key(name)?;
    writer.u64(number)
}

// Writes the value at sizes, or null where it is greater than it can be told.
fn write_value(writer: &mut Writer, poly: &Poly, sizes: &[Size]) -> Result<(), AllocError>
    requires poly { IsPoly poly.now }
    requires low { AreLow poly.now }
    ensures written { OnOk result (writer.new.tokens ≡ writer.old.tokens
        ++ token.key (codes "value") ∷ json_tokens (value_json (whole_at poly.now (all_sizes sizes.now)))) }
    ensures before { writer.new.before ≡ writer.old.before }
{
    writer.key("value")?;
    match value_at(poly, sizes) {
        Some(value) => writer.string(Buffer::new().format(value)),
        None => writer.null(),
    }
}

// Writes how much may be spent.
fn write_most(writer: &mut Writer, most: u128) -> Result<(), AllocError>
    ensures written { OnOk result (writer.new.tokens
        ≡ writer.old.tokens ++ token.key (codes "within") ∷ token.string (decimal most) ∷ []) }
    ensures before { writer.new.before ≡ writer.old.before }
{
    writer.key("within")?;
    writer.string(Buffer::new().format(most))
}

// Writes up to which sizes no more is spent.
fn write_within(
    alloc: Global,
    writer: &mut Writer,
    params: &[Param],
    given: &[Given<'_>],
    within: Within,
) -> Result<(), AllocError>
    ensures written { OnOk result (writer.new.tokens ≡ writer.old.tokens
        ++ token.key (codes "sizes") ∷ json_tokens (within_json (all_given given.now) (all_names (parameters params.now)) within)) }
    ensures before { writer.new.before ≡ writer.old.before }
{
    writer.key("sizes")?;
    match within {
        Within::Any => writer.string("any"),
        Within::UpTo(number) => write_sizes(alloc, writer, params, given, number),
        Within::Never => writer.null(),
    }
}

// Writes the sizes of the parameters, with a number for those that were not given.
fn write_sizes(
    alloc: Global,
    writer: &mut Writer,
    params: &[Param],
    given: &[Given<'_>],
    number: u64,
) -> Result<(), AllocError>
    ensures written { OnOk result (writer.new.tokens ≡ writer.old.tokens
        ++ token.begin_object ∷ members_tokens (sizes_members (filled (all_given given.now) (all_names (parameters params.now)) number))) }
    ensures before { writer.new.before ≡ writer.old.before }
{
    let names = size_names(alloc, params)?;
    writer.begin_object()?;
    for name in &names {
        write_size(writer, name, number_for(given, name).unwrap_or(number))?;
    }
    writer.end_object()
}
