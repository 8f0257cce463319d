// The objects of a function.
ghost use Rattle.std.specs.Prelude.{◌≡◌, ◌++◌, ◌∷◌, [], Ok, IfErr, OnOk, codes, decimal, string_bytes};
ghost use Rattle.json.specs.Token as token;
ghost use Rattle.json.specs.Json.{Members};
ghost use Rattle.json.specs.Tree.{json_tokens, members_tokens};
ghost use Rattle.raml_syntax.specs.Tree.{Text};
ghost use Rattle.raml_syntax.specs.Types.{types_of};
ghost use Rattle.raml_syntax.specs.Read.{program_of, function_of};
ghost use Rattle.base_poly.specs.Poly.{den_of, terms_of, IsPoly};
ghost use Rattle.explain_json.specs.Terms.{terms_json};
ghost use Rattle.explain_at.specs.Read.{parameters, IsSizeFault};
ghost use Rattle.explain_bounds.specs.Told.{Told, told};
ghost use Rattle.explain_bounds.specs.Objects.{HasMembers, IsObject, AreObjects};
ghost use Rattle.explain_bounds.specs.Read.{told_of, CanBeFitted};
ghost use Rattle.explain_bounds.specs.Written.{CanBeTold, AllCanBeTold, CanBeAsked};

use crate::asked::Asked;
use crate::behind::write_behind;
use crate::fitted::{Fitted, fit};
use base_poly::Poly;
use cost_free::Meter;
use explain_at::SizeFault;
use explain_degrees::{Finding, Findings};
use explain_json::{push_line, write_poly, write_text};
use json::Writer;
use raml_syntax::{Fun, FunId, Program};
use report_text::{meter_name, name_at};
use std::alloc::{AllocError, Global};

/// Appends the objects of a function: what is found of ticks, of cells and of work, each on a line of its own.
///
/// A fault where the sizes that are given are not those of the function's parameters, also where nothing is told at
/// them.
pub fn push_objects<'a>(
    alloc: Global,
    text: &mut String,
    program: &Program,
    fun: &Fun,
    findings: &Findings,
    asked: &Asked<'a>,
) -> Result<(), SizeFault<'a>>
    requires findings { AllCanBeTold (types_of (function_of fun.now)) findings.now }
    requires asked { CanBeAsked asked.now }
    ensures objects { OnOk result ((behind : Told) × (told asked.now (parameters fun.now.params.items) ≡ Ok behind)
        × (added : Text) × AreObjects (program_of program.now) (function_of fun.now) behind findings.now added
        × (string_bytes text.new ≡ string_bytes text.old ++ added)) }
    ensures fault { IfErr result (IsSizeFault (told asked.now (parameters fun.now.params.items))) }
{
    let fitted = fit(alloc, asked, &fun.params)?;
    Ok(push_three(alloc, text, program, fun, findings, &fitted)?)
}

// Appends the three objects.
fn push_three(
    alloc: Global,
    text: &mut String,
    program: &Program,
    fun: &Fun,
    findings: &Findings,
    fitted: &Fitted<'_>,
) -> Result<(), AllocError>
    requires findings { AllCanBeTold (types_of (function_of fun.now)) findings.now }
    requires most { CanBeFitted fitted.now }
    ensures { OnOk result ((added : Text)
        × AreObjects (program_of program.now) (function_of fun.now) (told_of fitted.now) findings.now added
        × (string_bytes text.new ≡ string_bytes text.old ++ added)) }
{
    push_object(
        alloc,
        text,
        program,
        fun,
        Meter::Ticks,
        &findings.ticks,
        fitted,
    )?;
    push_object(
        alloc,
        text,
        program,
        fun,
        Meter::Cells,
        &findings.cells,
        fitted,
    )?;
    push_object(
        alloc,
        text,
        program,
        fun,
        Meter::Work,
        &findings.work,
        fitted,
    )
}

// Appends the object of a function and a meter.
fn push_object(
    alloc: Global,
    text: &mut String,
    program: &Program,
    fun: &Fun,
    meter: Meter,
    finding: &Finding,
    fitted: &Fitted<'_>,
) -> Result<(), AllocError>
    requires finding { CanBeTold (types_of (function_of fun.now)) finding.now }
    requires most { CanBeFitted fitted.now }
    ensures { OnOk result ((line : Text)
        × IsObject (program_of program.now) (function_of fun.now) (told_of fitted.now) meter finding.now line
        × (string_bytes text.new ≡ string_bytes text.old ++ line)) }
{
    let mut writer = Writer::new(Vec::new(alloc));
    writer.begin_object()?;
    write_text(&mut writer, "function", fun.name.text())?;
    write_text(&mut writer, "meter", meter_name(meter))?;
    write_finding(alloc, &mut writer, program, fun, meter, finding, fitted)?;
    push_line(text, writer)
}

// Writes the members that a finding has, and ends the object.
fn write_finding(
    alloc: Global,
    writer: &mut Writer,
    program: &Program,
    fun: &Fun,
    meter: Meter,
    finding: &Finding,
    fitted: &Fitted<'_>,
) -> Result<(), AllocError>
    requires finding { CanBeTold (types_of (function_of fun.now)) finding.now }
    requires most { CanBeFitted fitted.now }
    ensures written { OnOk result ((members : Members)
        × HasMembers (program_of program.now) (function_of fun.now) (told_of fitted.now) meter finding.now members
        × (writer.new.tokens ≡ writer.old.tokens ++ members_tokens members)) }
    ensures before { writer.new.before ≡ writer.old.before }
{
    match finding {
        Finding::Bound { degree, poly } => {
            write_degree(writer, *degree)?;
            write_bound(alloc, writer, poly)?;
            write_behind(alloc, writer, &fun.params, meter, poly, fitted)
        }
        Finding::NoBound { degree } => {
            write_degree(writer, *degree)?;
            write_null(writer, "bound")?;
            writer.end_object()
        }
        Finding::Calls { degree, callee } => {
            write_degree(writer, *degree)?;
            write_null(writer, "bound")?;
            write_text(writer, "calls", name_at(program, *callee))?;
            writer.end_object()
        }
        Finding::Refused => {
            write_null(writer, "degree")?;
            write_null(writer, "bound")?;
            writer.end_object()
        }
    }
}

fn write_degree(writer: &mut Writer, degree: u8) -> Result<(), AllocError>
    ensures written { OnOk result (writer.new.tokens
        ≡ writer.old.tokens ++ token.key (codes "degree") ∷ token.number (decimal degree) ∷ []) }
    ensures before { writer.new.before ≡ writer.old.before }
{
    writer.key("degree")?;
    writer.u64(u64::from(degree))
}

fn write_bound(alloc: Global, writer: &mut Writer, poly: &Poly) -> Result<(), AllocError>
    requires { IsPoly poly.now }
    ensures written { OnOk result (writer.new.tokens
        ≡ writer.old.tokens ++ token.key (codes "bound") ∷ json_tokens (terms_json (den_of poly.now) (terms_of poly.now))) }
    ensures before { writer.new.before ≡ writer.old.before }
{
    writer.key("bound")?;
    write_poly(alloc, writer, poly)
}

fn write_null(writer: &mut Writer, key: &str) -> Result<(), AllocError>
    ensures written { OnOk result (writer.new.tokens ≡ writer.old.tokens ++ token.key key.now ∷ token.null ∷ []) }
    ensures before { writer.new.before ≡ writer.old.before }
{
    writer.key(key)?;
    writer.null()
}
