// What is found of a function, in few words.
ghost use Rattle.std.specs.Prelude.{◌≡◌, ◌++◌, IfOk, OnOk, All, string_bytes};
ghost use Rattle.raml_syntax.specs.Tree.{Text};
ghost use Rattle.raml_syntax.specs.Types.{types_of};
ghost use Rattle.raml_syntax.specs.Read.{function_of};
ghost use Rattle.base_poly.specs.Indices.{AreIndices};
ghost use Rattle.base_poly.specs.Poly.{IsPoly};
ghost use Rattle.poly_point.specs.Point.{AreLow};
ghost use Rattle.explain_bounds.specs.Lines.{no_bound};
ghost use Rattle.explain_bounds.specs.Written.{AllCanBeTold, CanBeTold};
ghost use Rattle.explain_insight.specs.Brief.{IsBrief, IsBriefOf, IsSum, TellsBriefly};

use base_poly::Poly;
use cost_free::Meter;
use explain_bounds::{parameter_names, parameter_types};
use explain_degrees::{Finding, Findings};
use explain_reading::read_bound;
use raml_syntax::Fun;
use report_text::meter_name;
use std::alloc::{AllocError, Global};
use std::fmt::Write;

/// The bounds of a function of ticks, of cells and of work, in one line.
pub fn brief_bounds(alloc: Global, fun: &Fun, found: &Findings) -> Result<String, AllocError>
    requires { AllCanBeTold (types_of (function_of fun.now)) found.now }
    ensures { IfOk result (λ text. IsBrief (function_of fun.now) found.now (string_bytes text)) }
{
    let mut text = String::new(alloc);
    push_brief(alloc, &mut text, fun, Meter::Ticks, &found.ticks)?;
    text.push_str(" · ")?;
    push_brief(alloc, &mut text, fun, Meter::Cells, &found.cells)?;
    text.push_str(" · ")?;
    push_brief(alloc, &mut text, fun, Meter::Work, &found.work)?;
    Ok(text)
}

/// Appends what is found of a meter.
fn push_brief(
    alloc: Global,
    text: &mut String,
    fun: &Fun,
    meter: Meter,
    finding: &Finding,
) -> Result<(), AllocError>
    requires { CanBeTold (types_of (function_of fun.now)) finding.now }
    ensures { OnOk result ((told : Text) × IsBriefOf (function_of fun.now) meter finding.now told
        × (string_bytes text.new ≡ string_bytes text.old ++ told)) }
{
    text.push_str(meter_name(meter))?;
    push_finding(alloc, text, fun, finding)
}

/// Appends what is found, behind the name of the meter.
fn push_finding(
    alloc: Global,
    text: &mut String,
    fun: &Fun,
    finding: &Finding,
) -> Result<(), AllocError>
    requires { CanBeTold (types_of (function_of fun.now)) finding.now }
    ensures { OnOk result ((told : Text) × TellsBriefly (function_of fun.now) finding.now told
        × (string_bytes text.new ≡ string_bytes text.old ++ told)) }
{
    match finding {
        Finding::Bound { poly, .. } => push_sum(alloc, text, fun, poly),
        Finding::NoBound { degree } | Finding::Calls { degree, .. } => push_none(text, *degree),
        Finding::Refused => text.push_str(" not analysed"),
    }
}

/// Appends that there is no bound.
fn push_none(text: &mut String, degree: u8) -> Result<(), AllocError>
    ensures { OnOk result (string_bytes text.new ≡ string_bytes text.old ++ no_bound degree) }
{
    write!(text, " no bound up to degree {degree}")
}

/// Appends a bound in algebra.
fn push_sum(alloc: Global, text: &mut String, fun: &Fun, poly: &Poly) -> Result<(), AllocError>
    requires poly { IsPoly poly.now }
    requires tuples { All (λ t. AreIndices t.0 (types_of (function_of fun.now))) poly.now.terms.items }
    requires low { AreLow poly.now }
    ensures { OnOk result ((told : Text) × IsSum (function_of fun.now) poly.now told
        × (string_bytes text.new ≡ string_bytes text.old ++ told)) }
{
    let types = parameter_types(alloc, &fun.params)?;
    let names = parameter_names(alloc, &fun.params)?;
    let reading = read_bound(alloc, poly, &types, &names)?;
    text.push_str(" ≤ ")?;
    text.push_str(&reading.sum)
}
