// The lines of a function.
ghost use Rattle.std.specs.Prelude.{◌≡◌, ◌++◌, [], ◌∷◌, List, Ok, IfOk, IfErr, OnOk, string_bytes};
ghost use Rattle.raml_syntax.specs.Tree.{Text};
ghost use Rattle.raml_syntax.specs.Types.{types_of};
ghost use Rattle.raml_syntax.specs.Read.{program_of, function_of};
ghost use Rattle.report_text.specs.Names.{name_at};
ghost use Rattle.explain_at.specs.Read.{parameters, texts, IsSizeFault};
ghost use Rattle.explain_bounds.specs.Told.{Told, told};
ghost use Rattle.explain_bounds.specs.Lines.{no_bound, calls_unbounded, Tells, IsLine, AreLines};
ghost use Rattle.explain_bounds.specs.Read.{told_of, CanBeFitted};
ghost use Rattle.explain_bounds.specs.Written.{CanBeTold, AllCanBeTold, CanBeAsked};

use crate::asked::Asked;
use crate::bound::push_bound;
use crate::fitted::{Fitted, fit};
use cost_free::Meter;
use explain_at::SizeFault;
use explain_degrees::{Finding, Findings};
use raml_syntax::{Fun, FunId, Program};
use report_text::{meter_name, name_at};
use std::alloc::{AllocError, Global};
use std::fmt::Write;

/// Appends the lines of a function: what is found of ticks, of cells and of work. A line has no newline.
///
/// A fault where the sizes that are given are not those of the function's parameters, also where nothing is told at
/// them.
pub fn push_function<'a>(
    alloc: Global,
    lines: &mut Vec<String>,
    program: &Program,
    fun: &Fun,
    findings: &Findings,
    asked: &Asked<'a>,
) -> Result<(), SizeFault<'a>>
    requires findings { AllCanBeTold (types_of (function_of fun.now)) findings.now }
    requires asked { CanBeAsked asked.now }
    ensures lines { OnOk result ((behind : Told) × (told asked.now (parameters fun.now.params.items) ≡ Ok behind)
        × (added : List Text) × AreLines (program_of program.now) (function_of fun.now) behind findings.now added
        × (texts lines.new.items ≡ texts lines.old.items ++ added)) }
    ensures fault { IfErr result (IsSizeFault (told asked.now (parameters fun.now.params.items))) }
{
    let fitted = fit(alloc, asked, &fun.params)?;
    Ok(push_lines(alloc, lines, program, fun, findings, &fitted)?)
}

// Appends the three lines.
fn push_lines(
    alloc: Global,
    lines: &mut Vec<String>,
    program: &Program,
    fun: &Fun,
    findings: &Findings,
    fitted: &Fitted<'_>,
) -> Result<(), AllocError>
    requires findings { AllCanBeTold (types_of (function_of fun.now)) findings.now }
    requires most { CanBeFitted fitted.now }
    ensures { OnOk result ((added : List Text)
        × AreLines (program_of program.now) (function_of fun.now) (told_of fitted.now) findings.now added
        × (texts lines.new.items ≡ texts lines.old.items ++ added)) }
{
    add_line(
        alloc,
        lines,
        program,
        fun,
        Meter::Ticks,
        &findings.ticks,
        fitted,
    )?;
    add_line(
        alloc,
        lines,
        program,
        fun,
        Meter::Cells,
        &findings.cells,
        fitted,
    )?;
    add_line(
        alloc,
        lines,
        program,
        fun,
        Meter::Work,
        &findings.work,
        fitted,
    )?;
    Ok(())
}

// Appends the line of a function and a meter.
fn add_line(
    alloc: Global,
    lines: &mut Vec<String>,
    program: &Program,
    fun: &Fun,
    meter: Meter,
    finding: &Finding,
    fitted: &Fitted<'_>,
) -> Result<(), AllocError>
    requires finding { CanBeTold (types_of (function_of fun.now)) finding.now }
    requires most { CanBeFitted fitted.now }
    ensures { OnOk result ((line : Text)
        × IsLine (program_of program.now) (function_of fun.now) (told_of fitted.now) meter finding.now line
        × (texts lines.new.items ≡ texts lines.old.items ++ line ∷ [])) }
{
    lines.push(line(alloc, program, fun, meter, finding, fitted)?)?;
    Ok(())
}

// The line of a function and a meter.
fn line(
    alloc: Global,
    program: &Program,
    fun: &Fun,
    meter: Meter,
    finding: &Finding,
    fitted: &Fitted<'_>,
) -> Result<String, AllocError>
    requires finding { CanBeTold (types_of (function_of fun.now)) finding.now }
    requires most { CanBeFitted fitted.now }
    ensures { IfOk result (λ line.
        IsLine (program_of program.now) (function_of fun.now) (told_of fitted.now) meter finding.now (string_bytes line)) }
{
    let mut text = String::from_str(alloc, fun.name.text())?;
    text.push(' ')?;
    text.push_str(meter_name(meter))?;
    push_finding(alloc, &mut text, program, fun, meter, finding, fitted)?;
    Ok(text)
}

// Appends what a finding tells of a function and a meter, behind both names.
fn push_finding(
    alloc: Global,
    text: &mut String,
    program: &Program,
    fun: &Fun,
    meter: Meter,
    finding: &Finding,
    fitted: &Fitted<'_>,
) -> Result<(), AllocError>
    requires finding { CanBeTold (types_of (function_of fun.now)) finding.now }
    requires most { CanBeFitted fitted.now }
    ensures { OnOk result ((told : Text)
        × Tells (program_of program.now) (function_of fun.now) (told_of fitted.now) meter finding.now told
        × (string_bytes text.new ≡ string_bytes text.old ++ told)) }
{
    match finding {
        Finding::Bound { poly, .. } => push_bound(alloc, text, fun, meter, poly, fitted),
        Finding::NoBound { degree } => push_no_bound(text, *degree),
        Finding::Calls { degree, callee } => push_calls(text, program, *degree, *callee),
        Finding::Refused => text.push_str(" not analysed"),
    }
}

// Appends that there is no bound.
fn push_no_bound(text: &mut String, degree: u8) -> Result<(), AllocError>
    ensures { OnOk result (string_bytes text.new ≡ string_bytes text.old ++ no_bound degree) }
{
    write!(text, " no bound up to degree {degree}")
}

// Appends that there is no bound, since a function that is called has none.
fn push_calls(
    text: &mut String,
    program: &Program,
    degree: u8,
    callee: FunId,
) -> Result<(), AllocError>
    ensures { OnOk result (string_bytes text.new
        ≡ string_bytes text.old ++ calls_unbounded degree (name_at (program_of program.now) callee.0)) }
{
    push_no_bound(text, degree)?;
    write!(text, ": calls {}, which has none", name_at(program, callee))
}
