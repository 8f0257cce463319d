// What a certificate adds to what was found.
ghost use Rattle.std.specs.Prelude.{◌≡◌, ◌≤◌, ◌<◌, ◌-◌, length, OnOk};
ghost use Rattle.share_normal.specs.Program.{source_in};
ghost use Rattle.rules_plan.specs.Read.{program_in};
ghost use Rattle.bound_infer.specs.Inferred.{IsInferred};
ghost use Rattle.explain_degrees.specs.Degrees.{analysis_at, finding_of, found_at, IsFinding, AreFindings};

use crate::finding::{Finding, Findings};
use analysis_report::laws::bounds_are_of_parameters;
use bound_infer::{Line, Verified};
use cost_free::Meter;
use raml_syntax::FunId;
use std::alloc::{AllocError, Global};

/// Notes what the certificate of the next degree says of the functions.
pub(crate) fn note_functions(
    alloc: Global,
    functions: &mut [Findings],
    verified: &Verified<'_, '_>,
    degree: u8,
) -> Result<(), AllocError>
    requires inferred { IsInferred (analysis_at (program_in verified.now.program) degree) verified.now.certificate }
    requires count { length functions.old ≤ length (source_in verified.now.program) }
    requires few { length functions.old ≤ 256 }
    requires degree { 1 ≤ degree }
    requires found { AreFindings (source_in verified.now.program) (program_in verified.now.program) (degree - 1) functions.old }
    ensures count { length functions.new ≡ length functions.old }
    ensures found { OnOk result (AreFindings (source_in verified.now.program) (program_in verified.now.program) degree functions.new) }
{
    for place in 0..functions.len() {
        note_function(
            alloc,
            &mut functions[place],
            verified,
            degree,
            FunId(place as u32),
        )?;
    }
    Ok(())
}

/// Notes what it says of a function.
fn note_function(
    alloc: Global,
    findings: &mut Findings,
    verified: &Verified<'_, '_>,
    degree: u8,
    fun: FunId,
) -> Result<(), AllocError>
    requires inferred { IsInferred (analysis_at (program_in verified.now.program) degree) verified.now.certificate }
    requires fun { fun.0 < length (source_in verified.now.program) }
    requires degree { 1 ≤ degree }
    requires found { (meter : Meter) →
        IsFinding (source_in verified.now.program) (program_in verified.now.program) (degree - 1) fun.0 meter
        (finding_of findings.old meter) }
    ensures { OnOk result ((meter : Meter) →
        IsFinding (source_in verified.now.program) (program_in verified.now.program) degree fun.0 meter (finding_of findings.new meter)) }
{
    note(
        alloc,
        &mut findings.ticks,
        verified,
        degree,
        fun,
        Meter::Ticks,
    )?;
    note(
        alloc,
        &mut findings.cells,
        verified,
        degree,
        fun,
        Meter::Cells,
    )?;
    note(
        alloc,
        &mut findings.work,
        verified,
        degree,
        fun,
        Meter::Work,
    )
}

/// Notes what it says of a function and a meter, unless a bound was found.
fn note(
    alloc: Global,
    finding: &mut Finding,
    verified: &Verified<'_, '_>,
    degree: u8,
    fun: FunId,
    meter: Meter,
) -> Result<(), AllocError>
    requires inferred { IsInferred (analysis_at (program_in verified.now.program) degree) verified.now.certificate }
    requires fun { fun.0 < length (source_in verified.now.program) }
    requires degree { 1 ≤ degree }
    requires found { IsFinding (source_in verified.now.program) (program_in verified.now.program) (degree - 1) fun.0 meter finding.old }
    ensures { OnOk result (IsFinding (source_in verified.now.program) (program_in verified.now.program) degree fun.0 meter finding.new) }
{
    if finding.is_bound() {
        return Ok(());
    }
    bounds_are_of_parameters();
    let _functions = verified.checked().program().functions();
    let _certificate = verified.certificate();
    *finding = found_at(degree, verified.line(alloc, fun, meter)?);
    Ok(())
}

/// What is found where the certificate of a degree has this line.
fn found_at(degree: u8, line: Line) -> Finding
    ensures { result ≡ found_at degree line }
{
    match line {
        Line::Bound(poly) => Finding::Bound { degree, poly },
        Line::NoBound => Finding::NoBound { degree },
        Line::Calls(callee) => Finding::Calls { degree, callee },
    }
}
