// The lines of a certificate.
ghost use Rattle.std.specs.Prelude.{◌≡◌, ◌≤◌, ◌<◌, ◌++◌, length, OnOk, IfOk, string_bytes};
ghost use Rattle.std.specs.List.{Contains};
ghost use Rattle.raml_syntax.specs.Read.{program_of};
ghost use Rattle.cost_free.specs.declared.task.Meter.{Meter as TheMeter};
ghost use Rattle.cost_free.specs.Schedule.{meters};
ghost use Rattle.share_normal.specs.Program.{source_in};
ghost use Rattle.annot_types.specs.Certificate.{has_work};
ghost use Rattle.annot_types.specs.Held.{Claim, lines_for};
ghost use Rattle.rules_plan.specs.Read.{program_in};
ghost use Rattle.report_text.specs.Claims.{lines_text};
ghost use Rattle.analysis_report.specs.Lines.{lines_of, Claims, AreLines, AreMeterLines, lines_between, AllClaim};

use bound_infer::{Line, Verified};
use cost_free::Meter;
use raml_syntax::{FunId, Program};
use report_text::{name_at, push_bound_line, push_calls_line, push_no_bound_line};
use share_normal::NormProgram;
use std::alloc::{AllocError, Global};

/// Appends the line of a function and a meter.
fn push_line(
    alloc: Global,
    text: &mut String,
    program: &Program,
    verified: &Verified<'_, '_>,
    fun: FunId,
    meter: Meter,
) -> Result<(), AllocError>
    requires program { program_of program.now ≡ source_in verified.now.program }
    requires fun { fun.0 < length (source_in verified.now.program) }
    requires meter { Contains (meters (has_work verified.now.certificate)) meter }
    ensures text { OnOk result (string_bytes text.new ≡ string_bytes text.old
        ++ lines_text (source_in verified.now.program) (lines_for (program_in verified.now.program) verified.now.certificate fun.0 meter)) }
    ensures one { OnOk result ((claim : Claim) × Claims (program_in verified.now.program) verified.now.certificate fun.0 meter claim) }
{
    let name = name_at(program, fun);
    match verified.line(alloc, fun, meter)? {
        Line::Bound(poly) => push_bound_line(alloc, text, name, meter, &poly),
        Line::NoBound => push_no_bound_line(text, name, meter),
        Line::Calls(callee) => push_calls_line(text, name, meter, name_at(program, callee)),
    }
}

/// Appends the lines of a function.
fn push_lines(
    alloc: Global,
    text: &mut String,
    program: &Program,
    verified: &Verified<'_, '_>,
    fun: FunId,
) -> Result<(), AllocError>
    requires program { program_of program.now ≡ source_in verified.now.program }
    requires fun { fun.0 < length (source_in verified.now.program) }
    ensures text { OnOk result (string_bytes text.new ≡ string_bytes text.old
        ++ lines_text (source_in verified.now.program) (lines_of (program_in verified.now.program) verified.now.certificate fun.0)) }
    ensures each { OnOk result ((meter : TheMeter) → Contains (meters (has_work verified.now.certificate)) meter →
        (claim : Claim) × Claims (program_in verified.now.program) verified.now.certificate fun.0 meter claim) }
{
    push_line(alloc, text, program, verified, fun, Meter::Ticks)?;
    push_line(alloc, text, program, verified, fun, Meter::Cells)?;
    if counts_work(verified) {
        push_line(alloc, text, program, verified, fun, Meter::Work)?;
    }
    Ok(())
}

// Whether the certificate counts work.
pub(crate) fn counts_work(verified: &Verified<'_, '_>) -> bool
    ensures { result ≡ has_work verified.now.certificate }
{
    verified.certificate().work_scale.is_some()
}

/// The lines of a function.
pub fn function_lines(
    alloc: Global,
    program: &Program,
    verified: &Verified<'_, '_>,
    fun: FunId,
) -> Result<String, AllocError>
    requires program { program_of program.now ≡ source_in verified.now.program }
    requires fun { fun.0 < length (source_in verified.now.program) }
    ensures { IfOk result (λ text. string_bytes text
        ≡ lines_text (source_in verified.now.program) (lines_of (program_in verified.now.program) verified.now.certificate fun.0)) }
{
    let mut text = String::new(alloc);
    push_lines(alloc, &mut text, program, verified, fun)?;
    Ok(text)
}

/// The lines of all functions, in the order of the source.
pub fn lines(
    alloc: Global,
    program: &NormProgram<'_>,
    verified: &Verified<'_, '_>,
) -> Result<String, AllocError>
    requires program { verified.now.program ≡ program.now }
    ensures { IfOk result (λ text.
        AreLines (source_in verified.now.program) (program_in verified.now.program) verified.now.certificate (string_bytes text)) }
{
    let _functions = program.functions();
    all_lines(alloc, program.source(), verified)
}

// Those of each function of the source.
fn all_lines(
    alloc: Global,
    program: &Program,
    verified: &Verified<'_, '_>,
) -> Result<String, AllocError>
    requires program { program_of program.now ≡ source_in verified.now.program }
    requires few { length (program_of program.now) ≤ 256 }
    ensures text { IfOk result (λ text. string_bytes text
        ≡ lines_between (source_in verified.now.program)
        (program_in verified.now.program) verified.now.certificate 0 (length (source_in verified.now.program))) }
    ensures each { OnOk result
        (AllClaim (program_in verified.now.program) verified.now.certificate (length (source_in verified.now.program))) }
{
    let mut text = String::new(alloc);
    for place in 0..program.funs.len() {
        push_lines(alloc, &mut text, program, verified, FunId(place as u32))?;
    }
    Ok(text)
}

/// The lines of one meter: one for each function, in the order of the source.
pub fn meter_lines(
    alloc: Global,
    program: &NormProgram<'_>,
    verified: &Verified<'_, '_>,
    meter: Meter,
) -> Result<String, AllocError>
    requires program { verified.now.program ≡ program.now }
    requires meter { Contains (meters (has_work verified.now.certificate)) meter }
    ensures { IfOk result (λ text.
        AreMeterLines (source_in verified.now.program)
        (program_in verified.now.program) verified.now.certificate meter (string_bytes text)) }
{
    each_line(alloc, program.source(), verified, meter)
}

// That of each function of the source.
fn each_line(
    alloc: Global,
    program: &Program,
    verified: &Verified<'_, '_>,
    meter: Meter,
) -> Result<String, AllocError>
    requires program { program_of program.now ≡ source_in verified.now.program }
    requires few { length (program_of program.now) ≤ 256 }
    requires meter { Contains (meters (has_work verified.now.certificate)) meter }
    ensures { IfOk result (λ text.
        AreMeterLines (source_in verified.now.program)
        (program_in verified.now.program) verified.now.certificate meter (string_bytes text)) }
{
    let mut text = String::new(alloc);
    for place in 0..program.funs.len() {
        push_line(
            alloc,
            &mut text,
            program,
            verified,
            FunId(place as u32),
            meter,
        )?;
    }
    Ok(text)
}
