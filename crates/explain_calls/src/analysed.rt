// The analyses of a program, and what they find.
ghost use Rattle.std.specs.Prelude.{◌≡◌, ◌≤◌, ◌++◌, Result, Option, true, false, List, IfOk, OnOk, string_bytes};
ghost use Rattle.raml_syntax.specs.Tree.{Text, Type'};
ghost use Rattle.raml_syntax.specs.Read.{program_of};
ghost use Rattle.refusal_text.specs.declared.task.Analysed.TheVariants as TheAnalysed;
ghost use Rattle.refusals.specs.Line.{course_line};
ghost use Rattle.refusals.specs.Refusals.{names_in};
ghost use Rattle.explain_at.specs.Asked.{Fault};
ghost use Rattle.explain_bounds.specs.Told.{Told, told};
ghost use Rattle.explain_bounds.specs.Written.{CanBeAsked};
ghost use Rattle.explain_calls.specs.Read.{showing_in};
ghost use Rattle.explain_calls.specs.Told.{note, notes};
ghost use Rattle.explain_calls.specs.Calls.{AnalysedIs, TicksAreRefused};

use crate::end::End;
use crate::parts::{Showing, push_parts};
use bound_infer::InferFault;
use explain_bounds::laws::findings_can_be_told;
use explain_degrees::{Finding, Findings, LeastBounds, RefusedDegree, least_bounds};
use normal_program::normal_form;
use refusal_text::Analysed;
use refusals::{Status, course_refusal};
use share_normal::NormProgram;
use simple_types::Typed;
use std::alloc::{AllocError, Global};
use std::fmt::Write;

/// Analyses a program at each degree up to `most`, and tells the bounds that are found. The degrees whose analyses are
/// refused are appended to the report.
pub(crate) fn tell_analysed(
    alloc: Global,
    typed: &Typed,
    most: u8,
    showing: &Showing<'_>,
    text: &mut String,
    report: &mut String,
) -> Result<End, AllocError>
    requires least { 1 ≤ most }
    requires most { most ≤ 4 }
    requires asked { CanBeAsked showing.now.asked }
    ensures { IfOk result (λ end. (shown part : Text) × AnalysedIs (program_of typed.now) most (showing_in showing.now) end shown part
        × (string_bytes text.new ≡ string_bytes text.old ++ shown)
        × (string_bytes report.new ≡ string_bytes report.old ++ part)) }
{
    let _program = typed.program();
    let program = normal_form(alloc, typed)?;
    let LeastBounds { functions, refused } = least_bounds(alloc, &program, most)?;
    push_notes(alloc, report, &program, refused)?;
    if is_unanalysed(&functions) {
        return Ok(End::NotAnalysed);
    }
    findings_can_be_told();
    push_parts(alloc, text, program.source(), &functions, showing)?;
    Ok(End::Told)
}

/// Whether no analysis found anything of the first function.
pub fn is_unanalysed(functions: &[Findings]) -> bool
    ensures { result ≡ true → TicksAreRefused functions.now }
{
    match functions {
        [first, ..] => matches!(first.ticks, Finding::Refused),
        [] => false,
    }
}

/// Appends which degrees could not be analysed, each with the line of `raml`.
pub fn push_notes(
    alloc: Global,
    report: &mut String,
    program: &NormProgram<'_>,
    refused: Vec<RefusedDegree>,
) -> Result<(), AllocError>
    ensures { OnOk result (string_bytes report.new ≡ string_bytes report.old ++ notes (names_in program.now) refused.items) }
{
    for refused in refused {
        push_note(alloc, report, program, refused)?;
    }
    Ok(())
}

/// Appends that a degree could not be analysed, with the line of `raml`.
pub fn push_note(
    alloc: Global,
    report: &mut String,
    program: &NormProgram<'_>,
    refused: RefusedDegree,
) -> Result<(), AllocError>
    ensures { OnOk result (string_bytes report.new ≡ string_bytes report.old ++ note (names_in program.now) refused) }
{
    let line = refusal_line(alloc, program, refused.fault)?;
    write!(report, "explain: degree {}: {line}", refused.degree)
}

/// The line of `raml` for what refuses an analysis of the program, or the check of a certificate.
pub fn refusal_line(
    alloc: Global,
    program: &NormProgram<'_>,
    fault: InferFault,
) -> Result<String, AllocError>
    ensures { IfOk result (λ line. string_bytes line ≡ course_line TheAnalysed.Program (names_in program.now) fault) }
{
    let refusal = course_refusal(alloc, Analysed::Program, program, fault);
    match refusal.status {
        Status::NoMemory => Err(AllocError),
        _ => String::from_str(alloc, refusal.line.text()),
    }
}
