// What is told at a degree.
ghost use Rattle.std.specs.Prelude.{◌≡◌, ◌≢◌, ◌≤◌, ◌<◌, ◌^◌, ◌++◌, true, length, IfOk, OnOk, string_bytes};
ghost use Rattle.raml_syntax.specs.Tree.{Text};
ghost use Rattle.share_normal.specs.Program.{source_in};
ghost use Rattle.rules_plan.specs.Read.{program_in};
ghost use Rattle.annot_types.specs.Certificate.{has_work};
ghost use Rattle.bound_file.specs.Lines.{Line};
ghost use Rattle.bound_file.specs.Answers.{Spells, AreWithin};
ghost use Rattle.bound_contract.specs.Asked.{MayBeAsked};
ghost use Rattle.bound_infer.specs.Inferred.{IsInferred};
ghost use Rattle.refusals.specs.Refusals.{names_in};
ghost use Rattle.explain_degrees.specs.Degrees.{analysis_at};
ghost use Rattle.explain_budget.specs.Degrees.{lower, undecided_line, undecided_note, TellsAt, TellsFrom};
ghost use Rattle.explain_budget.specs.Steps.{AllAreOver};
ghost use Rattle.explain_budget.specs.Read.{asking_in};

use crate::asked::Asked;
use crate::end::BudgetEnd;
use crate::judging::judge_lines;
use crate::telling::{end_of, push_judged};
use analysis_report::laws::bounds_are_of_parameters;
use bound_file::Declared;
use bound_infer::{InferFault, Verified};
use contract_report::VerdictsFault;
use explain_calls::push_note;
use explain_declared::declared_in;
use explain_degrees::{RefusedDegree, analyse};
use infer_spec::laws::courses_stay_within;
use infer_systems_laws::laws::{normals_are_ordered, systems_generate};
use refusal_text::{declared_leaves_line, declared_too_large_line};
use share_normal::NormProgram;
use std::alloc::{AllocError, Global};
use std::fmt::Write;

/// Tells declared bounds in so many tries, from the first degree down: at the highest degree at which no limit refuses the
/// analysis or a decision.
pub(crate) fn tell_from(
    alloc: Global,
    asked: &Asked<'_>,
    program: &NormProgram<'_>,
    first: u8,
    tries: u8,
    text: &mut String,
    report: &mut String,
) -> Result<BudgetEnd, AllocError>
    requires tries { tries ≤ first }
    requires most { first ≤ 4 }
    requires short { length asked.now.bytes.now < 2 ^ 31 }
    ensures { IfOk result (λ end. (shown part : Text)
        × TellsFrom (source_in program.now) (program_in program.now) (names_in program.now) (asking_in asked.now)
        first tries first end shown part
        × (string_bytes text.new ≡ string_bytes text.old ++ shown)
        × (string_bytes report.new ≡ string_bytes report.old ++ part)) }
{
    let mut degree = first;
    let mut left = tries;
    while left > 0 {
        if let Some(end) = tell_at(alloc, asked, program, degree, text, report)? {
            push_lower(report, first, degree, end)?;
            return Ok(end);
        }
        left -= 1;
        degree -= 1;
    }
    Ok(BudgetEnd::NotAnalysed)
}

// Appends that a lower degree than the first one is the highest that no limit refuses, where lines are told at it.
fn push_lower(report: &mut String, first: u8, degree: u8, end: BudgetEnd) -> Result<(), AllocError>
    ensures { OnOk result (string_bytes report.new ≡ string_bytes report.old ++ lower first degree end) }
{
    match end {
        BudgetEnd::AllKept | BudgetEnd::Broken => {
            if degree == first {
                Ok(())
            } else {
                write!(
                    report,
                    "explain: degree {degree} is the highest that no limit refuses\n"
                )
            }
        }
        BudgetEnd::Refused | BudgetEnd::NotAnalysed => Ok(()),
    }
}

// Tells them at a degree; None where a limit refuses it, which is appended to the report.
fn tell_at(
    alloc: Global,
    asked: &Asked<'_>,
    program: &NormProgram<'_>,
    degree: u8,
    text: &mut String,
    report: &mut String,
) -> Result<Option<BudgetEnd>, AllocError>
    requires least { 1 ≤ degree }
    requires most { degree ≤ 4 }
    requires short { length asked.now.bytes.now < 2 ^ 31 }
    ensures { IfOk result (λ end. (shown part : Text)
        × TellsAt (source_in program.now) (program_in program.now) (names_in program.now) (asking_in asked.now) degree end shown part
        × (string_bytes text.new ≡ string_bytes text.old ++ shown)
        × (string_bytes report.new ≡ string_bytes report.old ++ part)) }
{
    let source = program.source();
    let found = declared_in(alloc, asked.name, asked.bytes, source, degree, report)?;
    let Some(declared) = found else {
        return Ok(Some(BudgetEnd::Refused));
    };
    match analyse(alloc, program, degree) {
        Ok(verified) => tell_verified(
            alloc, asked, program, &verified, &declared, degree, text, report,
        ),
        Err(InferFault::NoMemory) => Err(AllocError),
        Err(fault) => {
            push_note(alloc, report, program, RefusedDegree { degree, fault })?;
            Ok(None)
        }
    }
}

// Tells them by the certificate of the degree.
fn tell_verified(
    alloc: Global,
    asked: &Asked<'_>,
    program: &NormProgram<'_>,
    verified: &Verified<'_, '_>,
    declared: &Declared,
    degree: u8,
    text: &mut String,
    report: &mut String,
) -> Result<Option<BudgetEnd>, AllocError>
    requires most { degree ≤ 4 }
    requires program { verified.now.program ≡ program.now }
    requires inferred { IsInferred (analysis_at (program_in program.now) degree) verified.now.certificate }
    requires spelled { Spells (source_in program.now) degree asked.now.bytes.now declared.now }
    requires within { AreWithin (source_in program.now) declared.now }
    requires few { length declared.now.lines < 2 ^ 31 }
    ensures { IfOk result (λ end. (shown part : Text)
        × TellsAt (source_in program.now) (program_in program.now) (names_in program.now) (asking_in asked.now) degree end shown part
        × (string_bytes text.new ≡ string_bytes text.old ++ shown)
        × (string_bytes report.new ≡ string_bytes report.old ++ part)) }
{
    may_be_judged(program, verified, degree);
    match judge_lines(alloc, verified, declared) {
        Ok(judged) => {
            push_judged(alloc, text, program.source(), declared, &judged, asked)?;
            Ok(Some(end_of(&judged)))
        }
        Err(fault) => {
            push_undecided(alloc, report, degree, fault)?;
            Ok(None)
        }
    }
}

// What the course of an analysis gives to the decision of declared bounds.
fn may_be_judged(program: &NormProgram<'_>, verified: &Verified<'_, '_>, degree: u8)
    requires program { verified.now.program ≡ program.now }
    requires inferred { IsInferred (analysis_at (program_in program.now) degree) verified.now.certificate }
    ensures work { has_work verified.now.certificate ≡ true }
    ensures degree { verified.now.certificate.degree ≡ degree }
    ensures over { AllAreOver verified.now }
    ensures asked { (line : Line) → line.fun < length (source_in program.now) → MayBeAsked verified.now line }
{
    systems_generate();
    normals_are_ordered();
    courses_stay_within();
    bounds_are_of_parameters();
    let _source = program.source();
    let _groups = program.groups();
    let _functions = program.functions();
    let _certificate = verified.certificate();
}

// Appends that a line could not be decided at a degree, with the line of `raml`.
fn push_undecided(
    alloc: Global,
    report: &mut String,
    degree: u8,
    fault: VerdictsFault,
) -> Result<(), AllocError>
    ensures told { OnOk result (string_bytes report.new ≡ string_bytes report.old ++ undecided_note degree fault) }
    ensures memory { OnOk result (fault ≢ VerdictsFault.NoMemory) }
{
    let line = undecided_line(alloc, fault)?;
    write!(report, "explain: degree {degree}: {line}")
}

// The line of `raml` for a bound that is not decided.
fn undecided_line(alloc: Global, fault: VerdictsFault) -> Result<String, AllocError>
    ensures is { IfOk result (λ line. string_bytes line ≡ undecided_line fault) }
    ensures memory { OnOk result (fault ≢ VerdictsFault.NoMemory) }
{
    match fault {
        VerdictsFault::TooLarge { line } => declared_too_large_line(alloc, line),
        VerdictsFault::Leaves { line } => declared_leaves_line(alloc, line),
        VerdictsFault::NoMemory => Err(AllocError),
    }
}
