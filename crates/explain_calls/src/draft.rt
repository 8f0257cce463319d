// The bounds of a program, as a file that declares them.
ghost use Rattle.std.specs.Prelude.{◌≡◌, ◌≤◌, ◌<◌, ◌++◌, ℕ, length, true, List, IfOk, OnOk, IfSome, string_bytes};
ghost use Rattle.std.specs.List.{Contains};
ghost use Rattle.raml_syntax.specs.Tree.{Text};
ghost use Rattle.raml_syntax.specs.Read.{program_of};
ghost use Rattle.call_groups.specs.Groups.{Grouping};
ghost use Rattle.cost_free.specs.Schedule.{meters};
ghost use Rattle.annot_types.specs.Certificate.{has_work};
ghost use Rattle.annot_types.specs.Held.{lines_for};
ghost use Rattle.share_normal.specs.Program.{source_in};
ghost use Rattle.rules_plan.specs.Read.{program_in};
ghost use Rattle.bound_infer.specs.Inferred.{IsInferred};
ghost use Rattle.report_text.specs.Claims.{lines_text};
ghost use Rattle.explain_check.specs.Stores.{store_of};
ghost use Rattle.explain_degrees.specs.Degrees.{analysis_at};
ghost use Rattle.explain_words.specs.Laws.{IsDegree};
ghost use Rattle.explain_calls.specs.Draft.{DraftIs, IsDrafted, IsDraft, bounds_among, bounds_text, first_bounds_text, highest_of};
ghost use Rattle.explain_calls.specs.Draft.{lowest_of};

use crate::analysed::push_note;
use bound_infer::{Line, Verified};
use cost_free::Meter;
use explain_check::read_program;
use explain_degrees::{analyse, refused};
use normal_program::normal_form;
use raml_io::Store;
use raml_syntax::FunId;
use report_text::{name_at, push_bound_line};
use share_normal::NormProgram;
use std::alloc::{AllocError, Global};

/// The degree from which analyses are tried where none is told.
const HIGHEST: u8 = 4;

/// What is made of the bounds of a program.
#[derive(Debug, Drop)]
pub enum Draft {
    /// The text of a file that declares them, as they were found at this degree.
    Made { degree: u8, text: String },
    /// Nothing, since the source can't be read, or spells no typed program.
    Refused,
    /// Nothing, since the analysis could not be made.
    NotAnalysed,
}

/// The bounds of the program in a file, as the text of a file that declares them: those at the degree that is told, or else
/// at the highest that no limit refuses. What is wrong, and which degrees could not be analysed, is appended to the report.
pub fn draft_bounds<S: Store>(
    alloc: Global,
    store: &mut S,
    file: &str,
    degree: Option<u8>,
    report: &mut String,
) -> Result<Draft, AllocError>
    requires range { IfSome degree IsDegree }
    ensures told { IfOk result (λ draft. (part : Text)
        × DraftIs (store_of (S.holds store.old) (S.faults store.old) (S.faults store.new)) file.now degree draft part
        × (string_bytes report.new ≡ string_bytes report.old ++ part)) }
    ensures kept { S.holds store.new ≡ S.holds store.old }
    ensures later { (other : Text) → S.faults store.old other ≤ S.faults store.new other }
{
    let Some(source) = read_program(alloc, store, file, report)? else {
        return Ok(Draft::Refused);
    };
    let program = normal_form(alloc, &source.typed)?;
    draft_down(
        alloc,
        &program,
        highest_of(degree),
        lowest_of(degree),
        report,
    )
}

fn highest_of(degree: Option<u8>) -> u8
    ensures { result ≡ highest_of degree }
{
    degree.unwrap_or(HIGHEST)
}

fn lowest_of(degree: Option<u8>) -> u8
    ensures { result ≡ lowest_of degree }
{
    degree.unwrap_or(1)
}

/// The bounds at the first of the degrees, from one down to the lowest, whose analysis is not refused.
fn draft_down(
    alloc: Global,
    program: &NormProgram<'_>,
    degree: u8,
    lowest: u8,
    report: &mut String,
) -> Result<Draft, AllocError>
    requires least { 1 ≤ lowest }
    requires order { lowest ≤ degree }
    requires most { degree ≤ 4 }
    ensures { IfOk result (λ draft. (part : Text)
        × IsDrafted (source_in program.now) program.now.groups degree lowest draft part
        × (string_bytes report.new ≡ string_bytes report.old ++ part)) }
{
    let _functions = program.functions();
    match analyse(alloc, program, degree) {
        Ok(verified) => Ok(Draft::Made {
            degree,
            text: bounds_text(alloc, program, &verified, degree)?,
        }),
        Err(fault) => {
            push_note(alloc, report, program, refused(degree, fault)?)?;
            if degree > lowest {
                draft_down(alloc, program, degree - 1, lowest, report)
            } else {
                Ok(Draft::NotAnalysed)
            }
        }
    }
}

/// The lines of all functions that are bounds.
fn bounds_text(
    alloc: Global,
    program: &NormProgram<'_>,
    verified: &Verified<'_, '_>,
    degree: u8,
) -> Result<String, AllocError>
    requires program { verified.now.program ≡ program.now }
    requires inferred { IsInferred (analysis_at (program_in program.now) degree) verified.now.certificate }
    ensures { IfOk result (λ text. IsDraft (source_in program.now) (program_in program.now) degree (string_bytes text)) }
{
    let _source = program.source();
    let count = program.functions().len();
    let mut text = String::new(alloc);
    for place in 0..count {
        push_bounds(alloc, &mut text, program, verified, FunId(place as u32))?;
    }
    Ok(text)
}

/// Appends the lines of a function that are bounds.
fn push_bounds(
    alloc: Global,
    text: &mut String,
    program: &NormProgram<'_>,
    verified: &Verified<'_, '_>,
    fun: FunId,
) -> Result<(), AllocError>
    requires program { verified.now.program ≡ program.now }
    requires work { has_work verified.now.certificate ≡ true }
    requires fun { fun.0 < length (source_in program.now) }
    ensures { OnOk result (string_bytes text.new ≡ string_bytes text.old
        ++ bounds_text (source_in program.now) (program_in program.now) verified.now.certificate fun.0) }
{
    push_bound(alloc, text, program, verified, fun, Meter::Ticks)?;
    push_bound(alloc, text, program, verified, fun, Meter::Cells)?;
    push_bound(alloc, text, program, verified, fun, Meter::Work)
}

/// Appends the line of a function and a meter, where it is a bound.
fn push_bound(
    alloc: Global,
    text: &mut String,
    program: &NormProgram<'_>,
    verified: &Verified<'_, '_>,
    fun: FunId,
    meter: Meter,
) -> Result<(), AllocError>
    requires program { verified.now.program ≡ program.now }
    requires work { has_work verified.now.certificate ≡ true }
    requires fun { fun.0 < length (source_in program.now) }
    ensures { OnOk result (string_bytes text.new ≡ string_bytes text.old
        ++ lines_text (source_in program.now) (bounds_among (lines_for (program_in program.now) verified.now.certificate fun.0 meter))) }
{
    match verified.line(alloc, fun, meter)? {
        Line::Bound(poly) => {
            push_bound_line(alloc, text, name_at(program.source(), fun), meter, &poly)
        }
        Line::NoBound | Line::Calls(_) => Ok(()),
    }
}
