// Trials of a made program.
ghost use Rattle.std.specs.Prelude.{◌≡◌, ◌≤◌, ◌<◌, ◌++◌, List, length, Some, slice_get, IfOk, IfErr, string_bytes};
ghost use Rattle.raml_syntax.specs.Value.{Value};
ghost use Rattle.raml_syntax.specs.Read.{program_of};
ghost use Rattle.raml_words.specs.declared.request.Rule.TheVariants as rule;
ghost use Rattle.rules_plan.specs.Read.{program_in};
ghost use Rattle.report_text.specs.Trial as t;
ghost use Rattle.report_text.specs.Claims.{lines_text};
ghost use Rattle.analysis_report.specs.Lines.{lines_of};
ghost use Rattle.refusals.specs.Refusals.{IsWanting};
ghost use Rattle.raml_promise.specs.Outside.{Sound};
ghost use Rattle.raml_promise.specs.Steps.{OfShort, OfSource};
ghost use Rattle.raml_promise.specs.Analysis.{OfCourse};
ghost use Rattle.raml_promise.specs.Call.{Placed, OfArguments};
ghost use Rattle.raml_promise.specs.Promise.{Tries, TriesCall, RunsTrial};
ghost use Rattle.raml_parts.specs.Parts.{IsReady, Gives, HasArguments};
ghost use Rattle.refusal_text.specs.declared.plain.Which.TheVariants as which;

use analysis_report::function_lines;
use bound_infer::Verified;
use normal_program::normal_form;
use raml_parts::{Arguments, Limits, analyse, execute, most_bytes, read_arguments, typed_program};
use raml_syntax::FunId;
use raml_words::Rule;
use refusal_text::{Analysed, Which};
use refusals::{Refusal, Report};
use report_text::{functions_line, trial_data, trial_function, trial_source};
use share_normal::NormProgram;
use simple_types::Typed;
use std::alloc::{AllocError, Global};

/// Analyses the made program with so many functions of each kind, and runs the last of them.
pub fn trial(alloc: Global, count: u32) -> Result<Report, Refusal>
    ensures { Gives (OfShort which.Program (t.trial_text count)
        (OfSource Analysed.Program (t.trial_text count) (Tries Sound count))) result }
{
    match trial_source(alloc, count) {
        Ok(source) => try_source(alloc, source.as_bytes(), count),
        Err(_) => Err(Refusal::no_memory()),
    }
}

fn try_source(alloc: Global, source: &[u8], count: u32) -> Result<Report, Refusal>
    ensures { Gives (OfShort which.Program source.now (OfSource Analysed.Program source.now (Tries Sound count))) result }
{
    if source.len() as u64 > most_bytes(Which::Program) {
        return Err(Refusal::too_long(Which::Program));
    }
    match typed_program(alloc, Analysed::Program, source) {
        Ok(typed) => try_program(alloc, &typed, count),
        Err(refusal) => Err(refusal),
    }
}

fn try_program(alloc: Global, typed: &Typed, count: u32) -> Result<Report, Refusal>
    requires ready { IsReady (program_of typed.now) }
    ensures { Gives (Tries Sound count (program_of typed.now)) result }
{
    match normal_form(alloc, typed) {
        Ok(program) => try_course(alloc, typed, &program, count),
        Err(_) => Err(Refusal::no_memory()),
    }
}

fn try_course(
    alloc: Global,
    typed: &Typed,
    program: &NormProgram<'_>,
    count: u32,
) -> Result<Report, Refusal>
    requires ready { IsReady (program_of typed.now) }
    requires source { program.now.source ≡ typed.now }
    ensures { Gives (OfCourse Sound Analysed.Program (program_of typed.now) (program_in program.now) 1 rule.Least
        (λ c. TriesCall Sound count (program_of typed.now) (program_in program.now) c)) result }
{
    match analyse(alloc, Analysed::Program, program, 1, Rule::Least) {
        Ok(verified) => try_function(alloc, typed, &verified, count),
        Err(refusal) => Err(refusal),
    }
}

fn try_function(
    alloc: Global,
    typed: &Typed,
    verified: &Verified<'_, '_>,
    count: u32,
) -> Result<Report, Refusal>
    requires ready { IsReady (program_of typed.now) }
    requires source { verified.now.program.source ≡ typed.now }
    ensures { Gives (TriesCall Sound count (program_of typed.now) (program_in verified.now.program) verified.now.certificate) result }
{
    match trial_function(alloc, count) {
        Ok(name) => match typed.program().find(name.as_str()) {
            Some(place) => try_call(alloc, typed, verified, count, place),
            None => Err(Refusal::no_function()),
        },
        Err(_) => Err(Refusal::no_memory()),
    }
}

fn try_call(
    alloc: Global,
    typed: &Typed,
    verified: &Verified<'_, '_>,
    count: u32,
    place: FunId,
) -> Result<Report, Refusal>
    requires ready { IsReady (program_of typed.now) }
    requires source { verified.now.program.source ≡ typed.now }
    requires place { place.0 < length (program_of typed.now) }
    ensures { (f : Placed) → f.0 ≡ place.0 → slice_get (program_of typed.now) f.0 ≡ Some f.1 →
        Gives (OfArguments t.trial_data f.1
        (λ args. RunsTrial Sound count (program_of typed.now)
        (program_in verified.now.program) verified.now.certificate f args)) result }
{
    match read_arguments(alloc, typed, place, trial_data().as_bytes()) {
        Ok(args) => try_run(alloc, typed, verified, count, place, args),
        Err(refusal) => Err(refusal),
    }
}

fn try_run(
    alloc: Global,
    typed: &Typed,
    verified: &Verified<'_, '_>,
    count: u32,
    place: FunId,
    args: Arguments,
) -> Result<Report, Refusal>
    requires ready { IsReady (program_of typed.now) }
    requires source { verified.now.program.source ≡ typed.now }
    requires place { place.0 < length (program_of typed.now) }
    requires arguments { (f : Placed) × (vs : List Value) × (f.0 ≡ place.0)
        × HasArguments (program_of typed.now) f args.heap.cells args.words.items vs }
    ensures { (f : Placed) (vs : List Value) → f.0 ≡ place.0 → HasArguments (program_of typed.now) f args.heap.cells args.words.items vs →
        Gives (RunsTrial Sound count (program_of typed.now) (program_in verified.now.program) verified.now.certificate f vs) result }
{
    let limits = Limits {
        steps: 10_000_000,
        cells: 1_048_576,
    };
    match front_lines(alloc, typed, verified, count, place) {
        Ok(front) => match execute(alloc, typed, place, args.heap, args.words, limits) {
            Ok(report) => behind(front, report),
            Err(refusal) => Err(refusal),
        },
        Err(_) => Err(Refusal::no_memory()),
    }
}

// How many functions there are, and the lines of the one that runs.
fn front_lines(
    alloc: Global,
    typed: &Typed,
    verified: &Verified<'_, '_>,
    count: u32,
    place: FunId,
) -> Result<String, AllocError>
    requires source { verified.now.program.source ≡ typed.now }
    requires place { place.0 < length (program_of typed.now) }
    ensures { IfOk result (λ text. string_bytes text ≡ t.functions_line count
        ++ lines_text (program_of typed.now) (lines_of (program_in verified.now.program) verified.now.certificate place.0)) }
{
    let mut text = functions_line(alloc, count)?;
    let lines = function_lines(alloc, typed.program(), verified, place)?;
    text.push_str(lines.as_str())?;
    Ok(text)
}

// The report with lines in front of it.
fn behind(front: String, report: Report) -> Result<Report, Refusal>
    ensures text { IfOk result (λ made. made.text.items ≡ string_bytes front ++ report.text.items) }
    ensures status { IfOk result (λ made. made.status ≡ report.status) }
    ensures err { IfErr result IsWanting }
{
    let Report { text, status } = report;
    let mut whole = front.into_bytes();
    whole.extend_from_slice(&text)?;
    Ok(Report {
        text: whole,
        status,
    })
}
