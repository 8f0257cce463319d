// Bounds that a file declares.
ghost use Rattle.std.specs.Prelude.{◌≡◌, ◌≤◌, ◌<◌, ◌^◌, ℕ, true, length, IfOk, IfErr};
ghost use Rattle.raml_syntax.specs.Tree.{Text};
ghost use Rattle.raml_syntax.specs.Read.{program_of};
ghost use Rattle.rules_plan.specs.Read.{program_in};
ghost use Rattle.annot_types.specs.Certificate.{has_work};
ghost use Rattle.bound_file.specs.Lines.{Line};
ghost use Rattle.bound_file.specs.Answers.{AreWithin};
ghost use Rattle.bound_contract.specs.Asked.{MayBeAsked};
ghost use Rattle.share_normal.specs.Program.{source_in};
ghost use Rattle.bound_infer.specs.Inferred.{IsInferred};
ghost use Rattle.raml_words.specs.declared.request.Rule.TheVariants as rule;
ghost use Rattle.refusals.specs.Line.{no_names};
ghost use Rattle.raml_promise.specs.Outside.{Sound, store_of};
ghost use Rattle.raml_promise.specs.Steps.{OfNormal};
ghost use Rattle.raml_promise.specs.Analysis.{analysis, IsProved, OfCourse};
ghost use Rattle.raml_promise.specs.DeclaredBounds.{PrintsVerdicts};
ghost use Rattle.raml_promise.specs.Promise.{ChecksBounds};
ghost use Rattle.raml_parts.specs.Parts.{Before, IsReady, Gives, Refuses, AreBounds, BoundsFileRefuses, VerdictRefusal};

use bound_file::{DeclError, Declared, read};
use bound_infer::Verified;
use contract_report::{VerdictsFault, verdict_lines};
use infer_spec::laws::courses_stay_within;
use infer_systems_laws::laws::{normals_are_ordered, systems_generate};
use normal_program::normal_form;
use raml_io::Store;
use raml_parts::{analyse, read_file};
use raml_words::Rule;
use refusal_text::{Analysed, Which};
use refusals::{Refusal, Report, bounds_refusal, declared_leaves, declared_too_large};
use share_normal::NormProgram;
use simple_types::Typed;
use std::alloc::Global;

/// The bounds that a file declares for a program, at a degree.
fn read_bounds<S: Store>(
    alloc: Global,
    store: &mut S,
    typed: &Typed,
    file: &str,
    degree: u8,
) -> Result<Declared, Refusal>
    requires ready { IsReady (program_of typed.now) }
    requires most_degree { degree ≤ 4 }
    ensures ok { (before : Text → ℕ) →
        IfOk result (λ declared. AreBounds
        (store_of (S.holds store.old) before (S.faults store.new)) file.now (program_of typed.now) degree declared) }
    ensures degree { IfOk result (λ declared. declared.degree ≡ degree) }
    ensures few { IfOk result (λ declared. length declared.lines < 2 ^ 31) }
    ensures within { IfOk result (AreWithin (program_of typed.now)) }
    ensures err { (before : Text → ℕ) → Before before (S.faults store.old) →
        IfErr result (Refuses no_names
        (BoundsFileRefuses (store_of (S.holds store.old) before (S.faults store.new)) file.now (program_of typed.now) degree)) }
    ensures kept { S.holds store.new ≡ S.holds store.old }
    ensures later { (other : Text) → S.faults store.old other ≤ S.faults store.new other }
{
    match read_file(alloc, store, file, Which::Bounds) {
        Ok(bytes) => match read(alloc, &bytes, typed.program(), degree) {
            Ok(declared) => Ok(declared),
            Err(DeclError::Fault(fault)) => Err(bounds_refusal(alloc, fault)),
            Err(DeclError::NoMemory) => Err(Refusal::no_memory()),
        },
        Err(refusal) => Err(refusal),
    }
}

/// Whether the program keeps the bounds that a file declares, line by line.
pub fn bound_verdicts<S: Store>(
    alloc: Global,
    store: &mut S,
    typed: &Typed,
    file: &str,
    degree: u8,
) -> Result<Report, Refusal>
    requires ready { IsReady (program_of typed.now) }
    requires least_degree { 1 ≤ degree }
    requires most_degree { degree ≤ 4 }
    ensures gives { (before : Text → ℕ) → Before before (S.faults store.old) →
        Gives (ChecksBounds Sound
        (store_of (S.holds store.old) before (S.faults store.new)) file.now degree (program_of typed.now)) result }
    ensures kept { S.holds store.new ≡ S.holds store.old }
    ensures later { (other : Text) → S.faults store.old other ≤ S.faults store.new other }
{
    match read_bounds(alloc, store, typed, file, degree) {
        Ok(declared) => verdicts(alloc, typed, &declared, degree),
        Err(refusal) => Err(refusal),
    }
}

fn verdicts(
    alloc: Global,
    typed: &Typed,
    declared: &Declared,
    degree: u8,
) -> Result<Report, Refusal>
    requires ready { IsReady (program_of typed.now) }
    requires degree { declared.now.degree ≡ degree }
    requires few { length declared.now.lines < 2 ^ 31 }
    requires within { AreWithin (program_of typed.now) declared.now }
    requires least_degree { 1 ≤ degree }
    requires most_degree { degree ≤ 4 }
    ensures { Gives (OfNormal (program_of typed.now) (λ N. OfCourse Sound Analysed.Program (program_of typed.now) N degree rule.Least
        (PrintsVerdicts Sound (program_of typed.now) N declared.now.lines))) result }
{
    match normal_form(alloc, typed) {
        Ok(program) => course_verdicts(alloc, &program, declared, degree),
        Err(_) => Err(Refusal::no_memory()),
    }
}

fn course_verdicts(
    alloc: Global,
    program: &NormProgram<'_>,
    declared: &Declared,
    degree: u8,
) -> Result<Report, Refusal>
    requires degree { declared.now.degree ≡ degree }
    requires few { length declared.now.lines < 2 ^ 31 }
    requires within { AreWithin (source_in program.now) declared.now }
    requires least_degree { 1 ≤ degree }
    requires most_degree { degree ≤ 4 }
    ensures { Gives (OfCourse Sound Analysed.Program (source_in program.now) (program_in program.now) degree rule.Least
        (PrintsVerdicts Sound (source_in program.now) (program_in program.now) declared.now.lines)) result }
{
    match analyse(alloc, Analysed::Program, program, degree, Rule::Least) {
        Ok(verified) => verdict_report(alloc, program, &verified, declared, degree),
        Err(refusal) => Err(refusal),
    }
}

// What the course of an analysis gives to the decision of declared bounds: each may be asked for.
fn may_be_asked(program: &NormProgram<'_>, verified: &Verified<'_, '_>, degree: u8)
    requires program { verified.now.program ≡ program.now }
    requires course { IsInferred (analysis (program_in program.now) degree rule.Least) verified.now.certificate }
    ensures work { has_work verified.now.certificate ≡ true }
    ensures degree { verified.now.certificate.degree ≡ degree }
    ensures asked { (line : Line) → line.fun < length (source_in program.now) → MayBeAsked verified.now line }
{
    systems_generate();
    normals_are_ordered();
    courses_stay_within();
    let _source = program.source();
    let _groups = program.groups();
    let _functions = program.functions();
}

fn verdict_report(
    alloc: Global,
    program: &NormProgram<'_>,
    verified: &Verified<'_, '_>,
    declared: &Declared,
    degree: u8,
) -> Result<Report, Refusal>
    requires program { verified.now.program ≡ program.now }
    requires course { IsInferred (analysis (program_in program.now) degree rule.Least) verified.now.certificate }
    requires degree { declared.now.degree ≡ degree }
    requires few { length declared.now.lines < 2 ^ 31 }
    requires within { AreWithin (source_in program.now) declared.now }
    ensures { Gives (PrintsVerdicts Sound (source_in program.now)
        (program_in program.now) declared.now.lines verified.now.certificate) result }
{
    may_be_asked(program, verified, degree);
    match verdict_lines(alloc, verified.checked(), declared) {
        Ok(text) => Ok(Report::done(text)),
        Err(fault) => Err(verdicts_refusal(alloc, fault)),
    }
}

fn verdicts_refusal(alloc: Global, fault: VerdictsFault) -> Refusal
    ensures { VerdictRefusal fault result }
{
    match fault {
        VerdictsFault::TooLarge { line } => declared_too_large(alloc, line),
        VerdictsFault::Leaves { line } => declared_leaves(alloc, line),
        VerdictsFault::NoMemory => Refusal::no_memory(),
    }
}
