// Bounds of a program beside those of another.
ghost use Rattle.std.specs.Prelude.{◌≡◌, ◌≤◌, ℕ, true};
ghost use Rattle.raml_syntax.specs.Tree.{Text};
ghost use Rattle.raml_syntax.specs.Read.{program_of};
ghost use Rattle.rules_plan.specs.Read.{program_in};
ghost use Rattle.share_normal.specs.Program.{source_in};
ghost use Rattle.annot_types.specs.Certificate.{has_work};
ghost use Rattle.raml_words.specs.declared.request.Rule.TheVariants as rule;
ghost use Rattle.analysis_report.specs.Comparison.{AreComparisons};
ghost use Rattle.raml_promise.specs.Outside.{Sound, store_of};
ghost use Rattle.raml_promise.specs.Steps.{Prints, OfProgram};
ghost use Rattle.raml_promise.specs.Analysis.{OfCourse};
ghost use Rattle.raml_promise.specs.Promise.{Compares, ComparesWith};
ghost use Rattle.raml_parts.specs.Parts.{Before, IsReady, Gives};

use analysis_report::comparison_lines;
use bound_infer::Verified;
use normal_program::normal_form;
use raml_io::Store;
use raml_parts::{analyse, read_program};
use raml_words::Rule;
use refusal_text::Analysed;
use refusals::{Refusal, Report};
use share_normal::NormProgram;
use simple_types::Typed;
use std::alloc::Global;

/// How the bounds of a program stand to those of the program in a file.
pub fn comparison<S: Store>(
    alloc: Global,
    store: &mut S,
    typed: &Typed,
    file: &str,
    degree: u8,
) -> Result<Report, Refusal>
    requires ready { IsReady (program_of typed.now) }
    requires least_degree { 1 ≤ degree }
    requires most_degree { degree ≤ 4 }
    ensures gives { (before : Text → ℕ) → Before before (S.faults store.old) →
        Gives (Compares Sound (store_of (S.holds store.old) before (S.faults store.new)) file.now degree (program_of typed.now)) result }
    ensures kept { S.holds store.new ≡ S.holds store.old }
    ensures later { (other : Text) → S.faults store.old other ≤ S.faults store.new other }
{
    match normal_form(alloc, typed) {
        Ok(program) => course_beside(alloc, store, &program, file, degree),
        Err(_) => Err(Refusal::no_memory()),
    }
}

// The program is analysed before the other one is read.
fn course_beside<S: Store>(
    alloc: Global,
    store: &mut S,
    program: &NormProgram<'_>,
    file: &str,
    degree: u8,
) -> Result<Report, Refusal>
    requires least_degree { 1 ≤ degree }
    requires most_degree { degree ≤ 4 }
    ensures gives { (before : Text → ℕ) → Before before (S.faults store.old) →
        Gives (OfCourse Sound Analysed.Program (source_in program.now) (program_in program.now) degree rule.Least (λ c.
        OfProgram Sound (store_of (S.holds store.old) before (S.faults store.new)) Analysed.Other file.now
        (ComparesWith Sound degree (source_in program.now) (program_in program.now) c))) result }
    ensures kept { S.holds store.new ≡ S.holds store.old }
    ensures later { (other : Text) → S.faults store.old other ≤ S.faults store.new other }
{
    match analyse(alloc, Analysed::Program, program, degree, Rule::Least) {
        Ok(verified) => verified_beside(alloc, store, program, &verified, file, degree),
        Err(refusal) => Err(refusal),
    }
}

fn verified_beside<S: Store>(
    alloc: Global,
    store: &mut S,
    program: &NormProgram<'_>,
    verified: &Verified<'_, '_>,
    file: &str,
    degree: u8,
) -> Result<Report, Refusal>
    requires program { verified.now.program ≡ program.now }
    requires work { has_work verified.now.certificate ≡ true }
    requires least_degree { 1 ≤ degree }
    requires most_degree { degree ≤ 4 }
    ensures gives { (before : Text → ℕ) → Before before (S.faults store.old) →
        Gives (OfProgram Sound (store_of (S.holds store.old) before (S.faults store.new)) Analysed.Other file.now
        (ComparesWith Sound degree (source_in program.now) (program_in program.now) verified.now.certificate)) result }
    ensures kept { S.holds store.new ≡ S.holds store.old }
    ensures later { (other : Text) → S.faults store.old other ≤ S.faults store.new other }
{
    match read_program(alloc, store, Analysed::Other, file) {
        Ok(other) => compare_with(alloc, program, verified, &other, degree),
        Err(refusal) => Err(refusal),
    }
}

fn compare_with(
    alloc: Global,
    program: &NormProgram<'_>,
    verified: &Verified<'_, '_>,
    other: &Typed,
    degree: u8,
) -> Result<Report, Refusal>
    requires program { verified.now.program ≡ program.now }
    requires work { has_work verified.now.certificate ≡ true }
    requires ready { IsReady (program_of other.now) }
    requires least_degree { 1 ≤ degree }
    requires most_degree { degree ≤ 4 }
    ensures { Gives (ComparesWith Sound degree (source_in program.now)
        (program_in program.now) verified.now.certificate (program_of other.now)) result }
{
    match normal_form(alloc, other) {
        Ok(other) => compare_courses(alloc, program, verified, &other, degree),
        Err(_) => Err(Refusal::no_memory()),
    }
}

fn compare_courses(
    alloc: Global,
    program: &NormProgram<'_>,
    verified: &Verified<'_, '_>,
    other: &NormProgram<'_>,
    degree: u8,
) -> Result<Report, Refusal>
    requires program { verified.now.program ≡ program.now }
    requires work { has_work verified.now.certificate ≡ true }
    requires least_degree { 1 ≤ degree }
    requires most_degree { degree ≤ 4 }
    ensures { Gives (OfCourse Sound Analysed.Other (source_in other.now) (program_in other.now) degree rule.Least (λ e.
        Prints Sound (AreComparisons (source_in program.now) (program_in program.now) verified.now.certificate
        (source_in other.now) (program_in other.now) e))) result }
{
    match analyse(alloc, Analysed::Other, other, degree, Rule::Least) {
        Ok(found) => comparison_report(alloc, program, verified, other, &found),
        Err(refusal) => Err(refusal),
    }
}

fn comparison_report(
    alloc: Global,
    program: &NormProgram<'_>,
    verified: &Verified<'_, '_>,
    other: &NormProgram<'_>,
    found: &Verified<'_, '_>,
) -> Result<Report, Refusal>
    requires program { verified.now.program ≡ program.now }
    requires work { has_work verified.now.certificate ≡ true }
    requires other_program { found.now.program ≡ other.now }
    requires other_work { has_work found.now.certificate ≡ true }
    ensures { Gives (Prints Sound (AreComparisons (source_in program.now) (program_in program.now) verified.now.certificate
        (source_in other.now) (program_in other.now) found.now.certificate)) result }
{
    match comparison_lines(alloc, program, verified, other, found) {
        Ok(text) => Ok(Report::done(text)),
        Err(_) => Err(Refusal::no_memory()),
    }
}
