// The analysis of a program.
ghost use Rattle.std.specs.Prelude.{◌≡◌, ◌≤◌, IfOk, IfErr};
ghost use Rattle.infer_spec.specs.Good.{AllLeast};
ghost use Rattle.infer_systems_laws.specs.Analysed.{analysis_of};
ghost use Rattle.share_normal.specs.Program.{source_in};
ghost use Rattle.rules_plan.specs.Read.{program_in};
ghost use Rattle.simplex_checked.specs.Rules.{least_pick, greatest_pick};
ghost use Rattle.bound_infer.specs.Inferred.{IsInferred, InferCause};
ghost use Rattle.refusals.specs.Refusals.{names_in};
ghost use Rattle.raml_promise.specs.Analysis.{analysis, CourseRefuses, IsProved};
ghost use Rattle.raml_promise.specs.Steps.{RefusedOf};
ghost use Rattle.raml_parts.specs.Parts.{Refuses};

use bound_infer::{InferFault, Verified, infer};
use frac128::Frac;
use infer_spec::laws::lines_tell;
use raml_words::Rule;
use refusal_text::Analysed;
use refusals::{Refusal, course_refusal};
use rules_soundness_laws::laws::lines_are_true;
use share_normal::NormProgram;
use simplex::Chooser;
use simplex_checked::{greatest_column, least_column};
use std::alloc::Global;

/// The certificate of the course of its analysis, by the rule.
pub fn analyse<'p, 'a>(
    alloc: Global,
    whose: Analysed,
    program: &'p NormProgram<'a>,
    degree: u8,
    rule: Rule,
) -> Result<Verified<'p, 'a>, Refusal>
    requires least_degree { 1 ≤ degree }
    requires most_degree { degree ≤ 4 }
    ensures program { IfOk result (λ verified. verified.program ≡ program.now) }
    ensures course { IfOk result (λ verified. IsInferred (analysis (program_in program.now) degree rule) verified.certificate) }
    ensures least { IfOk result (λ verified. AllLeast (program_in program.now) verified.certificate) }
    ensures proved { IfOk result (λ verified. IsProved (source_in program.now) (program_in program.now) verified.certificate) }
    ensures err { IfErr result
        (Refuses (names_in program.now) (RefusedOf whose (CourseRefuses (analysis (program_in program.now) degree rule)))) }
{
    match by_rule(alloc, program, degree, rule) {
        Ok(verified) => {
            proved(program, &verified);
            Ok(verified)
        }
        Err(fault) => Err(course_refusal(alloc, whose, program, fault)),
    }
}

fn by_rule<'p, 'a>(
    alloc: Global,
    program: &'p NormProgram<'a>,
    degree: u8,
    rule: Rule,
) -> Result<Verified<'p, 'a>, InferFault>
    requires least_degree { 1 ≤ degree }
    requires most_degree { degree ≤ 4 }
    ensures program { IfOk result (λ verified. verified.program ≡ program.now) }
    ensures course { IfOk result (λ verified. IsInferred (analysis (program_in program.now) degree rule) verified.certificate) }
    ensures least { IfOk result (λ verified. AllLeast (program_in program.now) verified.certificate) }
    ensures fault { IfErr result (InferCause (analysis (program_in program.now) degree rule)) }
{
    match rule {
        Rule::Least => by_least(alloc, program, degree),
        Rule::Greatest => by_greatest(alloc, program, degree),
    }
}

/// What is proved of each certificate that was verified.
pub fn proved(program: &NormProgram<'_>, verified: &Verified<'_, '_>)
    requires { verified.now.program ≡ program.now }
    ensures { IsProved (source_in program.now) (program_in program.now) verified.now.certificate }
{
    lines_are_true();
    lines_tell();
    let _source = program.source();
    let _groups = program.groups();
    let _functions = program.functions();
    let _certificate = verified.certificate();
}

// The least column of positive gain enters.
fn by_least<'p, 'a>(
    alloc: Global,
    program: &'p NormProgram<'a>,
    degree: u8,
) -> Result<Verified<'p, 'a>, InferFault>
    requires least_degree { 1 ≤ degree }
    requires most_degree { degree ≤ 4 }
    ensures program { IfOk result (λ verified. verified.program ≡ program.now) }
    ensures course { IfOk result (λ verified. IsInferred (analysis_of (program_in program.now) degree least_pick) verified.certificate) }
    ensures least { IfOk result (λ verified. AllLeast (program_in program.now) verified.certificate) }
    ensures fault { IfErr result (InferCause (analysis_of (program_in program.now) degree least_pick)) }
{
    let chooser = Chooser::new(|gains: &[Frac]| least_column(gains));
    infer(alloc, program, degree, &chooser)
}

// The least of the columns with the greatest gain enters.
fn by_greatest<'p, 'a>(
    alloc: Global,
    program: &'p NormProgram<'a>,
    degree: u8,
) -> Result<Verified<'p, 'a>, InferFault>
    requires least_degree { 1 ≤ degree }
    requires most_degree { degree ≤ 4 }
    ensures program { IfOk result (λ verified. verified.program ≡ program.now) }
    ensures course { IfOk result (λ verified. IsInferred (analysis_of (program_in program.now) degree greatest_pick) verified.certificate) }
    ensures least { IfOk result (λ verified. AllLeast (program_in program.now) verified.certificate) }
    ensures fault { IfErr result (InferCause (analysis_of (program_in program.now) degree greatest_pick)) }
{
    let chooser = Chooser::new(|gains: &[Frac]| greatest_column(gains));
    infer(alloc, program, degree, &chooser)
}
