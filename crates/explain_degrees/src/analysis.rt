// The analysis at one degree.
ghost use Rattle.std.specs.Prelude.{◌≡◌, ◌≤◌, IfOk, IfErr, IfSome, IfNone};
ghost use Rattle.rules_plan.specs.Read.{program_in};
ghost use Rattle.bound_infer.specs.Inferred.{IsInferred, InferCause};
ghost use Rattle.bound_infer.specs.Pivots.{EndsWithin, IsGivenUp};
ghost use Rattle.explain_degrees.specs.Degrees.{analysis_at};

use bound_infer::{InferFault, Verified, infer, infer_within};
use frac128::Frac;
use share_normal::NormProgram;
use simplex::Chooser;
use simplex_checked::least_column;
use std::alloc::Global;

/// The analysis of a program at a degree, by the rule that `raml analyse` takes where none is told: the least
/// column of positive gain enters.
pub fn analyse<'p, 'a>(
    alloc: Global,
    program: &'p NormProgram<'a>,
    degree: u8,
) -> Result<Verified<'p, 'a>, InferFault>
    requires least_degree { 1 ≤ degree }
    requires most_degree { degree ≤ 4 }
    ensures program { IfOk result (λ verified. verified.program ≡ program.now) }
    ensures course { IfOk result (λ verified. IsInferred (analysis_at (program_in program.now) degree) verified.certificate) }
    ensures fault { IfErr result (InferCause (analysis_at (program_in program.now) degree)) }
{
    let chooser = Chooser::new(|gains: &[Frac]| least_column(gains));
    infer(alloc, program, degree, &chooser)
}

/// The same analysis with no more pivots in all than the budget, if there is one; None where it takes more.
pub fn analyse_within<'p, 'a>(
    alloc: Global,
    program: &'p NormProgram<'a>,
    degree: u8,
    budget: Option<usize>,
) -> Result<Option<Verified<'p, 'a>>, InferFault>
    requires least_degree { 1 ≤ degree }
    requires most_degree { degree ≤ 4 }
    ensures program { IfOk result (λ found. IfSome found (λ verified. verified.program ≡ program.now)) }
    ensures course { IfOk result (λ found. IfSome found
        (λ verified. IsInferred (analysis_at (program_in program.now) degree) verified.certificate)) }
    ensures enough { IfOk result (λ found. IfSome found (λ verified. EndsWithin (analysis_at (program_in program.now) degree) budget)) }
    ensures given_up { IfOk result (λ found. IfNone found (IsGivenUp (analysis_at (program_in program.now) degree) budget)) }
    ensures fault { IfErr result (InferCause (analysis_at (program_in program.now) degree)) }
{
    let chooser = Chooser::new(|gains: &[Frac]| least_column(gains));
    infer_within(alloc, program, degree, &chooser, budget)
}
