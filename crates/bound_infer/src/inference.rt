// The inference of bounds.
ghost use Rattle.std.specs.Prelude.{◌≡◌, ◌≤◌, ℕ, ℤ, List, Option, IfOk, IfErr, IfSome, IfNone};
ghost use Rattle.simplex.specs.Choosing.{IsChooser};
ghost use Rattle.simplex.specs.Solving.{UpTo};
ghost use Rattle.simplex_checked.specs.Choosing.{AnswersBy, AnswersByOne};
ghost use Rattle.infer_spec.specs.Good.{AllLeast};
ghost use Rattle.infer_systems_laws.specs.Analysed.{analysis_of};
ghost use Rattle.rules_plan.specs.Read.{program_in};
ghost use Rattle.infer_systems_laws.specs.Tried.{IsOrdered};
ghost use Rattle.bound_infer.specs.Inferred.{IsInferred, InferCause};
ghost use Rattle.bound_infer.specs.Pivots.{left, EndsWithin, IsGivenUp};

use crate::cursor::Inference;
use crate::progress::Progress;
use crate::refusal::InferFault;
use crate::verified::Verified;
use frac128::Frac;
use infer_systems_laws::laws::normals_are_ordered;
use share_normal::NormProgram;
use simplex::Chooser;
use std::alloc::Global;

/// The program is ordered.
pub(crate) fn ordered(program: &NormProgram<'_>)
    ensures { IsOrdered (program_in program.now) }
{
    normals_are_ordered();
    let _source = program.source();
    let _groups = program.groups();
    let _functions = program.functions();
}

// What is left of a budget, if there is one, after so many pivots.
fn left(budget: Option<usize>, pivots: usize) -> Option<usize>
    requires { UpTo budget pivots }
    ensures { result ≡ left budget pivots }
{
    match budget {
        Some(budget) => Some(budget - pivots),
        None => None,
    }
}

/// Tries each task of the schedule of degree `d` with at most so many pivots in all, where there is a budget, with
/// the chooser's rule of the entering column: the certificate of the course, whose solved blocks are least, or
/// None where a task takes more pivots than are left. Otherwise the first place at which the course stops is told.
pub fn infer_within<'p, 'a, F: Fn(&[Frac]) -> Option<usize>>(
    alloc: Global,
    program: &'p NormProgram<'a>,
    d: u8,
    chooser: &Chooser<F>,
    budget: Option<usize>,
) -> Result<Option<Verified<'p, 'a>>, InferFault>
    requires least_degree { 1 ≤ d }
    requires most_degree { d ≤ 4 }
    requires callable { F.IsAlwaysCallable chooser.now }
    requires chooses { IsChooser F.Fn chooser.now }
    requires answers { AnswersByOne F.Fn chooser.now }
    ensures program { IfOk result (λ found. IfSome found (λ verified. verified.program ≡ program.now)) }
    ensures course { IfOk result (λ found. IfSome found (λ verified. (pick : List ℤ → ℤ → Option ℕ) → AnswersBy F.Fn chooser.now pick →
        IsInferred (analysis_of (program_in program.now) d pick) verified.certificate)) }
    ensures least { IfOk result (λ found. IfSome found (λ verified. AllLeast (program_in program.now) verified.certificate)) }
    ensures enough { IfOk result (λ found. IfSome found (λ verified. (pick : List ℤ → ℤ → Option ℕ) → AnswersBy F.Fn chooser.now pick →
        EndsWithin (analysis_of (program_in program.now) d pick) budget)) }
    ensures given_up { IfOk result (λ found. IfNone found ((pick : List ℤ → ℤ → Option ℕ) → AnswersBy F.Fn chooser.now pick →
        IsGivenUp (analysis_of (program_in program.now) d pick) budget)) }
    ensures fault { IfErr result (λ fault. (pick : List ℤ → ℤ → Option ℕ) → AnswersBy F.Fn chooser.now pick →
        InferCause (analysis_of (program_in program.now) d pick) fault) }
{
    let Ok(mut inference) = Inference::new(alloc, program, d, chooser) else {
        return Err(InferFault::NoMemory);
    };
    let mut rest = budget;
    loop {
        match inference.step(rest)? {
            Progress::Advanced { pivots } => rest = left(rest, pivots),
            Progress::Ended => return Ok(Some(inference.finish()?)),
            Progress::Cut => return Ok(None),
        }
    }
}

/// Tries each task of the schedule of degree `d`, for ticks, cells and work, with the chooser's rule of the
/// entering column: the certificate of the course, whose solved blocks are least. Otherwise the first place
/// at which the course stops is told.
pub fn infer<'p, 'a, F: Fn(&[Frac]) -> Option<usize>>(
    alloc: Global,
    program: &'p NormProgram<'a>,
    d: u8,
    chooser: &Chooser<F>,
) -> Result<Verified<'p, 'a>, InferFault>
    requires least_degree { 1 ≤ d }
    requires most_degree { d ≤ 4 }
    requires callable { F.IsAlwaysCallable chooser.now }
    requires chooses { IsChooser F.Fn chooser.now }
    requires answers { AnswersByOne F.Fn chooser.now }
    ensures program { IfOk result (λ verified. verified.program ≡ program.now) }
    ensures course { IfOk result (λ verified. (pick : List ℤ → ℤ → Option ℕ) → AnswersBy F.Fn chooser.now pick →
        IsInferred (analysis_of (program_in program.now) d pick) verified.certificate) }
    ensures least { IfOk result (λ verified. AllLeast (program_in program.now) verified.certificate) }
    ensures fault { IfErr result (λ fault. (pick : List ℤ → ℤ → Option ℕ) → AnswersBy F.Fn chooser.now pick →
        InferCause (analysis_of (program_in program.now) d pick) fault) }
{
    match infer_within(alloc, program, d, chooser, None)? {
        Some(verified) => Ok(verified),
        None => unreachable!(),
    }
}
