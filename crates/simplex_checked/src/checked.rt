// Answers in whole numbers, checked.
ghost use Rattle.std.specs.Prelude.{◌≡◌, ◌<◌, ◌^◌, ◌++◌, pos, map, length, IfOk, IfErr, OnOk};
ghost use Rattle.linear_rows.specs.Systems.{ProvesLeast, Refutes};
ghost use Rattle.farkas_check.specs.Checks.{EachPasses, refuting, proving_least};
ghost use Rattle.simplex_spec.specs.Tableaux.{right};
ghost use Rattle.simplex_integers.specs.Wholes.{most};
ghost use Rattle.simplex_integers.specs.Denominators.{all_over};
ghost use Rattle.simplex_checked.specs.Wholes.{AreLeast, AreRefuting, HaveWholes, IsInWholes, IsLeastAnswer, LeastFails, IsVectorAnswer};
ghost use Rattle.simplex_checked.specs.Wholes.{RefutingFails, LeastCheckLeaves, VectorCheckLeaves};

use crate::answer::Answer;
use crate::fault::AnswerFault;
use crate::wholes::{common_denominator, numbers_over, own_denominator, own_numbers};
use farkas_check::{Verdict, least_quickly, refutes_quickly};
use frac128::Frac;
use linear_rows::System;
use simplex_integers::laws;
use std::alloc::{AllocError, Global};

/// The fractions of both, in one list.
fn joined(alloc: Global, first: &[Frac], second: &[Frac]) -> Result<Vec<Frac>, AllocError>
    ensures { IfOk result (λ all. all.items ≡ first.now ++ second.now) }
{
    let mut all = Vec::with_capacity(alloc, first.len() + second.len())?;
    all.extend_from_slice(first)?;
    all.extend_from_slice(second)?;
    Ok(all)
}

/// Checks a solution, which the dual one proves least.
fn check_least(
    alloc: Global,
    system: &System,
    x: &[i128],
    dual: &[i128],
    denominator: u128,
) -> Result<(), AnswerFault>
    requires fits { denominator < most }
    requires proves { ProvesLeast system.now x.now dual.now (pos denominator) }
    ensures passed { OnOk result (EachPasses (proving_least system.now x.now dual.now (pos denominator))) }
    ensures leaves { IfErr result (LeastCheckLeaves system.now x.now dual.now denominator) }
{
    match least_quickly(alloc, system, x, dual, denominator as i128) {
        Verdict::Yes => Ok(()),
        Verdict::No { .. } => unreachable!(),
        Verdict::Leaves { column } => Err(AnswerFault::Least { column }),
    }
}

/// Checks a vector, which refutes the system.
fn check_vector(alloc: Global, system: &System, y: &[i128]) -> Result<(), AnswerFault>
    requires { Refutes system.now y.now }
    ensures passed { OnOk result (EachPasses (refuting system.now y.now)) }
    ensures leaves { IfErr result (VectorCheckLeaves system.now y.now) }
{
    match refutes_quickly(alloc, system, y) {
        Verdict::Yes => Ok(()),
        Verdict::No { .. } => unreachable!(),
        Verdict::Leaves { column } => Err(AnswerFault::Refute { column }),
    }
}

/// The solution over its own least denominator. Where that is the denominator of both, these are its
/// numbers.
fn solution(
    alloc: Global,
    x: &[Frac],
    both: u128,
    over_both: Vec<i128>,
) -> Result<Answer, AllocError>
    requires wholes { HaveWholes x.now }
    requires numbers { over_both.items ≡ map pos (all_over both x.now) }
    ensures { IfOk result (IsInWholes x.now) }
{
    let denominator = own_denominator(x);
    let numbers = if denominator == both {
        over_both
    } else {
        own_numbers(alloc, x, denominator)?
    };
    Ok(Answer::Solution {
        denominator: denominator as i128,
        numbers,
    })
}

/// A least solution in whole numbers, checked.
pub(crate) fn checked_solution(
    alloc: Global,
    system: &System,
    x: &[Frac],
    dual: &[Frac],
) -> Result<Answer, AnswerFault>
    requires few { right system.now < 2 ^ 32 }
    requires least { AreLeast system.now x.now dual.now }
    ensures answer { IfOk result (IsLeastAnswer system.now x.now dual.now) }
    ensures fault { IfErr result (LeastFails system.now x.now dual.now) }
{
    laws::least_denominators();
    let both = joined(alloc, x, dual)?;
    let denominator = common_denominator(&both)?;
    let mut numbers = numbers_over(alloc, &both, denominator)?;
    let (primal_numbers, dual_numbers) = numbers.split_at(x.len());
    check_least(alloc, system, primal_numbers, dual_numbers, denominator)?;
    numbers.truncate(x.len());
    Ok(solution(alloc, x, denominator, numbers)?)
}

/// A vector that refutes the system, in whole numbers, checked.
pub(crate) fn checked_vector(
    alloc: Global,
    system: &System,
    y: &[Frac],
) -> Result<Answer, AnswerFault>
    requires few { right system.now < 2 ^ 32 }
    requires refuting { AreRefuting system.now y.now }
    ensures answer { IfOk result (IsVectorAnswer system.now y.now) }
    ensures fault { IfErr result (RefutingFails system.now y.now) }
{
    laws::least_denominators();
    let denominator = common_denominator(y)?;
    let numbers = numbers_over(alloc, y, denominator)?;
    check_vector(alloc, system, &numbers)?;
    Ok(Answer::Vector { numbers })
}
