// Systems solved, and the answers checked.
ghost use Rattle.std.specs.Prelude.{◌≡◌, ◌<◌, ◌^◌, ◌↔◌, ℕ, ℤ, List, Option, None, length, IfOk, IfErr};
ghost use Rattle.simplex_spec.specs.Tableaux.{right};
ghost use Rattle.simplex_spec.specs.Courses.{AnswersOnce, rule_by};
ghost use Rattle.simplex.specs.Choosing.{IsChooser};
ghost use Rattle.simplex.specs.Solving.{rule_of, CutsBy};
ghost use Rattle.simplex_checked.specs.Choosing.{AnswersBy};
ghost use Rattle.simplex_checked.specs.Wholes.{EntryIsRefused, IsInOwn};
ghost use Rattle.simplex_checked.specs.Outcomes.{IsOutcome, IsNone, NoOutcome};
ghost use Rattle.simplex_checked.specs.Answers.{IsAnswer, Stops};
ghost use Rattle.simplex_checked.specs.Limits.{IsWithin, SaysCut};
ghost use Rattle.simplex_checked.specs.Alone.{IsAlone, StopsAlone};

use crate::answer::{Answer, Within};
use crate::checked::{checked_solution, checked_vector};
use crate::fault::AnswerFault;
use crate::wholes::{common_denominator, numbers_over};
use frac128::Frac;
use linear_rows::System;
use simplex::{Answer as Solved, Chooser, Within as Solving, solve_within};
use simplex_integers::laws;
use std::alloc::Global;

/// What solving with a limit comes to: a solution with the dual one that proves it least, a vector that
/// refutes the system, which is an answer already, or nothing within the limit.
#[derive(Drop)]
enum Outcome {
    Solution {
        x: Vec<Frac>,
        dual: Vec<Frac>,
        pivots: usize,
    },
    Refuted {
        answer: Answer,
        pivots: usize,
    },
    Cut,
}

/// Solves a system with at most so many pivots. A vector that refutes it is taken to whole numbers and checked.
fn outcome_of<F: Fn(&[Frac]) -> Option<usize>>(
    alloc: Global,
    system: &System,
    chooser: &Chooser<F>,
    most: Option<usize>,
) -> Result<Outcome, AnswerFault>
    requires callable { F.IsAlwaysCallable chooser.now }
    requires chooses { IsChooser F.Fn chooser.now }
    requires fits { right system.now < 2 ^ 32 }
    ensures outcome { IfOk result (IsOutcome (rule_of F.Fn chooser.now) system.now most) }
    ensures cut { IfOk result
        (λ outcome. AnswersOnce (rule_of F.Fn chooser.now) → (IsNone outcome ↔ CutsBy (rule_of F.Fn chooser.now) system.now most)) }
    ensures never { most ≡ None → IfOk result (λ outcome. IsNone outcome → ⊥) }
    ensures fault { IfErr result (NoOutcome (rule_of F.Fn chooser.now) system.now) }
{
    match solve_within(alloc, system, chooser, most)? {
        Solving::Answered(Solved::Best { x, dual, pivots }) => Ok(Outcome::Solution {
            x,
            dual,
            pivots: pivots.len(),
        }),
        Solving::Answered(Solved::NoSolution { farkas, pivots }) => {
            let answer = checked_vector(alloc, system, &farkas)?;
            Ok(Outcome::Refuted {
                answer,
                pivots: pivots.len(),
            })
        }
        Solving::Answered(Solved::Leaves { pivots, row, col }) => Err(AnswerFault::Solve {
            pivots,
            row,
            column: col,
        }),
        Solving::Cut { .. } => Ok(Outcome::Cut),
    }
}

/// A solution over its own least denominator.
fn in_own(alloc: Global, x: &[Frac]) -> Result<Answer, AnswerFault>
    requires { length x.now < 2 ^ 32 }
    ensures answer { IfOk result (IsInOwn x.now) }
    ensures fault { IfErr result (EntryIsRefused x.now) }
{
    let denominator = common_denominator(x)?;
    let numbers = numbers_over(alloc, x, denominator)?;
    Ok(Answer::Solution {
        denominator: denominator as i128,
        numbers,
    })
}

/// The least solution of a system, or a vector that refutes it, in whole numbers, with at most so many pivots;
/// or that these are too few. What proves the answer was checked. Without a limit it is never cut.
pub fn whole_answer_within<F: Fn(&[Frac]) -> Option<usize>>(
    alloc: Global,
    system: &System,
    chooser: &Chooser<F>,
    most: Option<usize>,
) -> Result<Within, AnswerFault>
    requires callable { F.IsAlwaysCallable chooser.now }
    requires chooses { IsChooser F.Fn chooser.now }
    requires fits { right system.now < 2 ^ 32 }
    ensures within { IfOk result
        (λ within. (pick : List ℤ → ℤ → Option ℕ) → AnswersBy F.Fn chooser.now pick → IsWithin (rule_by pick) system.now most within) }
    ensures cut { IfOk result
        (λ within. (pick : List ℤ → ℤ → Option ℕ) → AnswersBy F.Fn chooser.now pick →
        (SaysCut within ↔ CutsBy (rule_by pick) system.now most)) }
    ensures never { most ≡ None → IfOk result (λ within. SaysCut within → ⊥) }
    ensures fault { IfErr result
        (λ fault. (pick : List ℤ → ℤ → Option ℕ) → AnswersBy F.Fn chooser.now pick → Stops (rule_by pick) system.now fault) }
{
    laws::least_denominators();
    laws::refused_entries_leave();
    let _rows = system.rows();
    match outcome_of(alloc, system, chooser, most)? {
        Outcome::Solution { x, dual, pivots } => {
            let answer = checked_solution(alloc, system, &x, &dual)?;
            Ok(Within::Answered { answer, pivots })
        }
        Outcome::Refuted { answer, pivots } => Ok(Within::Answered { answer, pivots }),
        Outcome::Cut => Ok(Within::Cut),
    }
}

/// The least solution of a system, or a vector that refutes it, in whole numbers. What proves it was
/// checked.
pub fn whole_answer<F: Fn(&[Frac]) -> Option<usize>>(
    alloc: Global,
    system: &System,
    chooser: &Chooser<F>,
) -> Result<Answer, AnswerFault>
    requires callable { F.IsAlwaysCallable chooser.now }
    requires chooses { IsChooser F.Fn chooser.now }
    requires fits { right system.now < 2 ^ 32 }
    ensures answer { IfOk result
        (λ answer. (pick : List ℤ → ℤ → Option ℕ) → AnswersBy F.Fn chooser.now pick → IsAnswer (rule_by pick) system.now answer) }
    ensures fault { IfErr result
        (λ fault. (pick : List ℤ → ℤ → Option ℕ) → AnswersBy F.Fn chooser.now pick → Stops (rule_by pick) system.now fault) }
{
    match whole_answer_within(alloc, system, chooser, None)? {
        Within::Answered { answer, .. } => Ok(answer),
        Within::Cut => unreachable!(),
    }
}

/// A solution of a system over its least denominator, or a vector that refutes the system, in whole
/// numbers. The vector was checked. The dual solution is not taken to whole numbers, so that none of its
/// entries is refused, and nothing is checked to be least.
pub fn answer_alone<F: Fn(&[Frac]) -> Option<usize>>(
    alloc: Global,
    system: &System,
    chooser: &Chooser<F>,
) -> Result<Answer, AnswerFault>
    requires callable { F.IsAlwaysCallable chooser.now }
    requires chooses { IsChooser F.Fn chooser.now }
    requires fits { right system.now < 2 ^ 32 }
    ensures answer { IfOk result
        (λ answer. (pick : List ℤ → ℤ → Option ℕ) → AnswersBy F.Fn chooser.now pick → IsAlone (rule_by pick) system.now answer) }
    ensures fault { IfErr result
        (λ fault. (pick : List ℤ → ℤ → Option ℕ) → AnswersBy F.Fn chooser.now pick → StopsAlone (rule_by pick) system.now fault) }
{
    laws::least_denominators();
    laws::refused_entries_leave();
    match outcome_of(alloc, system, chooser, None)? {
        Outcome::Solution { x, .. } => in_own(alloc, &x),
        Outcome::Refuted { answer, .. } => Ok(answer),
        Outcome::Cut => unreachable!(),
    }
}
