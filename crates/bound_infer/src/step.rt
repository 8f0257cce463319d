// One task of the schedule.
ghost use Rattle.std.specs.Prelude.{◌≡◌, ◌≤◌, IfOk, IfErr, OnOk};
ghost use Rattle.simplex.specs.Choosing.{IsChooser};
ghost use Rattle.cost_free.specs.Read.{task_of, kind_of};
ghost use Rattle.annot_types.specs.Holds.{budget_of};
ghost use Rattle.rules_plan.specs.Read.{program_in, ArePlansOf, AreKept};
ghost use Rattle.constraint_gen.specs.Cause.{IsWithin};
ghost use Rattle.infer_systems_laws.specs.Tried.{IsOrdered};
ghost use Rattle.simplex_checked.specs.Choosing.{AnswersByOne};
ghost use Rattle.bound_infer.specs.Keeping.{state_of, Keeps, analysis_in, StandsAt, Begins, ByEach};
ghost use Rattle.bound_infer.specs.After.{OneMore, IsAfter, Reached, IsAtHand, StopsOn, StopsIn};
ghost use Rattle.bound_infer.specs.Found.{HasAnswer};

use crate::factor::Factor;
use crate::large::refused;
use crate::progress::Progress;
use crate::refusal::InferFault;
use crate::run::{Run, current, waits_for};
use crate::solved::{refuted, solved, waits};
use crate::solver::Solver;
use crate::system::{answered, planned};
use base_poly::IndexFault;
use cert_check::budget_of;
use cost_free::Task;
use frac128::Frac;
use infer_spec::laws::{courses_are_good, fine_is_clear, scales_begin, seen_is_first};
use infer_systems_laws::laws::{systems_generate, tried_are_tasks};
use rules_plan::{GroupPlans, KeptPlans};
use share_normal::NormProgram;
use simplex_checked::{Answer, Within};
use std::alloc::Global;

// A task by what it comes to.
fn carried<F: Fn(&[Frac]) -> Option<usize>>(
    alloc: Global,
    program: &NormProgram<'_>,
    d: u8,
    run: &mut Run<'_>,
    task: &Task,
    plans: &GroupPlans,
    answer: Answer,
    solver: &Solver<'_, F>,
) -> Result<(), InferFault>
    requires one { AnswersByOne F.Fn solver.now.chooser.now }
    requires ordered { IsOrdered (program_in program.now) }
    requires keeps { Keeps program.now d run.old }
    requires begins { Begins (state_of run.old) }
    requires here { ByEach F.Fn solver.now.chooser.now
        (λ pick. IsAtHand (analysis_in program.now d pick) (state_of run.old) (task_of task.now)) }
    requires stands { StandsAt program.now d (state_of run.old) (task_of task.now) }
    requires plans { ArePlansOf (program_in program.now) task.now.group (budget_of d (kind_of task.now.kind)) plans.now }
    requires answer { ByEach F.Fn solver.now.chooser.now
        (λ pick. HasAnswer (analysis_in program.now d pick) (state_of run.old) (task_of task.now) answer) }
    ensures keeps { OnOk result (Keeps program.now d run.new) }
    ensures steps { OnOk result
        (ByEach F.Fn solver.now.chooser.now (λ pick. OneMore (analysis_in program.now d pick) (state_of run.old) (state_of run.new))) }
    ensures stops { IfErr result
        (λ fault. ByEach F.Fn solver.now.chooser.now
        (λ pick. StopsOn (analysis_in program.now d pick) (state_of run.old) (task_of task.now) fault)) }
{
    fine_is_clear();
    seen_is_first();
    tried_are_tasks();
    match answer {
        Answer::Solution {
            denominator,
            numbers,
        } => {
            let factor = Factor::new(denominator);
            solved(alloc, program, d, run, task, plans, &factor, &numbers)
        }
        Answer::Vector { numbers } => match refuted(alloc, program, d, run, task, &numbers) {
            Ok(()) => Ok(()),
            Err(_) => Err(InferFault::NoMemory),
        },
    }
}

// A task that waits for nothing, by the plans of its group.
fn by_plans<F: Fn(&[Frac]) -> Option<usize>>(
    alloc: Global,
    program: &NormProgram<'_>,
    d: u8,
    run: &mut Run<'_>,
    task: &Task,
    plans: &GroupPlans,
    solver: &Solver<'_, F>,
) -> Result<Progress, InferFault>
    requires callable { F.IsAlwaysCallable solver.now.chooser.now }
    requires chooses { IsChooser F.Fn solver.now.chooser.now }
    requires one { AnswersByOne F.Fn solver.now.chooser.now }
    requires ordered { IsOrdered (program_in program.now) }
    requires budget { budget_of d (kind_of task.now.kind) ≤ 4 }
    requires keeps { Keeps program.now d run.old }
    requires begins { Begins (state_of run.old) }
    requires here { ByEach F.Fn solver.now.chooser.now
        (λ pick. IsAtHand (analysis_in program.now d pick) (state_of run.old) (task_of task.now)) }
    requires stands { StandsAt program.now d (state_of run.old) (task_of task.now) }
    requires plans { ArePlansOf (program_in program.now) task.now.group (budget_of d (kind_of task.now.kind)) plans.now }
    requires fits { IsWithin (program_in program.now) d (task_of task.now) }
    ensures keeps { OnOk result (Keeps program.now d run.new) }
    ensures steps { IfOk result
        (λ progress. ByEach F.Fn solver.now.chooser.now
        (λ pick. IsAfter (analysis_in program.now d pick) solver.now.most (state_of run.old) (state_of run.new) progress)) }
    ensures stops { IfErr result
        (λ fault. ByEach F.Fn solver.now.chooser.now
        (λ pick. StopsOn (analysis_in program.now d pick) (state_of run.old) (task_of task.now) fault)) }
{
    match answered(alloc, program, d, run, task, plans, solver) {
        Err(fault) => Err(fault),
        Ok(Within::Cut) => Ok(Progress::Cut),
        Ok(Within::Answered { answer, pivots }) => {
            match carried(alloc, program, d, run, task, plans, answer, solver) {
                Ok(()) => Ok(Progress::Advanced { pivots }),
                Err(fault) => Err(fault),
            }
        }
    }
}

// A task that waits for nothing.
fn tried<F: Fn(&[Frac]) -> Option<usize>>(
    alloc: Global,
    program: &NormProgram<'_>,
    d: u8,
    run: &mut Run<'_>,
    kept: &mut KeptPlans,
    task: &Task,
    solver: &Solver<'_, F>,
) -> Result<Progress, InferFault>
    requires callable { F.IsAlwaysCallable solver.now.chooser.now }
    requires chooses { IsChooser F.Fn solver.now.chooser.now }
    requires one { AnswersByOne F.Fn solver.now.chooser.now }
    requires ordered { IsOrdered (program_in program.now) }
    requires budget { budget_of d (kind_of task.now.kind) ≤ 4 }
    requires keeps { Keeps program.now d run.old }
    requires kept { AreKept (program_in program.now) kept.old }
    requires begins { Begins (state_of run.old) }
    requires here { ByEach F.Fn solver.now.chooser.now
        (λ pick. IsAtHand (analysis_in program.now d pick) (state_of run.old) (task_of task.now)) }
    requires stands { StandsAt program.now d (state_of run.old) (task_of task.now) }
    ensures keeps { OnOk result (Keeps program.now d run.new) }
    ensures kept { OnOk result (AreKept (program_in program.now) kept.new) }
    ensures steps { IfOk result
        (λ progress. ByEach F.Fn solver.now.chooser.now
        (λ pick. IsAfter (analysis_in program.now d pick) solver.now.most (state_of run.old) (state_of run.new) progress)) }
    ensures stops { IfErr result
        (λ fault. ByEach F.Fn solver.now.chooser.now
        (λ pick. StopsOn (analysis_in program.now d pick) (state_of run.old) (task_of task.now) fault)) }
{
    let last = kept.take(task.group, budget_of(d, task.kind));
    match planned(alloc, program, d, last, run, task) {
        Err(fault) => Err(fault),
        Ok(plans) => match by_plans(alloc, program, d, run, task, &plans, solver) {
            Err(fault) => Err(fault),
            Ok(progress) => match kept.keep(plans) {
                Ok(()) => Ok(progress),
                Err(_) => Err(InferFault::NoMemory),
            },
        },
    }
}

// The next task.
fn at_task<F: Fn(&[Frac]) -> Option<usize>>(
    alloc: Global,
    program: &NormProgram<'_>,
    d: u8,
    run: &mut Run<'_>,
    kept: &mut KeptPlans,
    task: &Task,
    solver: &Solver<'_, F>,
) -> Result<Progress, InferFault>
    requires callable { F.IsAlwaysCallable solver.now.chooser.now }
    requires chooses { IsChooser F.Fn solver.now.chooser.now }
    requires one { AnswersByOne F.Fn solver.now.chooser.now }
    requires ordered { IsOrdered (program_in program.now) }
    requires low { d ≤ 4 }
    requires keeps { Keeps program.now d run.old }
    requires kept { AreKept (program_in program.now) kept.old }
    requires here { ByEach F.Fn solver.now.chooser.now
        (λ pick. IsAtHand (analysis_in program.now d pick) (state_of run.old) (task_of task.now)) }
    ensures keeps { OnOk result (Keeps program.now d run.new) }
    ensures kept { OnOk result (AreKept (program_in program.now) kept.new) }
    ensures steps { IfOk result
        (λ progress. ByEach F.Fn solver.now.chooser.now
        (λ pick. IsAfter (analysis_in program.now d pick) solver.now.most (state_of run.old) (state_of run.new) progress)) }
    ensures stops { IfErr result
        (λ fault. ByEach F.Fn solver.now.chooser.now
        (λ pick. StopsOn (analysis_in program.now d pick) (state_of run.old) (task_of task.now) fault)) }
{
    systems_generate();
    courses_are_good();
    scales_begin();
    match waits_for(program, d, run, task) {
        Some(fun) => match waits(alloc, program, d, run, task, fun) {
            Ok(()) => Ok(Progress::Advanced { pivots: 0 }),
            Err(_) => Err(InferFault::NoMemory),
        },
        None => tried(alloc, program, d, run, kept, task, solver),
    }
}

/// Tries the next task, or tells that there is none.
pub(crate) fn step<F: Fn(&[Frac]) -> Option<usize>>(
    alloc: Global,
    program: &NormProgram<'_>,
    d: u8,
    run: &mut Run<'_>,
    kept: &mut KeptPlans,
    solver: &Solver<'_, F>,
) -> Result<Progress, InferFault>
    requires callable { F.IsAlwaysCallable solver.now.chooser.now }
    requires chooses { IsChooser F.Fn solver.now.chooser.now }
    requires one { AnswersByOne F.Fn solver.now.chooser.now }
    requires ordered { IsOrdered (program_in program.now) }
    requires low { d ≤ 4 }
    requires keeps { Keeps program.now d run.old }
    requires kept { AreKept (program_in program.now) kept.old }
    requires reached { ByEach F.Fn solver.now.chooser.now (λ pick. Reached (analysis_in program.now d pick) (state_of run.old)) }
    ensures keeps { OnOk result (Keeps program.now d run.new) }
    ensures kept { OnOk result (AreKept (program_in program.now) kept.new) }
    ensures steps { IfOk result
        (λ progress. ByEach F.Fn solver.now.chooser.now
        (λ pick. IsAfter (analysis_in program.now d pick) solver.now.most (state_of run.old) (state_of run.new) progress)) }
    ensures stops { IfErr result
        (λ fault. ByEach F.Fn solver.now.chooser.now (λ pick. StopsIn (analysis_in program.now d pick) (state_of run.old) fault)) }
{
    systems_generate();
    match current(program, d, run) {
        Err(IndexFault::NoMemory) => Err(InferFault::NoMemory),
        Err(IndexFault::TooMany) => Err(refused(alloc, program, d)),
        Ok(None) => Ok(Progress::Ended),
        Ok(Some(task)) => at_task(alloc, program, d, run, kept, &task, solver),
    }
}
