// The system of a task, and its answer.
ghost use Rattle.std.specs.Prelude.{◌≡◌, ◌≤◌, ◌<◌, ◌^◌, ℕ, ℤ, List, Option, map, None, IfOk, IfErr, IfSome, OnOk};
ghost use Rattle.simplex_spec.specs.Tableaux.{right};
ghost use Rattle.simplex.specs.Choosing.{IsChooser};
ghost use Rattle.cost_free.specs.Read.{task_of, kind_of};
ghost use Rattle.annot_types.specs.Holds.{budget_of};
ghost use Rattle.annot_types.specs.Read.{blocks_of};
ghost use Rattle.rules_spec.specs.Told.{bodies_of};
ghost use Rattle.rules_plan.specs.Read.{program_in, body_of, ArePlansIn, ArePlansOf};
ghost use Rattle.constraint_gen.specs.Cause.{IsWithin};
ghost use Rattle.constraint_gen.specs.declared.fault.What.{What as TheWhat};
ghost use Rattle.infer_spec.specs.States.{State};
ghost use Rattle.infer_spec.specs.Generator.{Analysis, blocker_at, system_at};
ghost use Rattle.infer_spec.specs.Places.{rule_of};
ghost use Rattle.infer_spec.specs.Clear.{RowsAreFine};
ghost use Rattle.infer_systems_laws.specs.Tried.{IsOrdered};
ghost use Rattle.simplex_checked.specs.Answers.{Stops};
ghost use Rattle.bound_infer.specs.Keeping.{state_of, Keeps, analysis_in, StandsAt, ByEach};
ghost use Rattle.bound_infer.specs.After.{StopsOn};
ghost use Rattle.bound_infer.specs.Found.{HasSystem, HasWithin};

use crate::leaves::LeavesAt;
use crate::refusal::InferFault;
use crate::run::Run;
use crate::solver::Solver;
use constraint_gen::{GenFault, plans, rows_by};
use cost_free::Task;
use frac128::Frac;
use infer_spec::laws::seen_is_first;
use infer_systems_laws::laws::{limits_are_told, tried_are_tasks};
use linear_rows::System;
use rules_plan::{Body, GroupPlans};
use share_normal::NormProgram;
use simplex_checked::{AnswerFault, Within, whole_answer_within};
use std::alloc::Global;

// Why a task has no system.
fn gen_fault(task: &Task, fault: GenFault) -> InferFault
    ensures large { (what : TheWhat) → fault ≡ GenFault.TooLarge what → result ≡ InferFault.TooLarge task.now what }
    ensures leaves { (row : ℕ) → fault ≡ GenFault.Leaves row → result ≡ InferFault.Leaves (LeavesAt.Row task.now row) }
    ensures memory { fault ≡ GenFault.NoMemory → result ≡ InferFault.NoMemory }
{
    match fault {
        GenFault::TooLarge(what) => InferFault::TooLarge { task: *task, what },
        GenFault::Leaves { row } => InferFault::Leaves(LeavesAt::Row { task: *task, row }),
        GenFault::NoMemory => InferFault::NoMemory,
    }
}

/// The plans of a task's group, where `last` were made last.
pub(crate) fn planned(
    alloc: Global,
    program: &NormProgram<'_>,
    d: u8,
    last: Option<GroupPlans>,
    run: &Run<'_>,
    task: &Task,
) -> Result<GroupPlans, InferFault>
    requires last { IfSome last (ArePlansIn (program_in program.now)) }
    requires budget { budget_of d (kind_of task.now.kind) ≤ 4 }
    requires stands { StandsAt program.now d (state_of run.now) (task_of task.now) }
    ensures plans { IfOk result (ArePlansOf (program_in program.now) task.now.group (budget_of d (kind_of task.now.kind))) }
    ensures fits { OnOk result (IsWithin (program_in program.now) d (task_of task.now)) }
    ensures fault { IfErr result
        (λ fault. (pick : List ℤ → ℤ → Option ℕ) → StopsOn (analysis_in program.now d pick) (state_of run.now) (task_of task.now) fault) }
{
    limits_are_told();
    seen_is_first();
    match plans(alloc, program, d, last, task) {
        Ok(made) => Ok(made),
        Err(fault) => Err(gen_fault(task, fault)),
    }
}

// The system of a task, by the plans of its group.
fn system(
    alloc: Global,
    program: &NormProgram<'_>,
    d: u8,
    run: &Run<'_>,
    task: &Task,
    plans: &[Body<'_>],
) -> Result<System, InferFault>
    requires keeps { Keeps program.now d run.now }
    requires budget { budget_of d (kind_of task.now.kind) ≤ 4 }
    requires ordered { IsOrdered (program_in program.now) }
    requires stands { StandsAt program.now d (state_of run.now) (task_of task.now) }
    requires plans { map body_of plans.now ≡ bodies_of (program_in program.now) d (blocks_of run.now.blocks.items) (task_of task.now) }
    requires indices { IsWithin (program_in program.now) d (task_of task.now) }
    ensures few { IfOk result (λ made. right made < 2 ^ 32) }
    ensures made { IfOk result
        (λ made. (pick : List ℤ → ℤ → Option ℕ) → HasSystem (analysis_in program.now d pick) (state_of run.now) (task_of task.now) made) }
    ensures fault { IfErr result
        (λ fault. (pick : List ℤ → ℤ → Option ℕ) → StopsOn (analysis_in program.now d pick) (state_of run.now) (task_of task.now) fault) }
{
    limits_are_told();
    seen_is_first();
    tried_are_tasks();
    let scale = run.scales.of_kind(task.kind);
    match rows_by(alloc, program, d, &run.earlier, task, scale, plans) {
        Ok(made) => {
            let _rows = made.rows();
            Ok(made)
        }
        Err(fault) => Err(gen_fault(task, fault)),
    }
}

// Why a task's system has no answer.
fn answer_fault(task: &Task, fault: AnswerFault) -> InferFault
    ensures { (A : Analysis) (st : State) → RowsAreFine A st (task_of task.now) → blocker_at A st (task_of task.now) ≡ None →
        Stops (rule_of A) (system_at A st (task_of task.now)) fault → StopsOn A st (task_of task.now) result }
{
    seen_is_first();
    match fault {
        AnswerFault::Solve {
            pivots,
            row,
            column,
        } => InferFault::Leaves(LeavesAt::Solve {
            task: *task,
            pivots,
            row,
            col: column,
        }),
        AnswerFault::Scale { entry } => {
            InferFault::Leaves(LeavesAt::Scale { task: *task, entry })
        }
        AnswerFault::Refute { column } => {
            InferFault::Leaves(LeavesAt::Refute {
                task: *task,
                column,
            })
        }
        AnswerFault::Least { column } => {
            InferFault::Leaves(LeavesAt::Least {
                task: *task,
                column,
            })
        }
        AnswerFault::NoMemory => InferFault::NoMemory,
    }
}

/// What a task comes to, by the plans of its group, with at most as many pivots as the solver may make.
pub(crate) fn answered<F: Fn(&[Frac]) -> Option<usize>>(
    alloc: Global,
    program: &NormProgram<'_>,
    d: u8,
    run: &Run<'_>,
    task: &Task,
    plans: &GroupPlans,
    solver: &Solver<'_, F>,
) -> Result<Within, InferFault>
    requires callable { F.IsAlwaysCallable solver.now.chooser.now }
    requires chooses { IsChooser F.Fn solver.now.chooser.now }
    requires keeps { Keeps program.now d run.now }
    requires budget { budget_of d (kind_of task.now.kind) ≤ 4 }
    requires ordered { IsOrdered (program_in program.now) }
    requires stands { StandsAt program.now d (state_of run.now) (task_of task.now) }
    requires plans { ArePlansOf (program_in program.now) task.now.group (budget_of d (kind_of task.now.kind)) plans.now }
    requires indices { IsWithin (program_in program.now) d (task_of task.now) }
    ensures answer { IfOk result
        (λ within. ByEach F.Fn solver.now.chooser.now
        (λ pick. HasWithin (analysis_in program.now d pick) (state_of run.now) (task_of task.now) solver.now.most within)) }
    ensures fault { IfErr result
        (λ fault. ByEach F.Fn solver.now.chooser.now
        (λ pick. StopsOn (analysis_in program.now d pick) (state_of run.now) (task_of task.now) fault)) }
{
    let Ok(bodies) = plans.over(alloc, &run.earlier) else {
        return Err(InferFault::NoMemory);
    };
    match system(alloc, program, d, run, task, &bodies) {
        Err(fault) => Err(fault),
        Ok(system) => match whole_answer_within(alloc, &system, solver.chooser, solver.most) {
            Ok(within) => Ok(within),
            Err(fault) => Err(answer_fault(task, fault)),
        },
    }
}
