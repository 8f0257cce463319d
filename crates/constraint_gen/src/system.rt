// The system of a task.
ghost use Rattle.std.specs.Prelude.{◌≡◌, ◌≤◌, ◌<◌, ◌+◌, ◌^◌, ◌≤ℤ◌, ℕ, pos, unsigned_abs, List, map, length, IfOk, IfErr, IfSome, OnOk};
ghost use Rattle.std.specs.Prelude.{SomeIff};
ghost use Rattle.rules_spec.specs.Asked.{asked};
ghost use Rattle.rules_spec.specs.Kinds.{forms, unknown};
ghost use Rattle.rules_spec.specs.Solving.{rows_of};
ghost use Rattle.rules_spec.specs.Tasks as t;
ghost use Rattle.rules_spec.specs.Tasks.{sides_count, unknowns, given_conditions};
ghost use Rattle.rules_walk.specs.Asks.{asks_of};
ghost use Rattle.constraint_gen.specs.Given.{all_counts, unknowns_of};
ghost use Rattle.constraint_gen.specs.Made.{HasRows, RowCause, PlanCause, IsProper, JobMade, JobCause};
ghost use Rattle.constraint_gen.specs.Weights.{weights_of};
ghost use Rattle.constraint_gen.specs.Walked.{job_in};
ghost use Rattle.annot_types.specs.Certificate as c;
ghost use Rattle.annot_types.specs.Holds.{budget_of};
ghost use Rattle.cost_free.specs.Read.{task_of, kind_of};
ghost use Rattle.rules_spec.specs.Systems.{IsTask};
ghost use Rattle.rules_walk.specs.Remembers.{Remembers};
ghost use Rattle.rules_plan.specs.Read.{program_in, body_of, ArePlansIn, ArePlansOf};
ghost use Rattle.rules_spec.specs.Told.{bodies_of};
ghost use Rattle.rules_systems_laws.specs.Laws.{IsNumbered};
ghost use Rattle.constraint_gen.specs.Cause.{IsWithin, IsMade, IsCause};
ghost use Rattle.constraint_gen.specs.Solutions.{SolutionsHoldFor, WhatHoldsSolvesIt};

use crate::counts::{all_asked, hints_within, sides_within};
use crate::fault::{GenFault, What};
use crate::finish::finish;
use crate::heard::heard;
use crate::task::{budget_of, fill, members, sig_weights};
use cost_free::Task;
use linear_rows::System;
use rules_plan::{Body, GroupPlans, PlanFault, next_plans};
use rules_systems_laws::laws::{solutions_hold, solutions_weigh, what_holds_solves};
use rules_walk::laws::walks_without_cost;
use rules_walk::{Ask, Earlier};
use share_normal::NormProgram;
use std::alloc::Global;

/// The system of a task at degree `d` over the blocks before it, with prices times `scale`.
///
/// First `TooLarge` is tried, of indices, of unknowns and of rows, and then `Leaves`.
///
/// Of the blocks before the task it is not asked that they hold. By the law `shaped_are_tasks` of `rules_systems_laws`
/// it is one, and its target is numbered, where the program is ordered, each solved block has a signature for each
/// function of its group, and the task is the next one of the schedule and waits for no function.
pub fn rows(
    alloc: Global,
    program: &NormProgram<'_>,
    d: u8,
    earlier: &Earlier,
    task: &Task,
    scale: i128,
) -> Result<System, GenFault>
    requires budget { budget_of d (kind_of task.now.kind) ≤ 4 }
    requires natural { pos 0 ≤ℤ scale }
    ensures made { IfOk result (λ made. (blocks : List c.Block) → Remembers (program_in program.now) d blocks earlier.now →
        IsTask (program_in program.now) d blocks (task_of task.now) (unsigned_abs scale) →
        IsMade (program_in program.now) d blocks (task_of task.now) (unsigned_abs scale) made) }
    ensures fault { IfErr result (λ fault. (blocks : List c.Block) → Remembers (program_in program.now) d blocks earlier.now →
        IsTask (program_in program.now) d blocks (task_of task.now) (unsigned_abs scale) →
        IsCause (program_in program.now) d blocks (task_of task.now) (unsigned_abs scale) fault) }
    ensures holds { IfOk result (λ made. (blocks : List c.Block) → Remembers (program_in program.now) d blocks earlier.now →
        IsTask (program_in program.now) d blocks (task_of task.now) (unsigned_abs scale) →
        IsNumbered (program_in program.now) d (kind_of task.now.kind) →
        SolutionsHoldFor (program_in program.now) d blocks (task_of task.now) (unsigned_abs scale) made) }
    ensures solves { IfOk result (λ made. (blocks : List c.Block) → Remembers (program_in program.now) d blocks earlier.now →
        IsTask (program_in program.now) d blocks (task_of task.now) (unsigned_abs scale) →
        WhatHoldsSolvesIt (program_in program.now) d blocks (task_of task.now) (unsigned_abs scale) made) }
{
    // the system of a task is solved by what holds, and by nothing else
    solutions_hold();
    solutions_weigh();
    what_holds_solves();
    let plans = plans(alloc, program, d, None, task)?;
    let bodies = plans.over(alloc, earlier)?;
    rows_by(alloc, program, d, earlier, task, scale, &bodies)
}

/// The plans of a task's group, where `last` were made last. `TooLarge` where a context or a type of its
/// walks has more than 2000 indices.
pub fn plans(
    alloc: Global,
    program: &NormProgram<'_>,
    d: u8,
    last: Option<GroupPlans>,
    task: &Task,
) -> Result<GroupPlans, GenFault>
    requires budget { budget_of d (kind_of task.now.kind) ≤ 4 }
    requires last { IfSome last (ArePlansIn (program_in program.now)) }
    ensures plans { IfOk result (ArePlansOf (program_in program.now) task.now.group (budget_of d (kind_of task.now.kind))) }
    ensures fits { OnOk result (IsWithin (program_in program.now) d (task_of task.now)) }
    ensures fault { IfErr result (PlanCause (IsWithin (program_in program.now) d (task_of task.now))) }
{
    match next_plans(alloc, program, last, task.group, budget_of(d, task.kind)) {
        Ok(made) => Ok(made),
        Err(PlanFault::TooMany) => Err(GenFault::TooLarge(What::Indices)),
        Err(PlanFault::NoMemory) => Err(GenFault::NoMemory),
    }
}

/// The system of a task, as `rows` makes it, by the plans of its group, whose contexts and types have at most
/// 2000 indices.
pub fn rows_by(
    alloc: Global,
    program: &NormProgram<'_>,
    d: u8,
    earlier: &Earlier,
    task: &Task,
    scale: i128,
    plans: &[Body<'_>],
) -> Result<System, GenFault>
    requires budget { budget_of d (kind_of task.now.kind) ≤ 4 }
    requires indices { IsWithin (program_in program.now) d (task_of task.now) }
    requires natural { pos 0 ≤ℤ scale }
    ensures made { IfOk result (λ made. (blocks : List c.Block) → Remembers (program_in program.now) d blocks earlier.now →
        map body_of plans.now ≡ bodies_of (program_in program.now) d blocks (task_of task.now) →
        IsTask (program_in program.now) d blocks (task_of task.now) (unsigned_abs scale) →
        IsMade (program_in program.now) d blocks (task_of task.now) (unsigned_abs scale) made) }
    ensures unknowns { IfOk result (λ made. made.unknowns ≡ unknowns_of (map body_of plans.now)) }
    ensures fault { IfErr result (λ fault. (blocks : List c.Block) → Remembers (program_in program.now) d blocks earlier.now →
        map body_of plans.now ≡ bodies_of (program_in program.now) d blocks (task_of task.now) →
        IsTask (program_in program.now) d blocks (task_of task.now) (unsigned_abs scale) →
        IsCause (program_in program.now) d blocks (task_of task.now) (unsigned_abs scale) fault) }
{
    // a walk that pays no prices reads no signature that pays
    walks_without_cost();
    let prices = scale.unsigned_abs();
    of_plans(alloc, program, d, earlier, task, prices, plans)
}

// The system, where these are the bodies.
fn of_plans(
    alloc: Global,
    program: &NormProgram<'_>,
    d: u8,
    earlier: &Earlier,
    task: &Task,
    scale: u128,
    planned: &[Body<'_>],
) -> Result<System, GenFault>
    requires budget { budget_of d (kind_of task.now.kind) ≤ 4 }
    ensures made { IfOk result
        (λ made. IsProper (job_in (program_in program.now) d earlier.now (map body_of planned.now)
        (task_of task.now) scale) (weights_of program.now d task.now) →
        JobMade (job_in (program_in program.now) d earlier.now (map body_of planned.now)
        (task_of task.now) scale) (weights_of program.now d task.now) made) }
    ensures fault { IfErr result
        (λ fault. IsProper (job_in (program_in program.now) d earlier.now (map body_of planned.now)
        (task_of task.now) scale) (weights_of program.now d task.now) →
        JobCause (job_in (program_in program.now) d earlier.now (map body_of planned.now) (task_of task.now) scale) fault) }
    ensures unknowns { IfOk result (λ made. made.unknowns ≡ unknowns_of (map body_of planned.now)) }
{
    // each function has an unknown at least
    if planned.len() > 2000 {
        return Err(GenFault::TooLarge(What::Unknowns));
    }
    let asks = all_asked(alloc, planned)?;
    match count(planned, &asks) {
        Some(count) => of_bodies(
            alloc, program, d, earlier, task, scale, planned, &asks, count,
        ),
        None => Err(GenFault::TooLarge(What::Unknowns)),
    }
}

/// How many unknowns there are; none where they are more than 2000.
pub fn count(planned: &[Body<'_>], asks: &[Vec<Ask>]) -> Option<u32>
    ensures { SomeIff result (sides_count (map body_of planned.now) + all_counts (map (λ a. asks_of a.items) asks.now) ≤ 2000)
        (sides_count (map body_of planned.now) + all_counts (map (λ a. asks_of a.items) asks.now)) }
{
    let sides = sides_within(planned, 2000)?;
    hints_within(sides, asks, 2000)
}

// The system, where these are the bodies and what they ask for.
fn of_bodies(
    alloc: Global,
    program: &NormProgram<'_>,
    d: u8,
    earlier: &Earlier,
    task: &Task,
    scale: u128,
    planned: &[Body<'_>],
    asks: &[Vec<Ask>],
    count: u32,
) -> Result<System, GenFault>
    requires budget { budget_of d (kind_of task.now.kind) ≤ 4 }
    requires asked { map (λ a. asks_of a.items) asks.now ≡ map (λ (b : t.Body). asked b.plan) (map body_of planned.now) }
    requires counted { count ≡ unknowns (job_in (program_in program.now) d earlier.now (map body_of planned.now) (task_of task.now) scale) }
    requires few { count ≤ 2000 }
    requires bodies { length planned.now ≤ 2000 }
    ensures made { IfOk result
        (λ made. IsProper (job_in (program_in program.now) d earlier.now (map body_of planned.now)
        (task_of task.now) scale) (weights_of program.now d task.now) →
        HasRows count (rows_of count
        (given_conditions forms unknown
        (job_in (program_in program.now) d earlier.now (map body_of planned.now)
        (task_of task.now) scale))) (weights_of program.now d task.now) made) }
    ensures fault { IfErr result
        (λ fault. IsProper (job_in (program_in program.now) d earlier.now (map body_of planned.now)
        (task_of task.now) scale) (weights_of program.now d task.now) →
        RowCause (rows_of count (given_conditions forms unknown
        (job_in (program_in program.now) d earlier.now (map body_of planned.now) (task_of task.now) scale))) fault) }
    ensures unknowns { IfOk result (λ made. made.unknowns ≡ count) }
{
    let rows = heard(
        alloc, program, d, earlier, task, scale, planned, asks, count,
    )?;
    let budget = budget_of(d, task.kind);
    let functions = members(program, task.group);
    let mut weights = sig_weights(alloc, program, functions, budget, count as usize)?;
    fill(&mut weights, count)?;
    match finish(alloc, count, rows, weights) {
        Ok(made) => Ok(made),
        Err(fault) => Err(fault),
    }
}
