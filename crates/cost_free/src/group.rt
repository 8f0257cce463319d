// The tasks of one group.
ghost use Rattle.std.specs.Prelude.{◌≡◌, ◌≤◌, ◌+◌, nat_le, [], ◌∷◌, ◌++◌, map, flat_map, false, true, slice_get, IfOk, OnOk, IsErrOf};
ghost use Rattle.std.specs.List.{range_with_len};
ghost use Rattle.base_poly.specs.Read.{context_of};
ghost use Rattle.cost_free.specs.Task as plain;
ghost use Rattle.cost_free.specs.Schedule.{group_tasks, meters};
ghost use Rattle.cost_free.specs.Refused.{has_more, any_has_more};
ghost use Rattle.cost_free.specs.Read.{ids_of, task_of, tasks_of, plan_of, numbered_of, all_numbered, kind_of};
ghost use Rattle.cost_free.specs.Numbered.{degrees_at, with_degrees, tasks_by, tasks_of_all};

use crate::numbered::Numbered;
use crate::plan::Plan;
use crate::target_degrees::target_degrees;
use crate::task::{Meter, Task, TaskKind};
use base_poly::IndexFault;
use raml_syntax::FunId;
use std::alloc::{AllocError, Global};

// The number of what stands at a place. So many have no room in memory that each has one.
fn number_of(place: usize) -> Result<u32, AllocError>
    ensures { IfOk result (λ number. number ≡ place) }
{
    u32::try_from(place).map_err(|_| AllocError)
}

// The degrees of the targets of a function, if it is one.
fn degrees_of(
    alloc: Global,
    plan: Plan<'_>,
    fun: FunId,
    most: usize,
) -> Result<Vec<u32>, IndexFault>
    ensures all { IfOk result (λ found. found.items ≡ degrees_at (slice_get (plan_of plan.entry).results fun.0) plan.entry.degree) }
    ensures few { OnOk result (has_more most plan.entry.degree (slice_get (plan_of plan.entry).results fun.0) ≡ false) }
    ensures many { IsErrOf result IndexFault.TooMany →
        has_more most plan.entry.degree (slice_get (plan_of plan.entry).results fun.0) ≡ true }
{
    match plan.results.get(fun.0 as usize) {
        None => Ok(Vec::new(alloc)),
        Some(ty) => target_degrees(alloc, ty, plan.degree, most),
    }
}

// The functions with these.
fn with_degrees(
    alloc: Global,
    plan: Plan<'_>,
    funs: &[FunId],
    most: usize,
) -> Result<Vec<Numbered>, IndexFault>
    ensures all { IfOk result (λ found. all_numbered found.items ≡ with_degrees (plan_of plan.entry) (ids_of funs.now)) }
    ensures few { OnOk result (any_has_more most (plan_of plan.entry) (ids_of funs.now) ≡ false) }
    ensures many { IsErrOf result IndexFault.TooMany → any_has_more most (plan_of plan.entry) (ids_of funs.now) ≡ true }
{
    let mut found = Vec::with_capacity(alloc, funs.len())?;
    for &fun in funs {
        let degrees = degrees_of(alloc, plan, fun, most)?;
        found.push(Numbered { fun, degrees })?;
    }
    Ok(found)
}

// Appends the task of the group.
fn append_task(tasks: &mut Vec<Task>, group: u32, kind: TaskKind) -> Result<(), AllocError>
    ensures { OnOk result (tasks_of tasks.new.items ≡ tasks_of tasks.old.items ++ record { group = group; kind = kind_of kind } ∷ []) }
{
    tasks.push(Task { group, kind })?;
    Ok(())
}

// Whether the budget allows the degree.
fn is_within(degree: u32, budget: u8) -> bool
    ensures { result ≡ nat_le degree budget }
{
    degree <= u32::from(budget)
}

// Appends a function's tasks at a budget.
fn append_tasks_for(
    tasks: &mut Vec<Task>,
    group: u32,
    budget: u8,
    one: &Numbered,
) -> Result<(), AllocError>
    ensures { OnOk result (tasks_of tasks.new.items
        ≡ tasks_of tasks.old.items ++ tasks_by group budget (numbered_of one.now).0 0 (numbered_of one.now).1) }
{
    for place in 0..one.degrees.len() {
        if !is_within(one.degrees[place], budget) {
            continue;
        }
        let target = number_of(place)?;
        append_task(
            tasks,
            group,
            TaskKind::Free {
                budget,
                fun: one.fun,
                target,
            },
        )?;
    }
    Ok(())
}

// Appends those of all functions.
fn append_tasks_at(
    tasks: &mut Vec<Task>,
    group: u32,
    budget: u8,
    numbered: &[Numbered],
) -> Result<(), AllocError>
    ensures { OnOk result (tasks_of tasks.new.items ≡ tasks_of tasks.old.items ++ tasks_of_all group budget (all_numbered numbered.now)) }
{
    for one in numbered {
        append_tasks_for(tasks, group, budget, one)?;
    }
    Ok(())
}

// Appends those of all budgets.
fn append_free_tasks(
    tasks: &mut Vec<Task>,
    degree: u8,
    group: u32,
    numbered: &[Numbered],
) -> Result<(), AllocError>
    ensures { OnOk result (tasks_of tasks.new.items
        ≡ tasks_of tasks.old.items
        ++ flat_map (λ budget. tasks_of_all group budget (all_numbered numbered.now)) (range_with_len 0 (degree + 1))) }
{
    for budget in 0..u32::from(degree) + 1 {
        append_tasks_at(tasks, group, budget as u8, numbered)?;
    }
    Ok(())
}

// Appends those with cost.
fn append_meters(tasks: &mut Vec<Task>, group: u32, work: bool) -> Result<(), AllocError>
    ensures { OnOk result (tasks_of tasks.new.items ≡ tasks_of tasks.old.items ++ map
        (λ meter. record { group = group; kind = plain.With meter }) (meters work)) }
{
    append_task(tasks, group, TaskKind::With(Meter::Ticks))?;
    append_task(tasks, group, TaskKind::With(Meter::Cells))?;
    if work {
        append_task(tasks, group, TaskKind::With(Meter::Work))?;
    }
    Ok(())
}

// All tasks of the group of these functions.
fn all_tasks(
    alloc: Global,
    degree: u8,
    work: bool,
    group: u32,
    numbered: &[Numbered],
) -> Result<Vec<Task>, AllocError>
    ensures low { degree ≤ 255 }
    ensures tasks { IfOk result (λ tasks. tasks_of tasks.items
        ≡ flat_map (λ budget. tasks_of_all group budget (all_numbered numbered.now)) (range_with_len 0 (degree + 1))
        ++ map (λ meter. record { group = group; kind = plain.With meter }) (meters work)) }
{
    let mut tasks = Vec::with_capacity(alloc, 8)?;
    append_free_tasks(&mut tasks, degree, group, numbered)?;
    append_meters(&mut tasks, group, work)?;
    Ok(tasks)
}

/// The tasks of the group at this place, which has these functions.
///
/// `TooMany` exactly where the result of one of them has more indices than `most`.
pub fn group_tasks(
    alloc: Global,
    plan: Plan<'_>,
    place: usize,
    funs: &[FunId],
    most: usize,
) -> Result<Vec<Task>, IndexFault>
    ensures all { IfOk result
        (λ tasks. tasks_of tasks.items
        ≡ group_tasks (plan_of plan.entry).results plan.entry.degree plan.entry.work place (ids_of funs.now)) }
    ensures few { OnOk result (any_has_more most (plan_of plan.entry) (ids_of funs.now) ≡ false) }
    ensures many { IsErrOf result IndexFault.TooMany → any_has_more most (plan_of plan.entry) (ids_of funs.now) ≡ true }
{
    let numbered = with_degrees(alloc, plan, funs, most)?;
    let group = number_of(place)?;
    Ok(all_tasks(alloc, plan.degree, plan.work, group, &numbered)?)
}
