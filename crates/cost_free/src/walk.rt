// A walk over the schedule, which keeps the solved targets and the tasks of one group.
ghost use Rattle.std.specs.Prelude.{◌≡◌, ◌∷◌, ◌+◌, [], List, drop, true, false, IfOk, OnOk, OnErr, IsErrOf, slice_get};
ghost use Rattle.std.specs.Option.{option_map};
ghost use Rattle.cost_free.specs.Task as plain;
ghost use Rattle.cost_free.specs.Blocked.{row};
ghost use Rattle.cost_free.specs.Refused.{any_has_more};
ghost use Rattle.cost_free.specs.Walk.{Knows, is_solved, open_from, first, into, passed, advanced, MayEnter, CantEnter, Taken, StaysAt};
ghost use Rattle.cost_free.specs.Read.{kind_of, task_of, tasks_of, outcome_of, plan_of, place_of};

use crate::group::group_tasks;
use crate::plan::Plan;
use crate::task::{Done, Task, TaskKind};
use base_poly::IndexFault;
use std::alloc::{AllocError, Global};
use std::collections::BTreeSet;

/// Where a walk stands: the targets that are solved, how many groups were entered, the tasks of the last
/// of these, and how many of them it is past.
#[derive(Drop)]
pub struct Walk {
    pub solved: BTreeSet<(u32, u32)>,
    pub entered: usize,
    pub tasks: Vec<Task>,
    pub place: usize,
}

fn is_solved(solved: &BTreeSet<(u32, u32)>, kind: TaskKind) -> bool
    ensures { result ≡ is_solved solved.now.keys (kind_of kind) }
{
    match kind {
        TaskKind::Free { fun, target, .. } => solved.contains(&(fun.0, target)),
        TaskKind::With(_) => false,
    }
}

// Goes past the tasks whose targets are solved, and gives the next one.
fn pass_solved(tasks: &[Task], place: &mut usize, solved: &BTreeSet<(u32, u32)>) -> Option<Task>
    ensures left { tasks_of (drop place.new tasks.now) ≡ open_from solved.now.keys (tasks_of (drop place.old tasks.now)) }
    ensures next { option_map task_of result ≡ first (tasks_of (drop place.new tasks.now)) }
{
    while *place < tasks.len() {
        let task = tasks[*place];
        if !is_solved(solved, task.kind) {
            return Some(task);
        }
        *place += 1;
    }
    None
}

// Adds the target of an entry that is solved.
fn note(solved: &mut BTreeSet<(u32, u32)>, entry: &(Task, Done)) -> Result<(), AllocError>
    ensures known { OnOk result
        ((past : List plain.Outcome) → Knows solved.old.keys past → Knows solved.new.keys (outcome_of entry.now ∷ past)) }
    ensures kept { OnErr result ((past : List plain.Outcome) → Knows solved.old.keys past → Knows solved.new.keys past) }
{
    match entry.1 {
        Done::Solved => match entry.0.kind {
            TaskKind::Free { fun, target, .. } => {
                solved.insert((fun.0, target))?;
                Ok(())
            }
            TaskKind::With(_) => Ok(()),
        },
        Done::Refuted | Done::Calls => Ok(()),
    }
}

/// Goes to the next open task: of the same group, or of the next one. None where there is none.
///
/// `TooMany` where a function of the next group has a result with more indices than `most`.
pub fn advance(
    alloc: Global,
    plan: Plan<'_>,
    most: usize,
    walk: &mut Walk,
) -> Result<Option<Task>, IndexFault>
    ensures place { OnOk result (place_of walk.new ≡ advanced (plan_of plan.entry) (place_of walk.old)) }
    ensures next { IfOk result (λ task. option_map task_of task ≡ first (place_of walk.new).left) }
    ensures few { OnOk result (MayEnter most (plan_of plan.entry) (place_of walk.old)) }
    ensures kept { OnErr result (place_of walk.new ≡ passed (place_of walk.old)) }
    ensures many { IsErrOf result IndexFault.TooMany → CantEnter most (plan_of plan.entry) (place_of walk.old) }
{
    match pass_solved(&walk.tasks, &mut walk.place, &walk.solved) {
        Some(task) => Ok(Some(task)),
        None => enter(alloc, plan, most, walk),
    }
}

// Goes to the first open task of the next group.
fn enter(
    alloc: Global,
    plan: Plan<'_>,
    most: usize,
    walk: &mut Walk,
) -> Result<Option<Task>, IndexFault>
    requires { (place_of walk.old).left ≡ [] }
    ensures place { OnOk result
        (place_of walk.new ≡ into (plan_of plan.entry) (place_of walk.old) (slice_get (plan_of plan.entry).groups walk.old.entered)) }
    ensures next { IfOk result (λ task. option_map task_of task ≡ first (place_of walk.new).left) }
    ensures few { OnOk result (any_has_more most (plan_of plan.entry) (row (plan_of plan.entry).groups walk.old.entered) ≡ false) }
    ensures kept { OnErr result (place_of walk.new ≡ place_of walk.old) }
    ensures many { IsErrOf result IndexFault.TooMany →
        any_has_more most (plan_of plan.entry) (row (plan_of plan.entry).groups walk.old.entered) ≡ true }
{
    match plan.groups.get(walk.entered) {
        None => Ok(None),
        Some(funs) => {
            let tasks = group_tasks(alloc, plan, walk.entered, funs, most)?;
            walk.tasks = tasks;
            walk.entered += 1;
            walk.place = 0;
            Ok(pass_solved(&walk.tasks, &mut walk.place, &walk.solved))
        }
    }
}

#[tactic(auto, using(crate::proofs::Steps::stepped))]
fn step(tasks: &[Task], place: &mut usize)
    ensures { tasks_of (drop place.new tasks.now) ≡ drop 1 (tasks_of (drop place.old tasks.now)) }
{
    if *place < tasks.len() {
        *place += 1;
    }
}

/// Goes past the task at hand, which came out as the entry says.
pub fn take(walk: &mut Walk, entry: &(Task, Done)) -> Result<(), AllocError>
    ensures taken { OnOk result (Taken (place_of walk.old) (outcome_of entry.now) (place_of walk.new)) }
    ensures stays { OnErr result (StaysAt (place_of walk.old) (place_of walk.new)) }
{
    note(&mut walk.solved, entry)?;
    step(&walk.tasks, &mut walk.place);
    Ok(())
}

/// Before the first task.
pub fn begin(alloc: Global) -> Walk
    ensures { place_of result ≡ record { keys = []; entered = 0; left = [] } }
{
    Walk {
        solved: BTreeSet::new(alloc),
        entered: 0,
        tasks: Vec::new(alloc),
        place: 0,
    }
}
