// Conditions that fail.
ghost use Rattle.std.specs.Prelude.{◌≡◌, ℕ, [], map, option_map, slice_get, Some, IfOk};
ghost use Rattle.annot_types.specs.Program.{members};
ghost use Rattle.cost_free.specs.Read.{kind_of, task_of};
ghost use Rattle.rules_plan.specs.Read.{program_in, function_of, group_bodies};
ghost use Rattle.explain_verify.specs.Told as told;
ghost use Rattle.explain_verify.specs.Told.{failing, FailsAt, StandsAt};
ghost use Rattle.explain_verify.specs.Read.{subject_in, failing_of};

use crate::message::Subject;
use crate::place::{form_place, function_place};
use cert_check::{budget_of, members};
use cost_free::{Task, TaskKind};
use raml_syntax::FunId;
use rules_plan::{FunctionPlan, PlanFault, next_plans};
use std::alloc::{AllocError, Global};

/// A condition that fails: its task, its function with the place of that in its group, and its path in the function.
#[derive(Clone, Copy)]
pub(crate) struct Failing<'f> {
    pub(crate) task: Task,
    pub(crate) number: u32,
    pub(crate) fun: FunId,
    pub(crate) path: &'f [u32],
}

/// The condition at a path in a block.
pub(crate) fn condition_at<'f>(
    subject: &Subject<'_, '_>,
    block: usize,
    path: &'f [u32],
) -> Option<Failing<'f>>
    ensures { option_map failing_of result ≡ failing (subject_in subject.now) block path.now }
{
    let [number, path @ ..] = path else {
        return None;
    };
    let task = subject.outline.task(block)?;
    failing_in(subject, task, *number, path)
}

fn failing_in<'f>(
    subject: &Subject<'_, '_>,
    task: Task,
    number: u32,
    path: &'f [u32],
) -> Option<Failing<'f>>
    ensures { option_map failing_of result
        ≡ told.failing_in (task_of task) number path.now (members (program_in subject.now.program.now) task.group) }
{
    match members(subject.program, task.group).get(number as usize) {
        Some(fun) => Some(Failing {
            task,
            number,
            fun: *fun,
            path,
        }),
        None => None,
    }
}

/// The byte at which it is told.
pub(crate) fn fails_at(
    alloc: Global,
    subject: &Subject<'_, '_>,
    failing: &Failing<'_>,
) -> Result<usize, AllocError>
    requires { slice_get (members (program_in subject.now.program.now) failing.now.task.group) failing.now.number ≡ Some failing.now.fun.0 }
    ensures { IfOk result (FailsAt (subject_in subject.now) (failing_of failing.now) (kind_of failing.now.task.kind) failing.now.path.now) }
{
    match (failing.task.kind, failing.path) {
        (TaskKind::Free { .. }, []) => Ok(function_place(subject.program.source(), failing.fun)),
        _ => stands_at(alloc, subject, failing),
    }
}

/// The byte at which its form stands.
fn stands_at(
    alloc: Global,
    subject: &Subject<'_, '_>,
    failing: &Failing<'_>,
) -> Result<usize, AllocError>
    requires { slice_get (members (program_in subject.now.program.now) failing.now.task.group) failing.now.number ≡ Some failing.now.fun.0 }
    ensures { IfOk result (StandsAt (subject_in subject.now) (failing_of failing.now)) }
{
    let budget = budget_of(subject.outline.degree, failing.task.kind);
    if budget > 4 {
        return Ok(function_place(subject.program.source(), failing.fun));
    }
    match next_plans(alloc, subject.program, None, failing.task.group, budget) {
        Ok(plans) => Ok(planned_place(subject, failing, &plans.functions)),
        Err(PlanFault::TooMany) => Ok(function_place(subject.program.source(), failing.fun)),
        Err(PlanFault::NoMemory) => Err(AllocError),
    }
}

/// The byte of the form, where these are the plans of the functions of its group.
fn planned_place(subject: &Subject<'_, '_>, failing: &Failing<'_>, plans: &[FunctionPlan]) -> usize
    requires { slice_get (members (program_in subject.now.program.now) failing.now.task.group) failing.now.number ≡ Some failing.now.fun.0 }
    ensures { (budget : ℕ) →
        map function_of plans.now ≡ group_bodies (program_in subject.now.program.now) failing.now.task.group [] budget →
        result ≡ told.form_place (subject_in subject.now) failing.now.task.group budget failing.now.fun.0 failing.now.path.now }
{
    match plans.get(failing.number as usize) {
        Some(function) => form_place(subject.program, failing.fun, &function.plan, failing.path),
        None => function_place(subject.program.source(), failing.fun),
    }
}
