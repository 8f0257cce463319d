// Blocks and the schedule.
ghost use Rattle.std.specs.Prelude.{◌≡◌, option_map, IfOk};
ghost use Rattle.call_groups.specs.Read.{ids_of};
ghost use Rattle.raml_syntax.specs.Read.{place_in};
ghost use Rattle.cost_free.specs.Read.{task_of};
ghost use Rattle.explain_verify.specs.Told as told;
ghost use Rattle.explain_verify.specs.Told.{IsTaskAt, function_of};
ghost use Rattle.explain_verify.specs.Read.{subject_in};

use crate::message::Subject;
use base_poly::IndexFault;
use cert_check::members;
use cost_free::{Task, TaskKind, next};
use raml_syntax::FunId;
use std::alloc::{AllocError, Global};

/// The task that a block is to be of: the next of the schedule, and where there is none, its own.
pub(crate) fn task_at(
    alloc: Global,
    subject: &Subject<'_, '_>,
    block: usize,
) -> Result<Option<Task>, AllocError>
    ensures { IfOk result (λ task. IsTaskAt (subject_in subject.now) block (option_map task_of task)) }
{
    let program = subject.program;
    let _source = program.source();
    let _functions = program.functions();
    let outline = subject.outline;
    match next(
        alloc,
        program.results(),
        program.groups(),
        outline.degree,
        outline.work,
        outline.before(block),
    ) {
        Ok(Some(task)) => Ok(Some(task)),
        Ok(None) => Ok(outline.task(block)),
        Err(IndexFault::TooMany) => Ok(outline.task(block)),
        Err(IndexFault::NoMemory) => Err(AllocError),
    }
}

/// The function of a task, where the program has it.
pub(crate) fn function_of(subject: &Subject<'_, '_>, task: &Task) -> Option<FunId>
    ensures { place_in result ≡ function_of (subject_in subject.now) (task_of task.now) }
{
    let fun = match task.kind {
        TaskKind::Free { fun, .. } => fun,
        TaskKind::With(_) => first(members(subject.program, task.group))?,
    };
    if (fun.0 as usize) < subject.program.source().funs.len() {
        Some(fun)
    } else {
        None
    }
}

fn first(functions: &[FunId]) -> Option<FunId>
    ensures { place_in result ≡ told.first (ids_of functions.now) }
{
    match functions {
        [fun, ..] => Some(*fun),
        [] => None,
    }
}
