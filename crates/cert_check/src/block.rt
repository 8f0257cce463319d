// The check of one block.
ghost use Rattle.std.specs.Prelude.{◌≡◌, ◌↔◌, ◌≤◌, List, map, IsTrue, IfOk, OnOk};
ghost use Rattle.std.specs.Option.{option_map};
ghost use Rattle.raml_syntax.specs.declared.program.FunId.{FunId as Id};
ghost use Rattle.cost_free.specs.Read.{kind_of, task_of};
ghost use Rattle.annot_types.specs.Certificate as c;
ghost use Rattle.annot_types.specs.Held.{NamesBlocker, IfSolved};
ghost use Rattle.annot_types.specs.Holds as h;
ghost use Rattle.annot_types.specs.Read as a;
ghost use Rattle.rules_walk.specs.Remembers.{Remembers};
ghost use Rattle.rules_plan.specs.Read.{AreKept};
ghost use Rattle.cert_check.specs.At.{program_at, IsAt, Tells, sizes_of};
ghost use Rattle.cert_check.specs.Finds.{job, BodyFinds};
ghost use Rattle.cert_check.specs.Same.{same_kind, same_task, is_task};

use crate::at::At;
use crate::fault::CertFault;
use crate::planned::check_solved;
use annot_types::{BlockBody, rise};
use cost_free::{Task, TaskKind};
use raml_syntax::FunId;
use rules_plan::KeptPlans;

fn same_kind(kind: TaskKind, other: TaskKind) -> bool
    ensures { result ≡ same_kind (kind_of kind) (kind_of other) }
{
    match kind {
        TaskKind::Free {
            budget,
            fun,
            target,
        } => match other {
            TaskKind::Free {
                budget: other_budget,
                fun: other_fun,
                target: other_target,
            } => budget == other_budget && fun.0 == other_fun.0 && target == other_target,
            TaskKind::With(_) => false,
        },
        TaskKind::With(meter) => match other {
            TaskKind::Free { .. } => false,
            TaskKind::With(other_meter) => meter == other_meter,
        },
    }
}

/// Whether two tasks are the same.
pub fn same_task(task: &Task, other: &Task) -> bool
    ensures { result ≡ same_task (task_of task.now) (task_of other.now) }
{
    task.group == other.group && same_kind(task.kind, other.kind)
}

/// The task is that of the schedule.
pub fn is_task(task: &Task, next: Option<Task>) -> bool
    ensures { result ≡ is_task (task_of task.now) (option_map task_of next) }
{
    match next {
        None => false,
        Some(other) => same_task(task, &other),
    }
}

/// A block that waits names the function for which it does, and no other block does.
pub fn names_blocker(blocker: Option<FunId>, body: &BlockBody) -> bool
    ensures { IsTrue result ↔ NamesBlocker (option_map (λ (f : Id). f.0) blocker) (a.body_of body.now) }
{
    match blocker {
        Some(fun) => match body {
            BlockBody::Calls { fun: named } => fun.0 == named.0,
            BlockBody::Solved { .. } | BlockBody::Refuted { .. } => false,
        },
        None => match body {
            BlockBody::Calls { .. } => false,
            BlockBody::Solved { .. } | BlockBody::Refuted { .. } => true,
        },
    }
}

/// The check of a block of the schedule; where it is solved, how many positions its functions have.
pub fn check_body(
    at: &At<'_, '_>,
    kept: &mut KeptPlans,
    body: &BlockBody,
) -> Result<Vec<(usize, usize)>, CertFault>
    requires low { h.budget_of at.now.degree (kind_of at.now.task.kind) ≤ 4 }
    requires remembers { (blocks : List c.Block) × Remembers (program_at at.now) at.now.degree blocks at.now.earlier.now }
    requires kept { AreKept (program_at at.now) kept.old }
    ensures kept { OnOk result (AreKept (program_at at.now) kept.new) }
    ensures tells { (held : c.Certificate) (blocks : List c.Block) → IsAt at.now held blocks →
        Remembers (program_at at.now) held.degree blocks at.now.earlier.now →
        Tells result (BodyFinds (program_at at.now) held blocks (task_of at.now.task) (a.body_of body.now)) }
    ensures sizes { IfOk result
        (λ sizes. (held : c.Certificate) (blocks : List c.Block) → IsAt at.now held blocks →
        Remembers (program_at at.now) held.degree blocks at.now.earlier.now →
        IfSolved (a.body_of body.now) (sizes.items ≡ sizes_of (job (program_at at.now) held blocks (task_of at.now.task)).bodies)) }
{
    match body {
        BlockBody::Solved { sigs, hints } => check_solved(at, kept, sigs, hints),
        BlockBody::Refuted { farkas } => {
            if rise(farkas) {
                Ok(Vec::new(at.alloc))
            } else {
                Err(CertFault::Shape { block: at.number })
            }
        }
        BlockBody::Calls { .. } => Ok(Vec::new(at.alloc)),
    }
}
