// The tasks of a certificate, one after the other.
ghost use Rattle.std.specs.Prelude.{◌≡◌, ◌≤◌};
ghost use Rattle.annot_types.specs.Holds as h;
ghost use Rattle.cost_free.specs.Read.{kind_of, task_of};
ghost use Rattle.rules_plan.specs.Read.{program_in};
ghost use Rattle.constraint_gen.specs.Cause.{IsWithin};

use crate::prices::{Prices, prices_of};
use crate::refusal::Refusal;
use crate::text::{members, push_task};
use annot_types::{Block, BlockBody, Certificate};
use call_groups::group_calls;
use constraint_gen::{plans, rows_by};
use cost_free::{Task, TaskKind};
use rules_plan::{FunctionPlan, GroupPlans};
use rules_walk::Earlier;
use share_normal::{NormProgram, normalise};
use simple_types::Typed;
use std::alloc::{AllocError, Global};

/// The rows of each task of a certificate that was tried.
pub fn rows_of(alloc: Global, typed: &Typed, certificate: &Certificate) -> Result<String, Refusal> {
    let groups = group_calls(alloc, typed.program())?;
    let program = normalise(alloc, typed, groups)?;
    all_rows(alloc, &program, certificate)
}

// The same of a program in normal form, each over the blocks before it.
fn all_rows(
    alloc: Global,
    program: &NormProgram<'_>,
    certificate: &Certificate,
) -> Result<String, Refusal> {
    let mut out = String::new(alloc);
    let mut earlier = Earlier::new(alloc, program.functions().len())?;
    let d = certificate.degree;
    for place in 0..certificate.blocks.len() {
        let (before, behind) = certificate.blocks.split_at(place);
        if let Some(block) = behind.first() {
            let prices = prices_of(certificate, block.task.kind, before);
            push_block(alloc, &mut out, program, d, &mut earlier, block, prices)?;
        }
    }
    Ok(out)
}

// The budget of a task, at degree `d`.
fn budget_of(d: u8, task: &Task) -> u8
    ensures { result ≡ h.budget_of d (kind_of task.now.kind) }
{
    match task.kind {
        TaskKind::Free { budget, .. } => budget,
        TaskKind::With(_) => d,
    }
}

// The rows of a task, by the plans of its group.
fn push_tried(
    alloc: Global,
    out: &mut String,
    program: &NormProgram<'_>,
    d: u8,
    earlier: &Earlier,
    task: &Task,
    prices: &Prices,
    plans: &GroupPlans,
) -> Result<(), Refusal>
    requires budget { h.budget_of d (kind_of task.now.kind) ≤ 4 }
    requires within { IsWithin (program_in program.now) d (task_of task.now) }
{
    let Ok(scale) = i128::try_from(prices.scale) else {
        return Err(Refusal::Task);
    };
    let bodies = plans.over(alloc, earlier)?;
    match rows_by(alloc, program, d, earlier, task, scale, &bodies) {
        Ok(system) => Ok(push_task(alloc, out, program, task, &bodies, &system, prices.raised)?),
        Err(_) => Err(Refusal::Task),
    }
}

// The rows of the task of a block, which is then one of the blocks before the next task.
fn push_block(
    alloc: Global,
    out: &mut String,
    program: &NormProgram<'_>,
    d: u8,
    earlier: &mut Earlier,
    block: &Block,
    prices: Prices,
) -> Result<(), Refusal> {
    let task = &block.task;
    if budget_of(d, task) > 4 {
        return Err(Refusal::Task);
    }
    match plans(alloc, program, d, None, task) {
        Err(_) => Err(Refusal::Task),
        Ok(plans) => {
            if was_tried(&block.body) {
                push_tried(alloc, out, program, d, earlier, task, &prices, &plans)?;
            }
            Ok(add(alloc, program, d, earlier, block, &plans.functions)?)
        }
    }
}

fn was_tried(body: &BlockBody) -> bool {
    match body {
        BlockBody::Solved { .. } | BlockBody::Refuted { .. } => true,
        BlockBody::Calls { .. } => false,
    }
}

// The block is one of those before the next task.
fn add(
    alloc: Global,
    program: &NormProgram<'_>,
    d: u8,
    earlier: &mut Earlier,
    block: &Block,
    plans: &[FunctionPlan],
) -> Result<(), AllocError> {
    let functions = members(program, block.task.group);
    let mut sizes = Vec::with_capacity(alloc, plans.len())?;
    for plan in plans {
        sizes.push((plan.args, plan.result))?;
    }
    earlier.add(alloc, d, block, functions, &sizes)
}
