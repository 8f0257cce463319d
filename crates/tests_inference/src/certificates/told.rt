// What the checkers answer, as text.
ghost use Rattle.std.specs.Prelude.{◌≡◌, IsTrue};
ghost use Rattle.cost_free.specs.declared.task.Meter.{Meter as Counted};
ghost use Rattle.cost_free.specs.Read.{kind_of};
ghost use Rattle.cost_free.specs.Task.{With};
ghost use Rattle.annot_types.specs.Certificate.{IsSolved};
ghost use Rattle.annot_types.specs.Read.{body_of};

use crate::programs::{certificate, typed_program};
use annot_types::{Block, BlockBody};
use call_groups::group_calls;
use cert_check::{CertFault, Checked, check};
use cost_free::{Meter, Task, TaskKind};
use other_blocks::{OtherBlock, other, place_of as place_of_task};
use poly_text::print;
use raml_syntax::FunId;
use share_normal::normalise;
use std::alloc::{AllocError, Global};
use std::test::Fail;

/// What is asked of another block: its number, its factor, and whose bound it is to tell.
#[derive(Clone, Copy)]
pub(crate) struct Other {
    pub(crate) place: usize,
    pub(crate) times: i128,
    pub(crate) fun: FunId,
}

fn is_solved(body: &BlockBody) -> bool
    ensures { IsTrue result → IsSolved (body_of body.now) }
{
    match body {
        BlockBody::Solved { .. } => true,
        BlockBody::Refuted { .. } | BlockBody::Calls { .. } => false,
    }
}

fn has_cost(kind: TaskKind) -> bool
    ensures { IsTrue result → (meter : Counted) × (kind_of kind ≡ With meter) }
{
    match kind {
        TaskKind::With(_) => true,
        TaskKind::Free { .. } => false,
    }
}

// The block at a place of a certificate.
fn block_at(alloc: Global, text: &str, place: usize) -> Result<Block, Fail> {
    let certificate = certificate(alloc, text)?;
    match certificate.blocks.into_iter().nth(place) {
        Some(block) => Ok(block),
        None => Err(Fail::from("there is no such block")),
    }
}

fn bound_of(alloc: Global, found: &OtherBlock<'_, '_>, fun: FunId) -> Result<String, Fail> {
    if !found.has(fun) {
        return Err(Fail::from("the function is not of the group"));
    }
    let poly = found.bound(alloc, fun)?;
    Ok(print(alloc, &poly)?)
}

fn told_over(
    alloc: Global,
    checked: &Checked<'_, '_>,
    block: Block,
    asked: &Other,
) -> Result<String, Fail> {
    if asked.times <= 0 || !is_solved(&block.body) || !has_cost(block.task.kind) {
        return Err(Fail::from("it is no other block"));
    }
    if place_of_task(&block.task, &checked.certificate().blocks).is_none() {
        return Err(Fail::from("there is no such task"));
    }
    match other(alloc, checked, block, asked.times) {
        Ok(found) => bound_of(alloc, &found, asked.fun),
        Err(fault) => Ok(cert_fault(alloc, fault)?),
    }
}

/// What is answered to a block of the certificate with a part changed, in the place of the block of its
/// task: the bound that it tells, or its fault.
pub(crate) fn told_of_other(
    alloc: Global,
    source: &str,
    text: &str,
    old: &str,
    new: &str,
    asked: &Other,
) -> Result<String, Fail> {
    let typed = typed_program(alloc, source)?;
    let groups = group_calls(alloc, typed.program())?;
    let program = normalise(alloc, &typed, groups)?;
    let Some((front, rest)) = text.split_once(old) else {
        return Err(Fail::from("there is no such part"));
    };
    let changed = format!(in alloc; "{front}{new}{rest}")?;
    let block = block_at(alloc, &changed, asked.place)?;
    let held = certificate(alloc, text)?;
    match check(alloc, &program, held) {
        Ok(checked) => told_over(alloc, &checked, block, asked),
        Err(fault) => Ok(cert_fault(alloc, fault)?),
    }
}

/// A fault of a certificate, as text.
pub(crate) fn cert_fault(alloc: Global, fault: CertFault) -> Result<String, AllocError> {
    match fault {
        CertFault::Shape { block } => format!(in alloc; "block {block} is not in the schedule"),
        CertFault::Fails { block, path, index } => {
            let path = path_text(alloc, &path)?;
            format!(in alloc; "block {block} fails at {path} index {index}")
        }
        CertFault::Leaves { block, path, index } => {
            let path = path_text(alloc, &path)?;
            format!(in alloc; "overflow at block {block} at {path} index {index}")
        }
        CertFault::TooLarge { task } => {
            let task = task_text(alloc, &task)?;
            format!(in alloc; "too large: {task}")
        }
        CertFault::NoMemory => Err(AllocError),
    }
}

fn task_text(alloc: Global, task: &Task) -> Result<String, AllocError> {
    let group = task.group;
    match task.kind {
        TaskKind::Free {
            budget,
            fun,
            target,
        } => format!(in alloc;
            "group {group} budget {budget} function {} target {target}",
            fun.0
        ),
        TaskKind::With(meter) => format!(in alloc; "group {group} {}", meter_word(meter)),
    }
}

fn path_text(alloc: Global, path: &[u32]) -> Result<String, AllocError> {
    let mut text = String::new(alloc);
    for number in path {
        if !text.is_empty() {
            text.push_str(".")?;
        }
        text.push_str(&format!(in alloc; "{number}")?)?;
    }
    Ok(text)
}

fn meter_word(meter: Meter) -> &'static str {
    match meter {
        Meter::Ticks => "ticks",
        Meter::Cells => "cells",
        Meter::Work => "work",
    }
}
