// Reading a block.
ghost use Rattle.std.specs.Prelude.{◌≡◌, ◌^◌, IfOk, option_map};
ghost use Rattle.serde_json.specs.View.{view};
ghost use Rattle.cert_json.specs.Read.{block_of, body_of};
ghost use Rattle.cert_json.specs.Reading as spec;
ghost use Rattle.cert_json.specs.Reading.{number_of, natural_of, with_of, free_of, is_free, solved_of, refuted_of, calls_of};
ghost use Rattle.cert_json.specs.ReadPieces.{piece_of, pieces_of};
ghost use Rattle.cert_json.specs.Pieces.{body_from, block_from};
ghost use Rattle.cost_free.specs.Read.{task_of};

use crate::pieces::{Piece, Pieces, block_pieces};
use crate::reading::{all_hints, entries, position, sigs};
use annot_types::{Block, BlockBody};
use cost_free::{Meter, Task, TaskKind};
use raml_syntax::FunId;
use serde_json::Value;
use std::alloc::{AllocError, Global};

// The meter of this name.
fn meter(work: bool, name: &str) -> Option<Meter>
    ensures { result ≡ spec.meter_of work name.now }
{
    match name {
        "ticks" => Some(Meter::Ticks),
        "cells" => Some(Meter::Cells),
        "work" if work => Some(Meter::Work),
        _ => None,
    }
}

pub fn with_task(work: bool, group: &Value, kind: &Value) -> Option<Task>
    ensures { option_map task_of result ≡ with_of work (view group.now) (view kind.now) }
{
    let group = position(group)?;
    let meter = meter(work, kind.as_str()?)?;
    Some(Task {
        group,
        kind: TaskKind::With(meter),
    })
}

fn is_free(kind: &Value) -> bool
    ensures { result ≡ is_free (view kind.now) }
{
    match kind.as_str() {
        Some(name) => name == "free",
        None => false,
    }
}

fn budget(value: &Value) -> Option<u8>
    ensures { result ≡ natural_of 256 (view value.now) }
{
    let number = value.as_u64()?;
    if number < 256 {
        Some(number as u8)
    } else {
        None
    }
}

pub fn free_task(
    budget_value: &Value,
    fun: &Value,
    group: &Value,
    kind: &Value,
    target: &Value,
) -> Option<Task>
    ensures { option_map task_of result
        ≡ free_of (view budget_value.now) (view fun.now) (view group.now) (view kind.now) (view target.now) }
{
    if is_free(kind) {
        let group = position(group)?;
        let budget = budget(budget_value)?;
        let fun = position(fun)?;
        let target = position(target)?;
        Some(Task {
            group,
            kind: TaskKind::Free {
                budget,
                fun: FunId(fun),
                target,
            },
        })
    } else {
        None
    }
}

fn solved(alloc: Global, hints: &Value, sigs_value: &Value) -> Result<Option<BlockBody>, AllocError>
    ensures { IfOk result (λ o. option_map body_of o ≡ solved_of number_of (view hints.now) (view sigs_value.now)) }
{
    let Some(hints) = all_hints(alloc, hints)? else {
        return Ok(None);
    };
    let Some(sigs) = sigs(alloc, sigs_value)? else {
        return Ok(None);
    };
    Ok(Some(BlockBody::Solved { sigs, hints }))
}

fn refuted(alloc: Global, farkas: &Value) -> Result<Option<BlockBody>, AllocError>
    ensures { IfOk result (λ o. option_map body_of o ≡ refuted_of number_of (view farkas.now)) }
{
    match entries(alloc, farkas)? {
        Some(farkas) => Ok(Some(BlockBody::Refuted { farkas })),
        None => Ok(None),
    }
}

fn calls(fun: &Value) -> Option<BlockBody>
    ensures { option_map body_of result ≡ calls_of (view fun.now) }
{
    let fun = position(fun)?;
    Some(BlockBody::Calls { fun: FunId(fun) })
}

fn body<'a>(alloc: Global, piece: Piece<'a>) -> Result<Option<BlockBody>, AllocError>
    ensures { IfOk result (λ o. option_map body_of o ≡ body_from number_of (piece_of piece.entry)) }
{
    match piece {
        Piece::Solved { hints, sigs } => solved(alloc, hints, sigs),
        Piece::Refuted { farkas } => refuted(alloc, farkas),
        Piece::Calls { fun } => Ok(calls(fun)),
    }
}

fn whole<'a>(alloc: Global, pieces: Pieces<'a>) -> Result<Option<Block>, AllocError>
    ensures { IfOk result (λ o. option_map block_of o ≡ block_from number_of (pieces_of pieces.entry)) }
{
    let task = pieces.task;
    match body(alloc, pieces.piece)? {
        Some(body) => Ok(Some(Block { task, body })),
        None => Ok(None),
    }
}

// A block, by the keys that the object has.
#[tactic(auto, using(crate::proofs::Keyed::pieces_read))]
pub fn block(alloc: Global, work: bool, value: &Value) -> Result<Option<Block>, AllocError>
    ensures { IfOk result (λ o. option_map block_of o ≡ spec.block_of number_of work (view value.now)) }
{
    match block_pieces(alloc, work, value)? {
        Some(pieces) => whole(alloc, pieces),
        None => Ok(None),
    }
}
