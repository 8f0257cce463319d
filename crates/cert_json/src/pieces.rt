// Blocks by their keys: the task, and the values of which the rest is read.
ghost use Rattle.std.specs.Prelude.{◌≡◌, IfOk, map, option_map};
ghost use Rattle.serde_json.specs.View.{view};
ghost use Rattle.cost_free.specs.Read.{task_of};
ghost use Rattle.cert_json.specs.Pieces as spec;
ghost use Rattle.cert_json.specs.Pieces.{pieced, solved_in, solved_free_in, other_in, other_free_in, solved_free_or, refuted_or};
ghost use Rattle.cert_json.specs.Pieces.{refuted_free_or, calls_or, calls_free_or};
ghost use Rattle.cert_json.specs.ReadPieces.{piece_of, pieces_of};

use crate::block::{free_task, with_task};
use crate::reading::fields;
use cost_free::Task;
use serde_json::Value;
use std::alloc::{AllocError, Global};

// What the rest of a block is read of.
#[derive(Clone, Copy)]
pub enum Piece<'a> {
    Solved { hints: &'a Value, sigs: &'a Value },
    Refuted { farkas: &'a Value },
    Calls { fun: &'a Value },
}

#[derive(Clone, Copy)]
pub struct Pieces<'a> {
    pub task: Task,
    pub piece: Piece<'a>,
}

fn pieced<'a>(task: Option<Task>, piece: Piece<'a>) -> Option<Pieces<'a>>
    ensures { option_map pieces_of result ≡ pieced (option_map task_of task) (piece_of piece.entry) }
{
    match task {
        Some(task) => Some(Pieces { task, piece }),
        None => None,
    }
}

fn solved_with<'a>(work: bool, values: &[&'a Value]) -> Option<Pieces<'a>>
    ensures { option_map pieces_of result ≡ solved_in work (map (λ v. view v.now) values.now) }
{
    match values {
        [group, hints, kind, sigs] => {
            let piece = Piece::Solved {
                hints: *hints,
                sigs: *sigs,
            };
            pieced(with_task(work, *group, *kind), piece)
        }
        _ => None,
    }
}

fn solved_free<'a>(values: &[&'a Value]) -> Option<Pieces<'a>>
    ensures { option_map pieces_of result ≡ solved_free_in (map (λ v. view v.now) values.now) }
{
    match values {
        [budget, fun, group, hints, kind, sigs, target] => {
            let piece = Piece::Solved {
                hints: *hints,
                sigs: *sigs,
            };
            pieced(free_task(*budget, *fun, *group, *kind, *target), piece)
        }
        _ => None,
    }
}

fn refuted_with<'a>(work: bool, values: &[&'a Value]) -> Option<Pieces<'a>>
    ensures { option_map pieces_of result ≡ other_in spec.Refuted work (map (λ v. view v.now) values.now) }
{
    match values {
        [farkas, group, kind] => {
            let piece = Piece::Refuted { farkas: *farkas };
            pieced(with_task(work, *group, *kind), piece)
        }
        _ => None,
    }
}

fn refuted_free<'a>(values: &[&'a Value]) -> Option<Pieces<'a>>
    ensures { option_map pieces_of result ≡ other_free_in spec.Refuted (map (λ v. view v.now) values.now) }
{
    match values {
        [budget, farkas, fun, group, kind, target] => {
            let piece = Piece::Refuted { farkas: *farkas };
            pieced(free_task(*budget, *fun, *group, *kind, *target), piece)
        }
        _ => None,
    }
}

fn calls_with<'a>(work: bool, values: &[&'a Value]) -> Option<Pieces<'a>>
    ensures { option_map pieces_of result ≡ other_in spec.Calls work (map (λ v. view v.now) values.now) }
{
    match values {
        [fun, group, kind] => {
            let piece = Piece::Calls { fun: *fun };
            pieced(with_task(work, *group, *kind), piece)
        }
        _ => None,
    }
}

fn calls_free<'a>(values: &[&'a Value]) -> Option<Pieces<'a>>
    ensures { option_map pieces_of result ≡ other_free_in spec.Calls (map (λ v. view v.now) values.now) }
{
    match values {
        [budget, called, fun, group, kind, target] => {
            let piece = Piece::Calls { fun: *called };
            pieced(free_task(*budget, *fun, *group, *kind, *target), piece)
        }
        _ => None,
    }
}

// The pieces of a block, by the keys that the object has.
pub fn block_pieces<'a>(
    alloc: Global,
    work: bool,
    value: &'a Value,
) -> Result<Option<Pieces<'a>>, AllocError>
    ensures { IfOk result (λ o. option_map pieces_of o ≡ spec.block_pieces work (view value.now)) }
{
    match fields(alloc, value, &["group", "hints", "kind", "sigs"])? {
        Some(values) => Ok(solved_with(work, &values)),
        None => solved_free_or(alloc, work, value),
    }
}

fn solved_free_or<'a>(
    alloc: Global,
    work: bool,
    value: &'a Value,
) -> Result<Option<Pieces<'a>>, AllocError>
    ensures { IfOk result (λ o. option_map pieces_of o ≡ solved_free_or work (view value.now)) }
{
    let keys = [
        "budget", "function", "group", "hints", "kind", "sigs", "target",
    ];
    match fields(alloc, value, &keys)? {
        Some(values) => Ok(solved_free(&values)),
        None => refuted_or(alloc, work, value),
    }
}

fn refuted_or<'a>(
    alloc: Global,
    work: bool,
    value: &'a Value,
) -> Result<Option<Pieces<'a>>, AllocError>
    ensures { IfOk result (λ o. option_map pieces_of o ≡ refuted_or work (view value.now)) }
{
    match fields(alloc, value, &["farkas", "group", "kind"])? {
        Some(values) => Ok(refuted_with(work, &values)),
        None => refuted_free_or(alloc, work, value),
    }
}

fn refuted_free_or<'a>(
    alloc: Global,
    work: bool,
    value: &'a Value,
) -> Result<Option<Pieces<'a>>, AllocError>
    ensures { IfOk result (λ o. option_map pieces_of o ≡ refuted_free_or work (view value.now)) }
{
    let keys = ["budget", "farkas", "function", "group", "kind", "target"];
    match fields(alloc, value, &keys)? {
        Some(values) => Ok(refuted_free(&values)),
        None => calls_or(alloc, work, value),
    }
}

fn calls_or<'a>(
    alloc: Global,
    work: bool,
    value: &'a Value,
) -> Result<Option<Pieces<'a>>, AllocError>
    ensures { IfOk result (λ o. option_map pieces_of o ≡ calls_or work (view value.now)) }
{
    match fields(alloc, value, &["calls", "group", "kind"])? {
        Some(values) => Ok(calls_with(work, &values)),
        None => calls_free_or(alloc, value),
    }
}

fn calls_free_or<'a>(alloc: Global, value: &'a Value) -> Result<Option<Pieces<'a>>, AllocError>
    ensures { IfOk result (λ o. option_map pieces_of o ≡ calls_free_or (view value.now)) }
{
    let keys = ["budget", "calls", "function", "group", "kind", "target"];
    match fields(alloc, value, &keys)? {
        Some(values) => Ok(calls_free(&values)),
        None => Ok(None),
    }
}
