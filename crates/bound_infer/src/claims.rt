// What a block claims of a function.
ghost use Rattle.std.specs.Prelude.{◌≡◌, ◌∷◌, [], filter, true, IsSome};
ghost use Rattle.call_groups.specs.Read.{ids_of};
ghost use Rattle.cost_free.specs.Blocked.{is_among};
ghost use Rattle.annot_types.specs.Certificate as c;
ghost use Rattle.annot_types.specs.Held.{is_for_function, IfSolved};
ghost use Rattle.annot_types.specs.Read.{block_of, blocks_of, body_of};
ghost use Rattle.rules_plan.specs.Read.{program_in};
ghost use Rattle.bound_infer.specs.Claimed.{IsToldBy};

use crate::kinds::members;
use crate::line::Line;
use annot_types::{Block, BlockBody, Certificate};
use base_poly::Poly;
use cost_free::{Meter, TaskKind};
use raml_syntax::FunId;
use share_normal::NormProgram;

fn is_among(fun: FunId, functions: &[FunId]) -> bool
    ensures { result ≡ is_among fun.0 (ids_of functions.now) }
{
    for function in functions {
        if fun.0 == function.0 {
            return true;
        }
    }
    false
}

// The block is that of the meter for the function's group.
fn is_for_function(program: &NormProgram<'_>, meter: Meter, fun: FunId, block: &Block) -> bool
    ensures { result ≡ is_for_function (program_in program.now) meter fun.0 (block_of block.now) }
{
    match block.task.kind {
        TaskKind::Free { .. } => false,
        TaskKind::With(other) => {
            meter == other && is_among(fun, members(program, block.task.group))
        }
    }
}

/// The one block of the meter for the function's group.
pub fn block_for<'c>(
    program: &NormProgram<'_>,
    certificate: &'c Certificate,
    fun: FunId,
    meter: Meter,
) -> &'c Block
    requires { (block : c.Block)
        × (filter (is_for_function (program_in program.now) meter fun.0) (blocks_of certificate.now.blocks.items) ≡ block ∷ []) }
    ensures { filter (is_for_function (program_in program.now) meter fun.0)
        (blocks_of certificate.now.blocks.items) ≡ block_of result.now ∷ [] }
{
    for block in &certificate.blocks {
        if is_for_function(program, meter, fun, block) {
            return block;
        }
    }
    unreachable!()
}

/// What a block with this body claims of a function that has this bound.
pub fn told(bound: Option<Poly>, body: &BlockBody) -> Line
    requires { IfSolved (body_of body.now) (IsSome bound) }
    ensures { IsToldBy bound (body_of body.now) result }
{
    match body {
        BlockBody::Solved { .. } => match bound {
            Some(poly) => Line::Bound(poly),
            None => unreachable!(),
        },
        BlockBody::Refuted { .. } => Line::NoBound,
        BlockBody::Calls { fun } => Line::Calls(*fun),
    }
}
