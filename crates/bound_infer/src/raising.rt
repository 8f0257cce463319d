// The earlier blocks of a meter, raised.
ghost use Rattle.std.specs.Prelude.{◌≡◌, ◌<◌, ◌↔◌, ◌*ℤ◌, ℕ, pos, map, IsTrue, IfOk, IfSome, IfNone, OnOk};
ghost use Rattle.cost_free.specs.Task.{same_meter};
ghost use Rattle.cost_free.specs.Read.{kind_of};
ghost use Rattle.cost_free.specs.Blocked.{is_for_meter};
ghost use Rattle.annot_types.specs.Holds.{raised};
ghost use Rattle.annot_types.specs.Read.{body_of, block_of, blocks_of};
ghost use Rattle.simplex_integers.specs.Wholes.{most};
ghost use Rattle.infer_spec.specs.States.{State};
ghost use Rattle.infer_spec.specs.Places.{BodyFits, IsOfMeter, BlockLeaves};
ghost use Rattle.bound_infer.specs.Raised.{AllFit, FirstUnfit, NoneOf, IsFirstOf};

use crate::body::multiply;
use crate::factor::Factor;
use crate::fault::{RaiseFault, TimesFault};
use annot_types::{Block, BlockBody};
use cost_free::{Meter, TaskKind};
use std::alloc::Global;

fn same_meter(one: Meter, other: Meter) -> bool
    ensures { result ≡ same_meter one other }
{
    match one {
        Meter::Ticks => matches!(other, Meter::Ticks),
        Meter::Cells => matches!(other, Meter::Cells),
        Meter::Work => matches!(other, Meter::Work),
    }
}

fn is_for_meter(meter: Meter, kind: &TaskKind) -> bool
    ensures { result ≡ is_for_meter meter (kind_of kind.now) }
{
    match kind {
        TaskKind::With(other) => same_meter(meter, *other),
        TaskKind::Free { .. } => false,
    }
}

/// One block, raised where it is of the meter.
fn raise_one(
    alloc: Global,
    block: &mut Block,
    meter: Meter,
    factor: &Factor,
) -> Result<(), TimesFault>
    requires { 0 < factor.now }
    ensures raised { OnOk result (block_of block.new ≡ raised meter factor.now (block_of block.old)) }
    ensures fit { OnOk result (IsOfMeter meter (block_of block.old) → BodyFits factor.now (body_of block.old.body)) }
    ensures of_meter { result ≡ Err TimesFault.Leaves → IsOfMeter meter (block_of block.old) }
    ensures leaves { result ≡ Err TimesFault.Leaves → BodyFits factor.now (body_of block.old.body) → ⊥ }
{
    if is_for_meter(meter, &block.task.kind) {
        multiply(alloc, block, factor)
    } else {
        Ok(())
    }
}

/// Multiplies the numbers of all blocks of the meter. Where one does not fit, the first block that has such
/// a number is told, and the blocks before it are raised.
pub fn raise_blocks(
    alloc: Global,
    blocks: &mut [Block],
    meter: Meter,
    factor: &Factor,
) -> Result<(), RaiseFault>
    requires { 0 < factor.now }
    ensures raised { OnOk result (blocks_of blocks.new ≡ map (raised meter factor.now) (blocks_of blocks.old)) }
    ensures fit { OnOk result (AllFit meter factor.now (blocks_of blocks.old)) }
    ensures leaves { (place : ℕ) → result ≡ Err (RaiseFault.Leaves place) → FirstUnfit meter factor.now (blocks_of blocks.old) place }
{
    for place in 0..blocks.len() {
        match raise_one(alloc, &mut blocks[place], meter, factor) {
            Ok(()) => {}
            Err(TimesFault::Leaves) => return Err(RaiseFault::Leaves { block: place }),
            Err(TimesFault::NoMemory) => return Err(RaiseFault::NoMemory),
        }
    }
    Ok(())
}

fn is_solved_for(meter: Meter, block: &Block) -> bool
    ensures { IsTrue result ↔ IsOfMeter meter (block_of block.now) }
{
    is_for_meter(meter, &block.task.kind) && matches!(block.body, BlockBody::Solved { .. })
}

/// The first solved block of the meter.
fn first_of(meter: Meter, blocks: &[Block]) -> Option<usize>
    ensures found { IfSome result (IsFirstOf meter (blocks_of blocks.now)) }
    ensures none { IfNone result (NoneOf meter (blocks_of blocks.now)) }
{
    for place in 0..blocks.len() {
        if is_solved_for(meter, &blocks[place]) {
            return Some(place);
        }
    }
    None
}

/// Multiplies the numbers of all blocks of the meter, and tells its scale multiplied. The first solved block
/// of which a number does not fit, or whose meter's scale does not, is told otherwise.
pub fn raise(
    alloc: Global,
    blocks: &mut [Block],
    meter: Meter,
    scale: i128,
    factor: &Factor,
) -> Result<i128, RaiseFault>
    requires positive { 0 < factor.now }
    requires fits { factor.now < most }
    requires begins { NoneOf meter (blocks_of blocks.old) → scale ≡ pos 1 }
    ensures raised { OnOk result (blocks_of blocks.new ≡ map (raised meter factor.now) (blocks_of blocks.old)) }
    ensures scale { IfOk result (λ new. new ≡ pos factor.now *ℤ scale) }
    ensures each { OnOk result (AllFit meter factor.now (blocks_of blocks.old)) }
    ensures fit { OnOk result
        ((st : State) → st.blocks ≡ blocks_of blocks.old → pos (st.scales meter) ≡ scale →
        (place : ℕ) → BlockLeaves meter factor.now st place → ⊥) }
    ensures leaves { (place : ℕ) → result ≡ Err (RaiseFault.Leaves place) → (st : State) →
        st.blocks ≡ blocks_of blocks.old → pos (st.scales meter) ≡ scale → BlockLeaves meter factor.now st place }
{
    match factor.times(scale) {
        Some(product) => match raise_blocks(alloc, blocks, meter, factor) {
            Ok(()) => Ok(product),
            Err(fault) => Err(fault),
        },
        None => match first_of(meter, blocks) {
            Some(block) => Err(RaiseFault::Leaves { block }),
            None => Err(RaiseFault::Leaves { block: 0 }),
        },
    }
}
