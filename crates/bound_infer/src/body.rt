// Blocks, multiplied.
ghost use Rattle.std.specs.Prelude.{◌≡◌, ◌<◌, map, IfOk, OnOk};
ghost use Rattle.annot_types.specs.Certificate as c;
ghost use Rattle.annot_types.specs.Holds.{times_body, times_block};
ghost use Rattle.annot_types.specs.Read.{sig_of, hints_of, body_of, block_of};
ghost use Rattle.infer_spec.specs.Places.{BodyFits};

use crate::factor::Factor;
use crate::fault::TimesFault;
use crate::sigs::{times_all_hints, times_sigs};
use annot_types::{Block, BlockBody, Hint, Sig};
use std::alloc::Global;

/// Signatures and hints with their numbers multiplied.
fn times_solved(
    alloc: Global,
    sigs: &[Sig],
    hints: &[Vec<Hint>],
    factor: &Factor,
) -> Result<BlockBody, TimesFault>
    requires { 0 < factor.now }
    ensures made { IfOk result (λ made. body_of made ≡ times_body factor.now (c.Solved (map sig_of sigs.now) (map hints_of hints.now))) }
    ensures fit { IfOk result (λ _. BodyFits factor.now (c.Solved (map sig_of sigs.now) (map hints_of hints.now))) }
    ensures leaves { result ≡ Err TimesFault.Leaves → BodyFits factor.now (c.Solved (map sig_of sigs.now) (map hints_of hints.now)) → ⊥ }
{
    let sigs = match times_sigs(alloc, sigs, factor) {
        Ok(sigs) => sigs,
        Err(fault) => return Err(fault),
    };
    match times_all_hints(alloc, hints, factor) {
        Ok(hints) => Ok(BlockBody::Solved { sigs, hints }),
        Err(fault) => Err(fault),
    }
}

/// Multiplies the numbers of a block that is solved.
pub(crate) fn multiply(alloc: Global, block: &mut Block, factor: &Factor) -> Result<(), TimesFault>
    requires { 0 < factor.now }
    ensures made { OnOk result (block_of block.new ≡ times_block factor.now (block_of block.old)) }
    ensures fit { OnOk result (BodyFits factor.now (body_of block.old.body)) }
    ensures leaves { result ≡ Err TimesFault.Leaves → BodyFits factor.now (body_of block.old.body) → ⊥ }
{
    match &block.body {
        BlockBody::Solved { sigs, hints } => match times_solved(alloc, sigs, hints, factor) {
            Ok(body) => {
                block.body = body;
                Ok(())
            }
            Err(fault) => Err(fault),
        },
        BlockBody::Refuted { .. } => Ok(()),
        BlockBody::Calls { .. } => Ok(()),
    }
}
