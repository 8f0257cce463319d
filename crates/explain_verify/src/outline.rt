// What is kept of a certificate.
ghost use Rattle.std.specs.Prelude.{◌≡◌, map, option_map, slice_get, take, IfOk};
ghost use Rattle.annot_types.specs.Certificate.{outcome, has_work};
ghost use Rattle.annot_types.specs.Read.{certificate_of, blocks_of};
ghost use Rattle.cost_free.specs.Read.{task_of, outcomes_of};
ghost use Rattle.explain_verify.specs.Told.{task_in};
ghost use Rattle.explain_verify.specs.Read.{IsOutline};

use annot_types::{Block, Certificate};
use cert_check::done_as;
use cost_free::{Done, Task};
use std::alloc::{AllocError, Global};

/// What is kept of a certificate while it is verified: its degree, whether it counts work, and its tasks, each with how it
/// came out.
#[derive(Drop)]
pub(crate) struct Outline {
    pub(crate) degree: u8,
    pub(crate) work: bool,
    pub(crate) done: Vec<(Task, Done)>,
}

impl Outline {
    pub(crate) fn of(alloc: Global, certificate: &Certificate) -> Result<Outline, AllocError>
        ensures { IfOk result (IsOutline (certificate_of certificate.now)) }
    {
        Ok(Outline {
            degree: certificate.degree,
            work: certificate.work_scale.is_some(),
            done: outcomes(alloc, &certificate.blocks)?,
        })
    }

    /// The task of a block.
    pub(crate) fn task(&self, block: usize) -> Option<Task>
        ensures { option_map task_of result ≡ task_in (outcomes_of self.now.done.items) block }
    {
        match self.done.get(block) {
            Some((task, _)) => Some(*task),
            None => None,
        }
    }

    /// The blocks before one.
    pub(crate) fn before(&self, block: usize) -> &[(Task, Done)]
        ensures { outcomes_of result.now ≡ take block (outcomes_of self.now.done.items) }
    {
        if block < self.done.len() {
            &self.done[..block]
        } else {
            &self.done
        }
    }
}

/// How each block came out.
fn outcomes(alloc: Global, blocks: &[Block]) -> Result<Vec<(Task, Done)>, AllocError>
    ensures { IfOk result (λ done. outcomes_of done.items ≡ map outcome (blocks_of blocks.now)) }
{
    let mut done = Vec::with_capacity(alloc, blocks.len())?;
    for block in blocks {
        done.push((block.task, done_as(&block.body)))?;
    }
    Ok(done)
}
