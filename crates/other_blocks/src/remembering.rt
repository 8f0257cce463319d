// What walks take from the first blocks of a certificate.
ghost use Rattle.std.specs.Prelude.{◌≤◌, length, IfOk};
ghost use Rattle.annot_types.specs.Held.{before};
ghost use Rattle.annot_types.specs.Read.{certificate_of};
ghost use Rattle.rules_walk.specs.Remembers.{Remembers};
ghost use Rattle.rules_plan.specs.Read.{program_in};
ghost use Rattle.cert_check.specs.Laws.{IsSmall};

use annot_types::Certificate;
use cert_check::remember_block;
use rules_walk::Earlier;
use share_normal::NormProgram;
use std::alloc::{AllocError, Global};

/// The tables of the blocks before a place: what walks take from them. The certificate is within the
/// limits.
pub fn tables(
    alloc: Global,
    program: &NormProgram<'_>,
    certificate: &Certificate,
    place: usize,
) -> Result<Earlier, AllocError>
    requires low { place ≤ length certificate.now.blocks.items }
    requires small { IsSmall (program_in program.now) (certificate_of certificate.now) }
    ensures { IfOk result (Remembers (program_in program.now) certificate.now.degree (before (certificate_of certificate.now) place)) }
{
    let _source = program.source();
    let functions = program.functions();
    let mut earlier = Earlier::new(alloc, functions.len())?;
    for number in 0..place {
        let block = &certificate.blocks[number];
        remember_block(alloc, program, certificate.degree, &mut earlier, block)?;
    }
    Ok(earlier)
}
