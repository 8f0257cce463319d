// What walks take from the blocks of a certificate before a place.
ghost use Rattle.std.specs.Prelude.{◌≡◌, ◌≤◌, length, IfOk, IfSome};
ghost use Rattle.annot_types.specs.Held.{before};
ghost use Rattle.annot_types.specs.Read.{certificate_of};
ghost use Rattle.rules_plan.specs.Read.{program_in};
ghost use Rattle.cert_check.specs.Laws.{IsSmall};
ghost use Rattle.bound_contract.specs.Fronts.{IsFront};

use annot_types::Certificate;
use cert_check::remember_block;
use rules_walk::Earlier;
use share_normal::NormProgram;
use std::alloc::{AllocError, Global};

/// The tables of the blocks before a place.
#[derive(Drop)]
pub(crate) struct Front {
    pub earlier: Earlier,
    pub place: usize,
}

// Those of no blocks.
fn start(
    alloc: Global,
    program: &NormProgram<'_>,
    certificate: &Certificate,
) -> Result<Front, AllocError>
    ensures front { IfOk result (IsFront (program_in program.now) (certificate_of certificate.now)) }
    ensures place { IfOk result (λ front. front.place ≡ 0) }
{
    let _source = program.source();
    let functions = program.functions();
    let earlier = Earlier::new(alloc, functions.len())?;
    Ok(Front { earlier, place: 0 })
}

// The given ones, where they are not behind the place.
fn begun(
    alloc: Global,
    program: &NormProgram<'_>,
    certificate: &Certificate,
    front: Option<Front>,
    place: usize,
) -> Result<Front, AllocError>
    requires front { IfSome front (IsFront (program_in program.now) (certificate_of certificate.now)) }
    ensures front { IfOk result (IsFront (program_in program.now) (certificate_of certificate.now)) }
    ensures low { IfOk result (λ front. front.place ≤ place) }
{
    match front {
        Some(front) if front.place <= place => Ok(front),
        _ => start(alloc, program, certificate),
    }
}

/// The tables of the blocks before a place, from these tables on, where they do not reach behind it.
pub(crate) fn front_at(
    alloc: Global,
    program: &NormProgram<'_>,
    certificate: &Certificate,
    front: Option<Front>,
    place: usize,
) -> Result<Front, AllocError>
    requires front { IfSome front (IsFront (program_in program.now) (certificate_of certificate.now)) }
    requires low { place ≤ length certificate.now.blocks.items }
    requires small { IsSmall (program_in program.now) (certificate_of certificate.now) }
    ensures front { IfOk result (IsFront (program_in program.now) (certificate_of certificate.now)) }
    ensures place { IfOk result (λ front. front.place ≡ place) }
{
    let mut front = begun(alloc, program, certificate, front, place)?;
    for number in front.place..place {
        let block = &certificate.blocks[number];
        remember_block(
            alloc,
            program,
            certificate.degree,
            &mut front.earlier,
            block,
        )?;
    }
    front.place = place;
    Ok(front)
}
