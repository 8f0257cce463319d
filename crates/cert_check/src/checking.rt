// The check of a certificate.
ghost use Rattle.std.specs.Prelude.{◌≡◌, ◌≤◌, [], None, IfOk, OnOk, IfErr};
ghost use Rattle.annot_types.specs.Read.{blocks_of, certificate_of};
ghost use Rattle.rules_plan.specs.Read.{program_in, AreKept};
ghost use Rattle.cert_check.specs.At.{Tells};
ghost use Rattle.annot_types.specs.Held.{Held};
ghost use Rattle.cert_check.specs.Finds.{BlocksFind, FirstFault};
ghost use Rattle.cert_check.specs.Laws.{IsProper, IsSmall, IsFaultless};
ghost use Rattle.cert_check.specs.Read.{fault_of, OfFault};

use crate::blocks::{check_block, check_end};
use crate::checked::{Checked, keep};
use crate::fault::CertFault;
use crate::head::head_fits;
use crate::laws::faultless_exactly;
use crate::limits::stays_small;
use annot_types::Certificate;
use cost_free::Schedule;
use rules_plan::KeptPlans;
use rules_spec::laws::totals_stay_small;
use rules_walk::Earlier;
use share_normal::NormProgram;
use std::alloc::Global;

// The blocks, one after the other, and the end of the schedule.
fn check_blocks(
    alloc: Global,
    program: &NormProgram<'_>,
    certificate: &Certificate,
    kept: &mut KeptPlans,
) -> Result<(), CertFault>
    requires degree { certificate.now.degree ≤ 4 }
    requires kept { AreKept (program_in program.now) kept.old }
    ensures { Tells result (BlocksFind (program_in program.now)
        (certificate_of certificate.now) [] (blocks_of certificate.now.blocks.items)) }
{
    let work = certificate.work_scale.is_some();
    let functions = program.functions();
    let results = program.results();
    let mut schedule = Schedule::new(alloc, results, program.groups(), certificate.degree, work);
    let Ok(mut earlier) = Earlier::new(alloc, functions.len()) else {
        return Err(CertFault::NoMemory);
    };
    for number in 0..certificate.blocks.len() {
        let block = &certificate.blocks[number];
        if let Err(fault) = check_block(
            alloc,
            program,
            certificate,
            &mut schedule,
            &mut earlier,
            kept,
            number,
            block,
        ) {
            return Err(fault);
        }
    }
    let count = certificate.blocks.len();
    check_end(alloc, program, certificate, &mut schedule, &earlier, count)
}

/// The certificate, where it has no fault; otherwise its first fault.
pub fn check<'p, 'a>(
    alloc: Global,
    program: &'p NormProgram<'a>,
    certificate: Certificate,
) -> Result<Checked<'p, 'a>, CertFault>
    ensures fits { OnOk result (FirstFault (program_in program.now) (certificate_of certificate) None) }
    ensures valid { OnOk result (IsFaultless (program_in program.now) (certificate_of certificate)) }
    ensures kept { IfOk result (λ checked. checked ≡ record { program = program.now; certificate = certificate_of certificate }) }
    ensures fault { IfErr result (λ fault. OfFault (fault_of fault) (FirstFault (program_in program.now) (certificate_of certificate))) }
    ensures invalid { IfErr result
        (λ fault. OfFault (fault_of fault) (λ _. IsFaultless (program_in program.now) (certificate_of certificate) → ⊥)) }
{
    check_with(alloc, program, certificate, KeptPlans::new(alloc))
}

/// The same by plans of the program that were made before, as far as they go.
pub fn check_with<'p, 'a>(
    alloc: Global,
    program: &'p NormProgram<'a>,
    certificate: Certificate,
    mut kept: KeptPlans,
) -> Result<Checked<'p, 'a>, CertFault>
    requires plans { AreKept (program_in program.now) kept }
    ensures fits { OnOk result (FirstFault (program_in program.now) (certificate_of certificate) None) }
    ensures valid { OnOk result (IsFaultless (program_in program.now) (certificate_of certificate)) }
    ensures kept { IfOk result (λ checked. checked ≡ record { program = program.now; certificate = certificate_of certificate }) }
    ensures fault { IfErr result (λ fault. OfFault (fault_of fault) (FirstFault (program_in program.now) (certificate_of certificate))) }
    ensures invalid { IfErr result
        (λ fault. OfFault (fault_of fault) (λ _. IsFaultless (program_in program.now) (certificate_of certificate) → ⊥)) }
{
    let _source = program.source();
    let _functions = program.functions();
    let _groups = program.groups();
    if !head_fits(&certificate) {
        return Err(CertFault::Shape { block: 0 });
    }
    match check_blocks(alloc, program, &certificate, &mut kept) {
        Err(fault) => Err(fault),
        Ok(()) => Ok(keep(program, certificate)),
    }
}

/// The same of a certificate that is known to be held. Where its numbers are small, nothing is walked.
pub fn check_held<'p, 'a>(
    alloc: Global,
    program: &'p NormProgram<'a>,
    certificate: Certificate,
    kept: KeptPlans,
) -> Result<Checked<'p, 'a>, CertFault>
    requires plans { AreKept (program_in program.now) kept }
    requires proper { IsProper (program_in program.now) }
    requires held { Held (program_in program.now) (certificate_of certificate) }
    requires small { IsSmall (program_in program.now) (certificate_of certificate) }
    ensures fits { OnOk result (FirstFault (program_in program.now) (certificate_of certificate) None) }
    ensures valid { OnOk result (IsFaultless (program_in program.now) (certificate_of certificate)) }
    ensures kept { IfOk result (λ checked. checked ≡ record { program = program.now; certificate = certificate_of certificate }) }
    ensures fault { IfErr result (λ fault. OfFault (fault_of fault) (FirstFault (program_in program.now) (certificate_of certificate))) }
    ensures invalid { IfErr result
        (λ fault. OfFault (fault_of fault) (λ _. IsFaultless (program_in program.now) (certificate_of certificate) → ⊥)) }
{
    faultless_exactly();
    totals_stay_small();
    if stays_small(alloc, &certificate, &kept) {
        return Ok(keep(program, certificate));
    }
    check_with(alloc, program, certificate, kept)
}
