// The verification of a certificate.
ghost use Rattle.std.specs.Prelude.{◌≡◌, None, is_none, IfOk, OnOk, IfErr};
ghost use Rattle.annot_types.specs.Program.{Program};
ghost use Rattle.annot_types.specs.Certificate as c;
ghost use Rattle.annot_types.specs.Read.{certificate_of};
ghost use Rattle.rules_plan.specs.Read.{program_in};
ghost use Rattle.cert_check.specs.Finds.{FirstFault};
ghost use Rattle.cert_check.specs.Read.{fault_of, OfFault};
ghost use Rattle.infer_systems_laws.specs.Tried.{IsOrdered};
ghost use Rattle.bound_infer.specs.Inferred.{IsVerified, VerifyCause};

use crate::blocks::verify_blocks;
use crate::laws::vectors_refute;
use crate::refusal::VerifyFault;
use crate::verified::{Verified, keep};
use annot_types::Certificate;
use cert_check::{CertFault, Checked, check};
use infer_systems_laws::laws::{limits_are_told, normals_are_ordered};
use share_normal::NormProgram;
use std::alloc::Global;

// Whether memory is wanting.
fn is_memory(fault: &CertFault) -> bool
    ensures { result ≡ is_none (fault_of fault.now) }
{
    match fault {
        CertFault::Shape { .. } => false,
        CertFault::Fails { .. } => false,
        CertFault::Leaves { .. } => false,
        CertFault::TooLarge { .. } => false,
        CertFault::NoMemory => true,
    }
}

// What is told where the check finds a fault.
fn refused(fault: CertFault) -> VerifyFault
    ensures { (P : Program) (certificate : c.Certificate) →
        OfFault (fault_of fault) (FirstFault P certificate) → VerifyCause P certificate result }
{
    if is_memory(&fault) {
        VerifyFault::NoMemory
    } else {
        VerifyFault::Cert(fault)
    }
}

// The check of the vectors.
fn verify_checked<'p, 'a>(
    alloc: Global,
    program: &'p NormProgram<'a>,
    checked: Checked<'p, 'a>,
) -> Result<Verified<'p, 'a>, VerifyFault>
    requires program { checked.program ≡ program.now }
    requires passes { FirstFault (program_in program.now) checked.certificate None }
    requires ordered { IsOrdered (program_in program.now) }
    ensures passes { OnOk result (IsVerified (program_in program.now) checked.entry.certificate) }
    ensures kept { IfOk result (λ verified. verified ≡ checked.entry) }
    ensures fault { IfErr result (VerifyCause (program_in program.now) checked.entry.certificate) }
{
    limits_are_told();
    vectors_refute();
    match verify_blocks(alloc, program, checked.certificate()) {
        Ok(()) => Ok(keep(checked)),
        Err(fault) => Err(fault),
    }
}

/// Checks a certificate, and then that the vector of each refuted block refutes its task. Otherwise the
/// first fault is told.
pub fn verify<'p, 'a>(
    alloc: Global,
    program: &'p NormProgram<'a>,
    certificate: Certificate,
) -> Result<Verified<'p, 'a>, VerifyFault>
    ensures passes { OnOk result (IsVerified (program_in program.now) (certificate_of certificate)) }
    ensures kept { IfOk result (λ verified. verified ≡ record { program = program.now; certificate = certificate_of certificate }) }
    ensures fault { IfErr result (VerifyCause (program_in program.now) (certificate_of certificate)) }
{
    let _source = program.source();
    let _groups = program.groups();
    let _functions = program.functions();
    normals_are_ordered();
    match check(alloc, program, certificate) {
        Ok(checked) => verify_checked(alloc, program, checked),
        Err(fault) => Err(refused(fault)),
    }
}
