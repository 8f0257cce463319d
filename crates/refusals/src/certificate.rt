// Faults of certificates, as refusals.
ghost use Rattle.cert_check.specs.Read.{fault_of};
ghost use Rattle.refusals.specs.Refusals.{JsonRefusal, CheckRefusal, IsToldOr, names_in};

use crate::answer::Refusal;
use crate::line::{overflow, too_large};
use crate::status::{CertAnswer, Status};
use bound_infer::LeavesAt;
use cert_check::CertFault;
use cert_json::JsonFault;
use constraint_gen::What;
use refusal_text::{certificate_line, json_line};
use share_normal::NormProgram;
use std::alloc::Global;

/// A fault of the text.
pub fn json_refusal(alloc: Global, fault: JsonFault) -> Refusal
    ensures { JsonRefusal fault result }
{
    match fault {
        JsonFault::NoMemory => Refusal::no_memory(),
        fault => {
            let line = json_line(alloc, fault);
            Refusal::told(Status::Certificate(CertAnswer::Json(fault)), line)
        }
    }
}

/// Why the check of a certificate refuses it.
pub fn check_refusal(alloc: Global, program: &NormProgram<'_>, fault: CertFault) -> Refusal
    ensures { CheckRefusal (names_in program.now) (fault_of fault) result }
{
    match fault {
        CertFault::TooLarge { task } => too_large(alloc, program, task, What::Indices),
        CertFault::Leaves { block, path, index } => {
            overflow(alloc, program, LeavesAt::Check { block, path, index })
        }
        CertFault::Shape { block } => told_fault(alloc, program, CertFault::Shape { block }),
        CertFault::Fails { block, path, index } => {
            told_fault(alloc, program, CertFault::Fails { block, path, index })
        }
        CertFault::NoMemory => Refusal::no_memory(),
    }
}

// A fault of the shape or of a condition.
fn told_fault(alloc: Global, program: &NormProgram<'_>, fault: CertFault) -> Refusal
    ensures { IsToldOr (names_in program.now) (Status.Certificate (CertAnswer.Check fault)) result }
{
    let line = certificate_line(alloc, program.source(), program.groups().list(), &fault);
    Refusal::told(Status::Certificate(CertAnswer::Check(fault)), line)
}
