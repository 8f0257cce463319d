// Faults of verifications.
ghost use Rattle.std.specs.Prelude.{◌≡◌, ◌++◌, IfOk, OnOk, string_bytes};
ghost use Rattle.raml_syntax.specs.Tree.{Text};
ghost use Rattle.explain_verify.specs.Told.{OfFailing};
ghost use Rattle.explain_verify.specs.Told as told;
ghost use Rattle.explain_verify.specs.Verified.{CheckIs, FaultIs, LimitIs};
ghost use Rattle.explain_verify.specs.Read.{subject_in};

use crate::failing::{condition_at, fails_at};
use crate::limit::push_limit;
use crate::message::{Subject, Why, push_of_task, push_other_program, push_told};
use crate::scheduled::task_at;
use crate::verification::Verification;
use bound_infer::{InferFault, LeavesAt, VerifyFault};
use cert_check::CertFault;
use constraint_gen::What;
use std::alloc::{AllocError, Global};

/// Appends what a fault of a verification is, and says how it ends.
pub(crate) fn push_fault(
    alloc: Global,
    subject: &Subject<'_, '_>,
    fault: VerifyFault,
    report: &mut String,
) -> Result<Verification, AllocError>
    ensures { IfOk result (λ end. (part : Text) × FaultIs (subject_in subject.now) fault end part
        × (string_bytes report.new ≡ string_bytes report.old ++ part)) }
{
    match fault {
        VerifyFault::Cert(fault) => push_check_fault(alloc, subject, fault, report),
        VerifyFault::NotRefuted { block } => {
            let task = subject.outline.task(block);
            push_of_task(alloc, subject, task, Why::Vector, report)?;
            Ok(Verification::Fails)
        }
        VerifyFault::TooLarge { task, what } => {
            push_limit(alloc, subject, InferFault::TooLarge { task, what }, report)?;
            Ok(Verification::NotAnalysed)
        }
        VerifyFault::Leaves(at) => {
            push_limit(alloc, subject, InferFault::Leaves(at), report)?;
            Ok(Verification::NotAnalysed)
        }
        VerifyFault::NoMemory => Err(AllocError),
    }
}

/// The same of a fault of the check.
fn push_check_fault(
    alloc: Global,
    subject: &Subject<'_, '_>,
    fault: CertFault,
    report: &mut String,
) -> Result<Verification, AllocError>
    ensures { IfOk result (λ end. (part : Text) × CheckIs (subject_in subject.now) fault end part
        × (string_bytes report.new ≡ string_bytes report.old ++ part)) }
{
    match fault {
        CertFault::Shape { block } => {
            let task = task_at(alloc, subject, block)?;
            push_of_task(alloc, subject, task, Why::Shape, report)?;
            Ok(Verification::Fails)
        }
        CertFault::Fails { block, path, .. } => {
            push_failing(alloc, subject, block, path.as_slice(), report)?;
            Ok(Verification::Fails)
        }
        CertFault::Leaves { block, path, index } => {
            let at = LeavesAt::Check { block, path, index };
            push_limit(alloc, subject, InferFault::Leaves(at), report)?;
            Ok(Verification::NotAnalysed)
        }
        CertFault::TooLarge { task } => {
            let what = What::Indices;
            push_limit(alloc, subject, InferFault::TooLarge { task, what }, report)?;
            Ok(Verification::NotAnalysed)
        }
        CertFault::NoMemory => Err(AllocError),
    }
}

/// Appends that the condition at a path in a block fails.
fn push_failing(
    alloc: Global,
    subject: &Subject<'_, '_>,
    block: usize,
    path: &[u32],
    report: &mut String,
) -> Result<(), AllocError>
    ensures { OnOk result ((part : Text) × OfFailing (subject_in subject.now) (told.failing (subject_in subject.now) block path.now) part
        × (string_bytes report.new ≡ string_bytes report.old ++ part)) }
{
    match condition_at(subject, block, path) {
        Some(failing) => {
            let at = fails_at(alloc, subject, &failing)?;
            let kind = failing.task.kind;
            push_told(
                alloc,
                subject,
                kind,
                failing.fun,
                at,
                Why::Condition,
                report,
            )
        }
        None => push_other_program(subject, report),
    }
}
