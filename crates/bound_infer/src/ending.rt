// The certificate of a course.
ghost use Rattle.std.specs.Prelude.{◌≡◌, true, None, IfOk, IfErr, OnOk};
ghost use Rattle.annot_types.specs.Read.{certificate_of};
ghost use Rattle.annot_types.specs.System.{Valid};
ghost use Rattle.rules_plan.specs.Read.{program_in, AreKept};
ghost use Rattle.cert_check.specs.Finds.{FirstFault};
ghost use Rattle.cert_check.specs.Laws.{IsProper, IsSmall};
ghost use Rattle.cert_check.specs.Read.{fault_of};
ghost use Rattle.infer_spec.specs.Good.{AllRefuted};
ghost use Rattle.infer_spec.specs.States as s;
ghost use Rattle.bound_infer.specs.Inferred.{SystemsAreSmall};
ghost use Rattle.bound_infer.specs.Keeping.{state_of};
ghost use Rattle.bound_infer.specs.Found.{LeavesAlone, IsCheckFault, CheckCause};

use crate::leaves::LeavesAt;
use crate::refusal::InferFault;
use crate::run::Run;
use crate::verified::{Verified, keep};
use annot_types::Certificate;
use cert_check::laws::held_leaves_alone;
use cert_check::{CertFault, check_held};
use rules_plan::KeptPlans;
use share_normal::NormProgram;
use std::alloc::Global;

// The certificate of the blocks and the scales.
fn certificate(d: u8, run: Run<'_>) -> Certificate
    ensures { certificate_of result ≡ s.certificate_of d true (state_of run.entry) }
{
    let Run {
        schedule,
        earlier,
        blocks,
        scales,
    } = run;
    drop(schedule);
    drop(earlier);
    Certificate {
        degree: d,
        ticks_scale: scales.ticks.value(),
        cells_scale: scales.cells.value(),
        work_scale: Some(scales.work.value()),
        blocks,
    }
}

// A fault of the check, which is no other than a total that leaves.
fn check_fault(fault: CertFault) -> InferFault
    requires { LeavesAlone (fault_of fault) }
    ensures { IsCheckFault (fault_of fault) result }
{
    match fault {
        CertFault::Leaves { block, path, index } => {
            InferFault::Leaves(LeavesAt::Check { block, path, index })
        }
        CertFault::NoMemory => InferFault::NoMemory,
        CertFault::Shape { .. } => unreachable!(),
        CertFault::Fails { .. } => unreachable!(),
        CertFault::TooLarge { .. } => unreachable!(),
    }
}

/// The certificate of a course that has ended, checked by the plans that the course kept.
pub(crate) fn ended<'p, 'a>(
    alloc: Global,
    program: &'p NormProgram<'a>,
    d: u8,
    run: Run<'_>,
    kept: KeptPlans,
) -> Result<Verified<'p, 'a>, InferFault>
    requires proper { IsProper (program_in program.now) }
    requires small { IsSmall (program_in program.now) (s.certificate_of d true (state_of run)) }
    requires valid { Valid (program_in program.now) (s.certificate_of d true (state_of run)) }
    requires refuted { AllRefuted (program_in program.now) (s.certificate_of d true (state_of run)) }
    requires systems { SystemsAreSmall (program_in program.now) (s.certificate_of d true (state_of run)) }
    requires kept { AreKept (program_in program.now) kept }
    ensures certificate { IfOk result
        (λ verified. verified ≡ record { program = program.now; certificate = s.certificate_of d true (state_of run.entry) }) }
    ensures passes { OnOk result (FirstFault (program_in program.now) (s.certificate_of d true (state_of run.entry)) None) }
    ensures fault { IfErr result (CheckCause (program_in program.now) (s.certificate_of d true (state_of run.entry))) }
{
    held_leaves_alone();
    match check_held(alloc, program, certificate(d, run), kept) {
        Ok(checked) => Ok(keep(checked)),
        Err(fault) => Err(check_fault(fault)),
    }
}
