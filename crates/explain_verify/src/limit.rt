// Limits that stop a check.
ghost use Rattle.std.specs.Prelude.{◌≡◌, ◌≢◌, ◌++◌, OnOk, string_bytes};
ghost use Rattle.bound_infer.specs.declared.refusal.InferFault.TheVariants.{NoMemory};
ghost use Rattle.explain_verify.specs.Verified.{limit_line};
ghost use Rattle.explain_verify.specs.Read.{subject_in};

use crate::message::Subject;
use bound_infer::InferFault;
use refusal_text::Analysed;
use refusals::{Status, course_refusal};
use std::alloc::{AllocError, Global};
use std::fmt::Write;

/// Appends that a limit, or a number that leaves 128 bits, stops the check, with the line of `raml`.
pub(crate) fn push_limit(
    alloc: Global,
    subject: &Subject<'_, '_>,
    limit: InferFault,
    report: &mut String,
) -> Result<(), AllocError>
    requires { limit ≢ NoMemory }
    ensures { OnOk result (string_bytes report.new ≡ string_bytes report.old ++ limit_line (subject_in subject.now) limit) }
{
    let refusal = course_refusal(alloc, Analysed::Program, subject.program, limit);
    match refusal.status {
        Status::NoMemory => Err(AllocError),
        _ => write!(report, "explain: {}", refusal.line.text()),
    }
}
