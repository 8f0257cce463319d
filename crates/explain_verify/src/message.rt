// What is told of a certificate that does not hold.
ghost use Rattle.std.specs.Prelude.{◌≡◌, ◌++◌, IfOk, OnOk, string_bytes, option_map, codes};
ghost use Rattle.raml_syntax.specs.Tree.{Text};
ghost use Rattle.raml_syntax.specs.Read.{program_of};
ghost use Rattle.cost_free.specs.Read.{kind_of, task_of};
ghost use Rattle.explain_verify.specs.Told.{what, IsToldAt, OfTask, other_program};
ghost use Rattle.explain_verify.specs.Read.{subject_in};

use crate::outline::Outline;
use crate::place::function_place;
use crate::scheduled::function_of;
use cost_free::{Task, TaskKind};
use explain_check::{push_error, push_told_fault};
use raml_syntax::{FunId, Program};
use report_text::{meter_name, name_at};
use share_normal::NormProgram;
use std::alloc::{AllocError, Global};

/// A certificate that does not hold of a source: the names and the bytes of the files, the program, and what is kept of the
/// certificate.
#[derive(Clone, Copy)]
pub(crate) struct Subject<'s, 'p> {
    pub(crate) file: &'s str,
    pub(crate) source: &'s [u8],
    pub(crate) certificate: &'s str,
    pub(crate) program: &'s NormProgram<'p>,
    pub(crate) outline: &'s Outline,
}

/// Why it does not hold.
#[derive(Clone, Copy, Debug, PartialEq, Eq)]
pub(crate) enum Why {
    /// It has something else than the source asks for there.
    Shape,
    /// A condition fails there.
    Condition,
    /// It does not prove that there is no bound.
    Vector,
}

/// Appends why it does not hold, at a byte of the source, of a function and what is counted.
pub(crate) fn push_told(
    alloc: Global,
    subject: &Subject<'_, '_>,
    kind: TaskKind,
    fun: FunId,
    at: usize,
    why: Why,
    report: &mut String,
) -> Result<(), AllocError>
    ensures { OnOk result ((part : Text) × IsToldAt (subject_in subject.now) (kind_of kind) fun.0 at part
        × (string_bytes report.new ≡ string_bytes report.old ++ part)) }
{
    let message = message_text(alloc, subject, kind, fun, why)?;
    push_told_fault(
        alloc,
        subject.file,
        subject.source,
        at,
        message.as_str(),
        report,
    )
}

/// Of what it is told, and why.
fn message_text(
    alloc: Global,
    subject: &Subject<'_, '_>,
    kind: TaskKind,
    fun: FunId,
    why: Why,
) -> Result<String, AllocError>
    ensures { IfOk result (λ text. (rest : Text)
        × (string_bytes text ≡ what (subject_in subject.now).program (kind_of kind) fun.0 ++ (codes ": " ++ rest))) }
{
    let mut text = what(alloc, subject.program.source(), kind, fun)?;
    text.push_str(": ")?;
    push_why(&mut text, subject.certificate, why)?;
    Ok(text)
}

/// Of what it is told: a function and a meter, or a task without cost in words.
fn what(alloc: Global, program: &Program, kind: TaskKind, fun: FunId) -> Result<String, AllocError>
    ensures { IfOk result (λ text. string_bytes text ≡ what (program_of program.now) (kind_of kind) fun.0) }
{
    match kind {
        TaskKind::Free { fun, .. } => without_costs(alloc, name_at(program, fun)),
        TaskKind::With(meter) => with_meter(alloc, name_at(program, fun), meter_name(meter)),
    }
}

fn without_costs(alloc: Global, name: &str) -> Result<String, AllocError>
    ensures { IfOk result (λ text. string_bytes text ≡ codes "a part of the result of " ++ (name.now ++ codes ", without costs")) }
{
    format!(in alloc; "a part of the result of {name}, without costs")
}

fn with_meter(alloc: Global, name: &str, meter: &str) -> Result<String, AllocError>
    ensures { IfOk result (λ text. string_bytes text ≡ name.now ++ (codes " " ++ meter.now)) }
{
    format!(in alloc; "{name} {meter}")
}

fn push_why(text: &mut String, certificate: &str, why: Why) -> Result<(), AllocError>
    ensures { OnOk result ((rest : Text) × (string_bytes text.new ≡ string_bytes text.old ++ rest)) }
{
    text.push_str("the certificate ")?;
    text.push_str(certificate)?;
    text.push_str(match why {
        Why::Shape => " is not one of this source: it has something else in this place",
        Why::Condition => " is not one of this source: it fails here",
        Why::Vector => " does not prove that there is no bound",
    })
}

/// Appends why it does not hold, at the function of a task.
pub(crate) fn push_of_task(
    alloc: Global,
    subject: &Subject<'_, '_>,
    task: Option<Task>,
    why: Why,
    report: &mut String,
) -> Result<(), AllocError>
    ensures { OnOk result ((part : Text) × OfTask (subject_in subject.now) (option_map task_of task) part
        × (string_bytes report.new ≡ string_bytes report.old ++ part)) }
{
    let Some(task) = task else {
        return push_other_program(subject, report);
    };
    match function_of(subject, &task) {
        Some(fun) => {
            let at = function_place(subject.program.source(), fun);
            push_told(alloc, subject, task.kind, fun, at, why, report)
        }
        None => push_other_program(subject, report),
    }
}

/// Appends that it is of another program.
pub(crate) fn push_other_program(
    subject: &Subject<'_, '_>,
    report: &mut String,
) -> Result<(), AllocError>
    ensures { OnOk result (string_bytes report.new ≡ string_bytes report.old ++ other_program (subject_in subject.now)) }
{
    push_error(subject.certificate, "it is of another program", report)
}
