// Reports of runs.
ghost use Rattle.std.specs.Prelude.{◌≡◌, IfOk, IfErr};
ghost use Rattle.raml_syntax.specs.Value.{Value};
ghost use Rattle.raml_syntax.specs.Read.{ty_of};
ghost use Rattle.value_text.specs.Stands.{StandsFor};
ghost use Rattle.value_text.specs.Printing.{StandsForSome};
ghost use Rattle.metered_vm.specs.Seen.{cells_in, state_in};
ghost use Rattle.report_text.specs.Report as r;
ghost use Rattle.refusals.specs.Refusals.{IsWanting};
ghost use Rattle.refusals.specs.declared.status.Status.TheVariants.{Done, Stopped, HeapFull};

use crate::answer::{Refusal, Report};
use crate::status::Status;
use metered_vm::Vm;
use raml_syntax::Ty;
use report_text::{full_lines, stopped_lines, value_lines};
use std::alloc::Global;
use value_text::Word;

/// The report of a machine that has halted with the word, which stands for a value of the type.
pub fn value_report(alloc: Global, vm: &Vm<'_>, word: Word, ty: &Ty) -> Result<Report, Refusal>
    requires { StandsForSome (cells_in vm.now) word (ty_of ty.now) }
    ensures status { IfOk result (λ report. report.status ≡ Done) }
    ensures text { IfOk result
        (λ report. (value : Value) → StandsFor (cells_in vm.now) word value →
        report.text.items ≡ r.value_lines value (ty_of ty.now) (state_in vm.now)) }
    ensures err { IfErr result IsWanting }
{
    let text = value_lines(alloc, vm, word, ty)?;
    Ok(Report::done(text))
}

/// The report of a machine that was stopped.
pub fn stopped_report(alloc: Global, vm: &Vm<'_>) -> Result<Report, Refusal>
    ensures status { IfOk result (λ report. report.status ≡ Stopped) }
    ensures text { IfOk result (λ report. report.text.items ≡ r.stopped_lines (state_in vm.now)) }
    ensures err { IfErr result IsWanting }
{
    Ok(Report {
        text: stopped_lines(alloc, vm)?.into_bytes(),
        status: Status::Stopped,
    })
}

/// The report of a machine that asks for a cell where all are taken.
pub fn full_report(alloc: Global, vm: &Vm<'_>) -> Result<Report, Refusal>
    ensures status { IfOk result (λ report. report.status ≡ HeapFull) }
    ensures text { IfOk result (λ report. report.text.items ≡ r.full_lines (state_in vm.now)) }
    ensures err { IfErr result IsWanting }
{
    Ok(Report {
        text: full_lines(alloc, vm)?.into_bytes(),
        status: Status::HeapFull,
    })
}
