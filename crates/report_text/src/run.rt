// How a machine ended, and what it counted.
ghost use Rattle.std.specs.Prelude.{◌≡◌, ◌++◌, codes, IfOk, OnOk, string_bytes};
ghost use Rattle.raml_syntax.specs.Read.{ty_of};
ghost use Rattle.raml_syntax.specs.Value.{Value};
ghost use Rattle.value_text.specs.Stands.{StandsFor};
ghost use Rattle.value_text.specs.Printing.{StandsForSome};
ghost use Rattle.metered_vm.specs.Seen.{cells_in, state_in};
ghost use Rattle.report_text.specs.Report.{meter_line, meter_lines, value_line, value_lines, stopped_lines, full_lines};

use itoa::Buffer;
use metered_vm::Vm;
use raml_syntax::Ty;
use std::alloc::{AllocError, Global};
use value_text::{DataHeap, PrintFault, Word, print};

/// The lines of a machine that has halted with the word, which stands for a value of the type.
pub fn value_lines(alloc: Global, vm: &Vm<'_>, word: Word, ty: &Ty) -> Result<String, AllocError>
    requires { StandsForSome (cells_in vm.now) word (ty_of ty.now) }
    ensures { IfOk result (λ text. (value : Value) → StandsFor (cells_in vm.now) word value →
        string_bytes text ≡ value_lines value (ty_of ty.now) (state_in vm.now)) }
{
    let mut text = value_line(alloc, vm.heap(), word, ty)?;
    push_meters(&mut text, vm)?;
    Ok(text)
}

// The line of a value, which tells no more than that its text is too long where it is.
fn value_line(alloc: Global, heap: &DataHeap, word: Word, ty: &Ty) -> Result<String, AllocError>
    requires { StandsForSome heap.now.cells word (ty_of ty.now) }
    ensures { IfOk result (λ text. (value : Value) → StandsFor heap.now.cells word value →
        string_bytes text ≡ value_line value (ty_of ty.now)) }
{
    match print(alloc, heap, word, ty) {
        Ok(value) => spelled_line(alloc, value.as_str()),
        Err(PrintFault::TooLong) => {
            String::from_str(alloc, "value longer than 16777216 bytes\n")
        }
        Err(PrintFault::NoMemory) => Err(AllocError),
    }
}

fn spelled_line(alloc: Global, value: &str) -> Result<String, AllocError>
    ensures { IfOk result (λ text. string_bytes text ≡ codes "value " ++ value.now ++ codes "\n") }
{
    let mut text = String::from_str(alloc, "value ")?;
    text.push_str(value)?;
    text.push_str("\n")?;
    Ok(text)
}

/// The lines of a machine that was stopped.
pub fn stopped_lines(alloc: Global, vm: &Vm<'_>) -> Result<String, AllocError>
    ensures { IfOk result (λ text. string_bytes text ≡ stopped_lines (state_in vm.now)) }
{
    let mut text = String::from_str(alloc, "stopped\n")?;
    push_meters(&mut text, vm)?;
    Ok(text)
}

/// The lines of a machine that asks for a cell where all are taken.
pub fn full_lines(alloc: Global, vm: &Vm<'_>) -> Result<String, AllocError>
    ensures { IfOk result (λ text. string_bytes text ≡ full_lines (state_in vm.now)) }
{
    let mut text = String::from_str(alloc, "heap full\n")?;
    push_meters(&mut text, vm)?;
    Ok(text)
}

fn push_meters(text: &mut String, vm: &Vm<'_>) -> Result<(), AllocError>
    ensures { OnOk result (string_bytes text.new ≡ string_bytes text.old ++ meter_lines (state_in vm.now)) }
{
    push_meter(text, "ticks", vm.ticks())?;
    push_meter(text, "cells", u64::from(vm.cells()))?;
    push_meter(text, "instructions", vm.instructions())
}

fn push_meter(text: &mut String, meter: &str, count: u64) -> Result<(), AllocError>
    ensures { OnOk result (string_bytes text.new ≡ string_bytes text.old ++ meter_line meter.now count) }
{
    text.push_str(meter)?;
    text.push_str(" ")?;
    text.push_str(Buffer::new().format(count))?;
    text.push_str("\n")
}
