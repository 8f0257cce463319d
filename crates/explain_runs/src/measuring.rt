// Runs on data, measured.
ghost use Rattle.std.specs.Prelude.{◌≡◌, ◌≤◌, ◌<◌, ◌^◌, List, IfOk, Some, Ok, map, length, slice_get};
ghost use Rattle.raml_syntax.specs.Tree.{Function};
ghost use Rattle.raml_syntax.specs.Value.{Value};
ghost use Rattle.raml_syntax.specs.Read.{ty_of, program_of, function_of};
ghost use Rattle.raml_syntax.specs.Types.{types_of};
ghost use Rattle.value_text.specs.Printing.{StandsForSome};
ghost use Rattle.metered_vm.specs.Seen.{cells_in};
ghost use Rattle.explain_runs.specs.Measure.{CanRun, IsMeasure, IsMeasured, HasArguments};
ghost use Rattle.explain_runs.specs.Told.{IsNone, IsRunOn, HasWord, Tells, TellsValue};

use crate::outcome::{Limits, Measured, Outcome};
use metered_vm::{End, Vm};
use raml_syntax::{Fun, FunId, Ty};
use simple_types::Typed;
use stack_compile::compile;
use std::alloc::{AllocError, Global};
use value_text::{DataFault, DataHeap, PrintFault, Word, print, read_args};

/// The longest data that is read, in bytes.
const MOST_DATA: u64 = 4_194_304;

/// Runs the function on the arguments that the data spells. None where it spells none, or is longer than data may
/// be.
pub fn measure(
    alloc: Global,
    typed: &Typed,
    fun: FunId,
    data: &[u8],
    limits: Limits,
) -> Result<Option<Measured>, AllocError>
    requires runs { CanRun (program_of typed.now) }
    requires fun { fun.0 < length (program_of typed.now) }
    requires steps { limits.steps ≤ 1000000000 }
    requires cells { limits.cells ≤ 16777216 }
    ensures { IfOk result (IsMeasure (program_of typed.now) fun.0 data.now limits) }
{
    if data.len() as u64 > MOST_DATA {
        return Ok(None);
    }
    measure_short(alloc, typed, fun, data, limits)
}

/// Runs the function on the arguments that data which is not too long spells.
fn measure_short(
    alloc: Global,
    typed: &Typed,
    fun: FunId,
    data: &[u8],
    limits: Limits,
) -> Result<Option<Measured>, AllocError>
    requires runs { CanRun (program_of typed.now) }
    requires fun { fun.0 < length (program_of typed.now) }
    requires steps { limits.steps ≤ 1000000000 }
    requires cells { limits.cells ≤ 16777216 }
    requires short { length data.now ≤ 4194304 }
    ensures { IfOk result (IsMeasure (program_of typed.now) fun.0 data.now limits) }
{
    let types = parameter_types(alloc, &typed.program().funs[fun.0 as usize])?;
    let mut heap = DataHeap::new(alloc);
    match read_args(alloc, data, &types, &mut heap) {
        Ok(words) => run_read(alloc, typed, fun, heap, words, limits),
        Err(fault) => none_read(fault),
    }
}

/// Nothing is measured where data is refused.
fn none_read(fault: DataFault) -> Result<Option<Measured>, AllocError>
    ensures { IfOk result (IsNone fault) }
{
    match fault {
        DataFault::NoMemory => Err(AllocError),
        DataFault::NotUtf8 { .. } => Ok(None),
        DataFault::Shape { .. } => Ok(None),
        DataFault::TooDeep { .. } => Ok(None),
        DataFault::TooManyCells => Ok(None),
    }
}

/// The types of a function's parameters.
pub fn parameter_types(alloc: Global, function: &Fun) -> Result<Vec<Ty>, AllocError>
    ensures { IfOk result (λ types. map ty_of types.items ≡ types_of (function_of function.now)) }
{
    let mut types = Vec::new(alloc);
    for param in &function.params {
        types.push(param.ty.copy(alloc)?)?;
    }
    Ok(types)
}

/// Runs the function on the arguments that were read.
fn run_read(
    alloc: Global,
    typed: &Typed,
    fun: FunId,
    heap: DataHeap,
    words: Vec<Word>,
    limits: Limits,
) -> Result<Option<Measured>, AllocError>
    requires runs { CanRun (program_of typed.now) }
    requires steps { limits.steps ≤ 1000000000 }
    requires cells { limits.cells ≤ 16777216 }
    requires arguments { (g : Function) × (args : List Value)
        × HasArguments (program_of typed.now) fun.0 heap.cells words.items g args }
    ensures { IfOk result (IsRunOn (program_of typed.now) fun.0 heap.cells words.items limits) }
{
    let measured = run(alloc, typed, fun, heap, words, limits)?;
    Ok(Some(measured))
}

/// Runs the function on the arguments for which the words stand.
fn run(
    alloc: Global,
    typed: &Typed,
    fun: FunId,
    heap: DataHeap,
    words: Vec<Word>,
    limits: Limits,
) -> Result<Measured, AllocError>
    requires runs { CanRun (program_of typed.now) }
    requires steps { limits.steps ≤ 1000000000 }
    requires cells { limits.cells ≤ 16777216 }
    requires arguments { (g : Function) × (args : List Value)
        × HasArguments (program_of typed.now) fun.0 heap.cells words.items g args }
    ensures { IfOk result (λ m. (g : Function) (args : List Value) →
        HasArguments (program_of typed.now) fun.0 heap.cells words.items g args →
        IsMeasured (program_of typed.now) fun.0 g args limits m) }
{
    let function = &typed.program().funs[fun.0 as usize];
    let code = compile(alloc, typed)?;
    let mut vm = Vm::new(alloc, &code, fun, heap, words, limits.cells)?;
    let end = vm.run(limits.steps)?;
    let outcome = outcome_of(alloc, &vm, end, &function.result)?;
    Ok(Measured {
        outcome,
        ticks: vm.ticks(),
        cells: u64::from(vm.cells()),
        instructions: vm.instructions(),
    })
}

/// The outcome of a machine that has ended so.
fn outcome_of(alloc: Global, vm: &Vm<'_>, end: End, ty: &Ty) -> Result<Outcome, AllocError>
    requires { HasWord (cells_in vm.now) (ty_of ty.now) end }
    ensures { IfOk result (Tells (cells_in vm.now) (ty_of ty.now) end) }
{
    match end {
        End::Halted { word } => value_of(alloc, vm, word, ty),
        End::Stopped => Ok(Outcome::Stopped),
        End::HeapFull => Ok(Outcome::HeapFull),
    }
}

/// The outcome of a machine that has halted with the word.
fn value_of(alloc: Global, vm: &Vm<'_>, word: Word, ty: &Ty) -> Result<Outcome, AllocError>
    requires { StandsForSome (cells_in vm.now) word (ty_of ty.now) }
    ensures { IfOk result (TellsValue (cells_in vm.now) (ty_of ty.now) word) }
{
    match print(alloc, vm.heap(), word, ty) {
        Ok(value) => Ok(Outcome::Halted { value }),
        Err(PrintFault::TooLong) => Ok(Outcome::TooLong),
        Err(PrintFault::NoMemory) => Err(AllocError),
    }
}
