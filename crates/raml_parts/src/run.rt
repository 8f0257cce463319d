// Runs on the machine.
ghost use Rattle.std.specs.Prelude.{◌≡◌, ◌≤◌, ◌<◌, List, IfOk, IfErr};
ghost use Rattle.raml_syntax.specs.Value.{Value};
ghost use Rattle.raml_syntax.specs.Node.{program_nodes};
ghost use Rattle.raml_syntax.specs.Read.{program_of};
ghost use Rattle.refusals.specs.Refusals.{IsWanting};
ghost use Rattle.raml_promise.specs.Call.{Placed};
ghost use Rattle.raml_parts.specs.Parts.{HasArguments, RanOn, limits_of};

use analysis_report::laws::never_asks;
use metered_vm::{End, Vm};
use raml_syntax::FunId;
use refusals::{Refusal, Report, full_report, stopped_report, value_report};
use simple_types::Typed;
use stack_compile::compile;
use std::alloc::Global;
use value_text::{DataHeap, Word};

/// How many instructions a run may make, and how many cells it may take.
#[derive(Clone, Copy, Debug)]
pub struct Limits {
    pub steps: u64,
    pub cells: u32,
}

/// Compiles the program, and runs the function at the place on the arguments, whose words stand in the
/// heap.
pub fn execute(
    alloc: Global,
    typed: &Typed,
    place: FunId,
    heap: DataHeap,
    args: Vec<Word>,
    limits: Limits,
) -> Result<Report, Refusal>
    requires few_nodes { program_nodes (program_of typed.now) ≤ 2097152 }
    requires steps { limits.steps ≤ 1000000000 }
    requires cells { limits.cells ≤ 16777216 }
    requires arguments { (f : Placed) × (vs : List Value) × (f.0 ≡ place.0)
        × HasArguments (program_of typed.now) f heap.cells args.items vs }
    ensures ok { IfOk result
        (λ report. RanOn (program_of typed.now) place.0 heap.cells args.items (limits_of limits) report.status (report.text.items)) }
    ensures err { IfErr result IsWanting }
{
    never_asks();
    let fun = &typed.program().funs[place.0 as usize];
    let code = compile(alloc, typed)?;
    let mut vm = Vm::new(alloc, &code, place, heap, args, limits.cells)?;
    match vm.run(limits.steps)? {
        End::Halted { word } => value_report(alloc, &vm, word, &fun.result),
        End::Stopped => stopped_report(alloc, &vm),
        End::HeapFull => full_report(alloc, &vm),
    }
}
