// Runs of programs on words.
ghost use Rattle.std.specs.Prelude.{◌≤◌, ◌<◌, ◌^◌, length};
ghost use Rattle.raml_syntax.specs.Node.{program_nodes};
ghost use Rattle.raml_syntax.specs.Read.{program_of};
ghost use Rattle.metered_vm.specs.Seen.{HaveArguments};

use crate::programs::{int, takes_one, takes_two, typed_program};
use metered_vm::{End, Vm};
use raml_syntax::FunId;
use simple_types::Typed;
use stack_compile::compile;
use std::alloc::Global;
use std::test::Fail;
use value_text::{DataHeap, Word};

/// What a function runs on: the heap, its arguments there, and how many cells it may take.
#[derive(Drop)]
pub struct Start {
    pub heap: DataHeap,
    pub args: Vec<Word>,
    pub cells: u32,
}

/// How a run ended: at first, and later.
#[derive(Clone, Copy)]
pub struct Ran {
    pub first: End,
    pub end: End,
    pub ticks: u64,
    pub cells: u32,
    pub instructions: u64,
    /// How many cells the heap has.
    pub heap: u32,
}

impl Ran {
    /// Whether it ended so at first, and later.
    pub fn ended(&self, first: End, end: End) -> bool {
        self.first == first && self.end == end
    }

    /// Whether it took so much.
    pub fn took(&self, ticks: u64, cells: u32, instructions: u64) -> bool {
        self.ticks == ticks && self.cells == cells && self.instructions == instructions
    }
}

/// Runs a function of a program to so many instructions, and then to so many more.
pub fn run(
    alloc: Global,
    typed: &Typed,
    fun: FunId,
    start: Start,
    first: u64,
    steps: u64,
) -> Result<Ran, Fail>
    requires nodes { program_nodes (program_of typed.now) < 2 ^ 28 }
    requires arguments { HaveArguments (program_of typed.now) fun.0 start.heap.cells start.args.items }
    requires heap { length start.heap.cells < 2 ^ 31 }
    requires cells { start.cells ≤ 1000 }
    requires steps { (first ≤ steps) × (steps ≤ 1000) }
{
    let code = compile(alloc, typed)?;
    let mut vm = Vm::new(alloc, &code, fun, start.heap, start.args, start.cells)?;
    let first = vm.run(first)?;
    let end = vm.run(steps)?;
    Ok(Ran {
        first,
        end,
        ticks: vm.ticks(),
        cells: vm.cells(),
        instructions: vm.instructions(),
        heap: vm.heap().len(),
    })
}

/// Runs a function of one number.
pub fn run_on(alloc: Global, source: &str, x: i64, first: u64, steps: u64) -> Result<Ran, Fail>
    requires steps { (first ≤ steps) × (steps ≤ 1000) }
{
    let typed = typed_program(alloc, source)?;
    let int = int();
    match typed.program().funs.as_slice() {
        [main] if takes_one(main, &int) => {
            let args = vec![in alloc; Word::Int(x)]?;
            let start = Start {
                heap: DataHeap::new(alloc),
                args,
                cells: 0,
            };
            run(alloc, &typed, FunId(0), start, first, steps)
        }
        _ => Err(Fail::from("not one function of a number")),
    }
}

/// Runs a function of two numbers with so many cells.
pub fn run_on_two(alloc: Global, source: &str, x: i64, y: i64, cells: u32) -> Result<Ran, Fail>
    requires cells { cells ≤ 1000 }
{
    let typed = typed_program(alloc, source)?;
    let int = int();
    match typed.program().funs.as_slice() {
        [main] if takes_two(main, &int) => {
            let args = vec![in alloc; Word::Int(x), Word::Int(y)]?;
            let start = Start {
                heap: DataHeap::new(alloc),
                args,
                cells,
            };
            run(alloc, &typed, FunId(0), start, 1000, 1000)
        }
        _ => Err(Fail::from("not one function of two numbers")),
    }
}
