// The state of a machine that goes on.
ghost use Rattle.std.specs.Prelude.{◌≡◌, ◌+◌, ◌^◌, ◌<◌, IfOk, length};
ghost use Rattle.stack_compile.specs.Machine.{start};
ghost use Rattle.value_text.specs.Held.{held};

use raml_syntax::FunId;
use std::alloc::{AllocError, Global};
use value_text::{DataHeap, Word};

/// Where a call returns to.
#[derive(Clone, Copy)]
pub struct Frame {
    pub fun: FunId,
    pub place: usize,
    /// How many locals there are.
    pub locals: usize,
}

/// A machine at a place of a function. Stack, locals and frames have the newest last.
#[derive(Drop)]
pub struct Machine {
    pub fun: FunId,
    pub place: usize,
    pub stack: Vec<Word>,
    /// The locals of all calls.
    pub locals: Vec<Word>,
    /// Where those of the newest call begin.
    pub base: usize,
    pub frames: Vec<Frame>,
    pub heap: DataHeap,
    pub ticks: u64,
    /// How many cells are taken, and how many may be.
    pub cells: u32,
    pub limit: u32,
    /// How many instructions are made.
    pub made: u64,
}

impl Machine {
    ghost use Rattle.metered_vm.specs.Running.{AllBelow, IsSound, state_of, values_of};

    /// A machine at the beginning of a function, with room for as many cells as it may take.
    pub fn new(
        alloc: Global,
        fun: FunId,
        mut heap: DataHeap,
        args: &[Word],
        limit: u32,
    ) -> Result<Machine, AllocError>
        requires room { length heap.cells + limit < 2 ^ 32 }
        requires below { AllBelow (length heap.cells) args.now }
        ensures state { IfOk result (λ m. state_of m ≡ start fun.0 (values_of (held m.heap.cells) args.now)) }
        ensures heap { IfOk result (λ m. m.heap.cells ≡ heap.cells) }
        ensures limit { IfOk result (λ m. m.limit ≡ limit) }
        ensures sound { IfOk result IsSound }
    {
        heap.reserve(limit)?;
        Ok(Machine {
            fun,
            place: 0,
            stack: Vec::new(alloc),
            locals: Vec::from_slice(alloc, args)?,
            base: 0,
            frames: Vec::new(alloc),
            heap,
            ticks: 0,
            cells: 0,
            limit,
            made: 0,
        })
    }
}
