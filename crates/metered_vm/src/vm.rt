// The machine as callers see it.
ghost use Rattle.std.specs.Prelude.{◌≡◌, ◌+◌, ◌^◌, ◌<◌, ◌≤◌, IfOk, length};
ghost use Rattle.raml_syntax.specs.Read.{program_of};
ghost use Rattle.metered_vm.specs.Stepping.{word_of};

use crate::end::End;
use crate::machine::Machine;
use crate::steps;
use raml_syntax::FunId;
use stack_compile::Code;
use std::alloc::{AllocError, Global};
use std::marker::Model;
use value_text::{DataHeap, Word};

/// With what a run has halted.
fn halted_word(outcome: &Result<End, AllocError>) -> Option<Word>
    ensures { result ≡ word_of outcome.now }
{
    match outcome {
        Ok(End::Halted { word }) => Some(*word),
        Ok(End::Stopped) => None,
        Ok(End::HeapFull) => None,
        Err(_) => None,
    }
}

/// A machine that runs a function of a program on arguments.
#[derive(Drop)]
pub struct Vm<'a> {
    code: &'a Code<'a>,
    fun: FunId,
    args: Vec<Word>,
    machine: Machine,
    /// With what it has halted.
    word: Option<Word>,
}

impl<'a> Model for Vm<'a> {
    ghost use Rattle.std.specs.Coded.{codes};
    ghost use Rattle.raml_syntax.specs.contracts.ty.Ty as ty;
    ghost use Rattle.raml_syntax.specs.contracts.tree.Form as form;
    ghost use Rattle.raml_syntax.specs.contracts.tree.Expr as expr;
    ghost use Rattle.metered_vm.specs.Seen.{Seen};

    ghost Value = { Seen };

    ghost coded = { Prim.hlevel (codes, ty.the_row.coded, form.the_row.coded, expr.the_row.coded) };

    ghost use Rattle.metered_vm.specs.Keeping.{seen_of, Keeps};

    ghost view = { seen_of };

    ghost invariant = { Keeps };
}

impl<'a> Vm<'a> {
    ghost use Rattle.metered_vm.specs.Seen.{Begins, GoesOn, HaveArguments, Kept, cells_in, state_in};
    ghost use Rattle.metered_vm.specs.Ending.{Ended};

    /// A machine that has made no instruction. It may take as many cells as are told, for which it makes room
    /// first, beside those of the arguments.
    pub fn new(
        alloc: Global,
        code: &'a Code<'a>,
        fun: FunId,
        heap: DataHeap,
        args: Vec<Word>,
        cells: u32,
    ) -> Result<Vm<'a>, AllocError>
        requires arguments { HaveArguments (program_of code.now) fun.0 heap.cells args.items }
        requires heap { length heap.cells < 2 ^ 31 }
        requires cells { cells ≤ 16777216 }
        ensures begins { IfOk result (Begins (program_of code.now) fun.0 heap.cells args.items cells) }
        ensures kept { IfOk result Kept }
    {
        let machine = Machine::new(alloc, fun, heap, &args, cells)?;
        let _ = code.program();
        Ok(Vm {
            code,
            fun,
            args,
            machine,
            word: None,
        })
    }

    /// Makes instructions until `steps` are made in all, the machine has halted, or the next one takes a cell
    /// that is not left. Where memory is wanting it stands where the last whole instruction left it.
    pub fn run(&mut self, steps: u64) -> Result<End, AllocError>
        requires most { steps ≤ 1000000000 }
        requires made { (state_in self.old).made ≤ steps }
        ensures ends { IfOk result (λ end. Ended steps end self.new) }
        ensures goes { GoesOn steps self.old self.new }
        ensures kept { Kept self.new }
    {
        if let Some(word) = self.word {
            return Ok(End::Halted { word });
        }
        let outcome = steps::run(self.code, &mut self.machine, steps);
        self.word = halted_word(&outcome);
        outcome
    }

    /// The ticks so far.
    pub fn ticks(&self) -> u64
        ensures { result ≡ (state_in self.now).ticks }
    {
        self.machine.ticks
    }

    /// How many cells are taken.
    pub fn cells(&self) -> u32
        ensures { result ≡ (state_in self.now).cells }
    {
        self.machine.cells
    }

    /// How many instructions are made.
    pub fn instructions(&self) -> u64
        ensures { result ≡ (state_in self.now).made }
    {
        self.machine.made
    }

    /// The heap.
    pub fn heap(&self) -> &DataHeap
        ensures { result.now.cells ≡ cells_in self.now }
    {
        &self.machine.heap
    }
}
