// What stands in a source.
ghost use Rattle.std.specs.Prelude.{◌<◌, ◌≤◌, ◌^◌, length, IfOk};
ghost use Rattle.std.specs.List.{All};
ghost use Rattle.raml_syntax.specs.Node.{WithinLimits, program_nodes};
ghost use Rattle.raml_syntax.specs.Read.{program_of};
ghost use Rattle.raml_syntax.specs.Tree.{Function};
ghost use Rattle.raml_parse.specs.Spelling.{Spells};
ghost use Rattle.explain_faults.specs.Faults.{FoundIn, IsFirstUnless};

use crate::fault::SourceFault;
use raml_parse::parse;
use raml_syntax::Program;
use simple_types::{Typed, check};
use std::alloc::{AllocError, Global};

/// What stands in a source.
#[derive(Drop)]
pub enum Found {
    /// A typed program.
    Program(Typed),
    /// Nothing that is one, for this fault, its first.
    Fault(SourceFault),
}

/// The typed program that a source spells, or its first fault.
pub fn found_in(alloc: Global, source: &[u8]) -> Result<Found, AllocError>
    requires { length source.now < 2 ^ 31 }
    ensures { IfOk result (FoundIn source.now) }
{
    match parse(alloc, source) {
        Ok(program) => typed_in(alloc, source, program),
        Err(fault) => fault_in(source, SourceFault::Spelling(fault)),
    }
}

/// What stands in a source that spells this program.
fn typed_in(alloc: Global, source: &[u8], program: Program) -> Result<Found, AllocError>
    requires spelled { Spells source.now (program_of program) }
    requires limits { WithinLimits (program_of program) }
    requires parameters { All (λ (g : Function). 1 ≤ length g.params) (program_of program) }
    requires few_nodes { program_nodes (program_of program) ≤ length source.now }
    ensures { IfOk result (FoundIn source.now) }
{
    match check(alloc, program) {
        Ok(typed) => Ok(Found::Program(typed)),
        Err(fault) => fault_in(source, SourceFault::Typing(fault)),
    }
}

/// The fault of a source, unless it is want of memory.
fn fault_in(source: &[u8], fault: SourceFault) -> Result<Found, AllocError>
    requires { IsFirstUnless source.now fault }
    ensures { IfOk result (FoundIn source.now) }
{
    match fault.place() {
        Some(_) => Ok(Found::Fault(fault)),
        None => Err(AllocError),
    }
}
