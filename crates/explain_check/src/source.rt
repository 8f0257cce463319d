// Checks of the bytes of a source.
ghost use Rattle.std.specs.Prelude.{◌≡◌, ◌<◌, ◌≤◌, ◌^◌, ◌++◌, ℕ, length, string_bytes, IfOk};
ghost use Rattle.std.specs.List.{All};
ghost use Rattle.raml_syntax.specs.Node.{WithinLimits, program_nodes};
ghost use Rattle.raml_syntax.specs.Read.{program_of};
ghost use Rattle.raml_syntax.specs.Tree.{Text, Function};
ghost use Rattle.raml_parse.specs.Spelling.{Spells};
ghost use Rattle.explain_check.specs.Checks.{FaultIs, SourceGives};
ghost use Rattle.explain_check.specs.Contents.{FoundIn};

use crate::report::push_message;
use crate::verdict::Verdict;
use explain_messages::{Message, syntax_message, type_message};
use raml_parse::parse;
use raml_syntax::Program;
use simple_types::{Typed, check};
use std::alloc::{AllocError, Global};

/// Checks that the source of this name spells a typed program. Where it does not, its first fault is appended to the
/// report.
pub fn check_source(
    alloc: Global,
    name: &str,
    source: &[u8],
    report: &mut String,
) -> Result<Verdict, AllocError>
    requires { length source.now < 2 ^ 31 }
    ensures told { IfOk result
        (λ verdict. (part : Text) × FaultIs name.now source.now verdict part
        × (string_bytes report.new ≡ string_bytes report.old ++ part)) }
{
    match typed_source(alloc, name, source, report)? {
        Some(_) => Ok(Verdict::Typed),
        None => Ok(Verdict::Faulty),
    }
}

/// The typed program that the source of this name spells. Where it spells none, its first fault is appended to the report.
pub fn typed_source(
    alloc: Global,
    name: &str,
    source: &[u8],
    report: &mut String,
) -> Result<Option<Typed>, AllocError>
    requires { length source.now < 2 ^ 31 }
    ensures told { IfOk result
        (λ typed. (part : Text) × SourceGives name.now source.now typed part
        × (string_bytes report.new ≡ string_bytes report.old ++ part)) }
{
    match found_in(alloc, source)? {
        Found::Program(typed) => Ok(Some(typed)),
        Found::Fault(message) => {
            push_message(alloc, name, source, &message, report)?;
            Ok(None)
        }
    }
}

/// What stands in a source.
#[derive(Drop)]
enum Found {
    /// A typed program.
    Program(Typed),
    /// Nothing that is one, for its first fault.
    Fault(Message),
}

fn found_in(alloc: Global, source: &[u8]) -> Result<Found, AllocError>
    requires { length source.now < 2 ^ 31 }
    ensures { IfOk result (FoundIn source.now) }
{
    match parse(alloc, source) {
        Ok(program) => typed_in(alloc, source, program),
        Err(fault) => match syntax_message(alloc, source, &fault)? {
            Some(message) => Ok(Found::Fault(message)),
            None => Err(AllocError),
        },
    }
}

/// What stands in a source that spells this program.
fn typed_in(alloc: Global, source: &[u8], program: Program) -> Result<Found, AllocError>
    requires spelled { Spells source.now (program_of program) }
    requires limits { WithinLimits (program_of program) }
    requires parameters { All (λ (g : Function). 1 ≤ length g.params) (program_of program) }
    requires few_nodes { program_nodes (program_of program) ≤ length source.now }
    ensures { IfOk result (FoundIn source.now) }
{
    match check(alloc, program) {
        Ok(typed) => Ok(Found::Program(typed)),
        Err(fault) => match type_message(alloc, source, &fault)? {
            Some(message) => Ok(Found::Fault(message)),
            None => Err(AllocError),
        },
    }
}
