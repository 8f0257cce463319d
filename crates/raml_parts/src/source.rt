// Typed programs.
ghost use Rattle.std.specs.Prelude.{◌≡◌, ◌≤◌, ℕ, length, IfOk, IfErr};
ghost use Rattle.std.specs.List.{All};
ghost use Rattle.raml_syntax.specs.Tree.{Text, Function};
ghost use Rattle.raml_syntax.specs.Types.{Typed as IsTypedProgram};
ghost use Rattle.raml_syntax.specs.Node.{WithinLimits, program_nodes};
ghost use Rattle.raml_syntax.specs.Read.{program_of};
ghost use Rattle.refusals.specs.Line.{no_names};
ghost use Rattle.raml_promise.specs.Outside.{store_of};
ghost use Rattle.raml_promise.specs.Steps.{SourceRefuses, IsTyped, RefusedOf, file_of};
ghost use Rattle.raml_parts.specs.Parts.{Before, IsProgram, ProgramRefuses, Refuses, IsReady, TypesRefuse};

use crate::file::read_file;
use raml_io::Store;
use raml_parse::parse;
use raml_syntax::Program;
use refusal_text::{Analysed, Which};
use refusals::{Refusal, parse_refusal, type_refusal};
use simple_types::{Typed, check};
use std::alloc::Global;

/// The typed program that a file spells: that of a call, or one to compare it with. What is told of
/// counts is told of any from which they have not fallen to those before this call.
pub fn read_program<S: Store>(
    alloc: Global,
    store: &mut S,
    whose: Analysed,
    file: &str,
) -> Result<Typed, Refusal>
    ensures ok { (before : Text → ℕ) →
        IfOk result (λ typed. IsProgram (store_of (S.holds store.old) before (S.faults store.new)) whose file.now (program_of typed)) }
    ensures ready { IfOk result (λ typed. IsReady (program_of typed)) }
    ensures err { (before : Text → ℕ) → Before before (S.faults store.old) →
        IfErr result (Refuses no_names (ProgramRefuses (store_of (S.holds store.old) before (S.faults store.new)) whose file.now)) }
    ensures kept { S.holds store.new ≡ S.holds store.old }
    ensures later { (other : Text) → S.faults store.old other ≤ S.faults store.new other }
{
    match read_file(alloc, store, file, file_of(whose)) {
        Ok(source) => typed_program(alloc, whose, &source),
        Err(refusal) => Err(refusal),
    }
}

fn file_of(whose: Analysed) -> Which
    ensures { result ≡ file_of whose }
{
    match whose {
        Analysed::Program => Which::Program,
        Analysed::Other => Which::Other,
    }
}

/// The typed program that a source spells, which is no longer than its limit.
pub fn typed_program(alloc: Global, whose: Analysed, source: &[u8]) -> Result<Typed, Refusal>
    requires short { length source.now ≤ 1048576 }
    ensures ok { IfOk result (λ typed. IsTyped source.now (program_of typed)) }
    ensures ready { IfOk result (λ typed. IsReady (program_of typed)) }
    ensures err { IfErr result (Refuses no_names (RefusedOf whose (SourceRefuses source.now))) }
{
    match parse(alloc, source) {
        Ok(program) => checked_program(alloc, whose, program),
        Err(fault) => Err(parse_refusal(alloc, whose, fault)),
    }
}

// The program, where it is typed.
fn checked_program(alloc: Global, whose: Analysed, program: Program) -> Result<Typed, Refusal>
    requires limits { WithinLimits (program_of program) }
    ensures same { IfOk result (λ typed. program_of typed ≡ program_of program) }
    ensures typed { IfOk result (λ typed. IsTypedProgram (program_of program)) }
    ensures err { IfErr result (Refuses no_names (RefusedOf whose (TypesRefuse (program_of program)))) }
{
    match check(alloc, program) {
        Ok(typed) => Ok(typed),
        Err(fault) => Err(type_refusal(alloc, whose, fault)),
    }
}
