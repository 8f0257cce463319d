// Calls of functions of a program.
ghost use Rattle.std.specs.Prelude.{◌≡◌, ◌≤◌, ◌<◌, ℕ, map, length, IfOk, IfErr};
ghost use Rattle.std.specs.List.{All};
ghost use Rattle.raml_syntax.specs.Tree.{Text, Function};
ghost use Rattle.raml_syntax.specs.Place.{place_of};
ghost use Rattle.raml_syntax.specs.Read.{ty_of, program_of};
ghost use Rattle.report_text.specs.Report.{types_in};
ghost use Rattle.refusals.specs.Line.{no_names};
ghost use Rattle.raml_promise.specs.Outside.{store_of};
ghost use Rattle.raml_parts.specs.Parts.{Before, IsReady, Refuses, CallRefuses, ReadsCall, ReadsArguments, ArgumentsRefuse};

use crate::file::read_file;
use raml_io::Store;
use raml_syntax::{FunId, Param, Ty};
use refusal_text::Which;
use refusals::{Refusal, data_refusal};
use simple_types::Typed;
use std::alloc::{AllocError, Global};
use value_text::{DataHeap, Word, read_args};

/// Arguments: words, which stand for values in the heap.
#[derive(Drop)]
pub struct Arguments {
    pub heap: DataHeap,
    pub words: Vec<Word>,
}

/// A call of the function at the place.
#[derive(Drop)]
pub struct Call {
    pub place: FunId,
    pub args: Arguments,
}

/// The function of the name, and the arguments that a file spells for it.
pub fn read_call<S: Store>(
    alloc: Global,
    store: &mut S,
    typed: &Typed,
    name: &str,
    file: &str,
) -> Result<Call, Refusal>
    requires ready { IsReady (program_of typed.now) }
    ensures ok { (before : Text → ℕ) →
        IfOk result (ReadsCall (store_of (S.holds store.old) before (S.faults store.new)) (program_of typed.now) name.now file.now) }
    ensures err { (before : Text → ℕ) → Before before (S.faults store.old) →
        IfErr result (Refuses no_names
        (CallRefuses (store_of (S.holds store.old) before (S.faults store.new)) (program_of typed.now) name.now file.now)) }
    ensures kept { S.holds store.new ≡ S.holds store.old }
    ensures later { (other : Text) → S.faults store.old other ≤ S.faults store.new other }
{
    match typed.program().find(name) {
        Some(place) => match read_file(alloc, store, file, Which::Data) {
            Ok(bytes) => match read_arguments(alloc, typed, place, &bytes) {
                Ok(args) => Ok(Call { place, args }),
                Err(refusal) => Err(refusal),
            },
            Err(refusal) => Err(refusal),
        },
        None => Err(Refusal::no_function()),
    }
}

/// The arguments that bytes spell for the function at the place.
pub fn read_arguments(
    alloc: Global,
    typed: &Typed,
    place: FunId,
    bytes: &[u8],
) -> Result<Arguments, Refusal>
    requires ready { IsReady (program_of typed.now) }
    requires place { place.0 < length (program_of typed.now) }
    requires short { length bytes.now ≤ 4194304 }
    ensures ok { IfOk result (ReadsArguments (program_of typed.now) place.0 bytes.now) }
    ensures err { IfErr result (Refuses no_names (ArgumentsRefuse (program_of typed.now) place.0 bytes.now)) }
{
    let types = parameter_types(alloc, &typed.program().funs[place.0 as usize].params)?;
    let mut heap = DataHeap::new(alloc);
    match read_args(alloc, bytes, &types, &mut heap) {
        Ok(words) => Ok(Arguments { heap, words }),
        Err(fault) => Err(data_refusal(alloc, fault)),
    }
}

// The types of parameters.
fn parameter_types(alloc: Global, params: &[Param]) -> Result<Vec<Ty>, AllocError>
    ensures { IfOk result (λ types. map ty_of types.items ≡ types_in params.now) }
{
    let mut types = Vec::new(alloc);
    for param in params {
        types.push(param.ty.copy(alloc)?)?;
    }
    Ok(types)
}
