// Functions by their names.
ghost use Rattle.std.specs.Prelude.{◌≡◌, IfOk, length, slice_get};
ghost use Rattle.std.specs.Option.{option_map, option_copied};
ghost use Rattle.raml_syntax.specs.Read.{function_of, program_of};
ghost use Rattle.raml_syntax.specs.Eval.{find};
ghost use Rattle.raml_syntax.specs.Place.{place_of};
ghost use Rattle.normal_spec.specs.One as one;
ghost use Rattle.normal_operands.specs.Operand.{types_in};

use raml_syntax::{Fun, FunId, FunctionNames, Param, Program};
use std::alloc::AllocError;

/// The function at a place of the program.
fn function_at(program: &Program, fun: FunId) -> Option<&Fun>
    ensures { option_map function_of (option_copied result) ≡ slice_get (program_of program.now) fun.0 }
{
    program.funs.get(fun.0 as usize)
}

/// The function of this name.
pub fn function_named<'a>(names: &FunctionNames<'a>, name: &str) -> Option<&'a Fun>
    ensures { option_map function_of (option_copied result) ≡ find name.now (program_of names.now.program.now) }
{
    match names.find(name) {
        Some(fun) => function_at(names.program, fun),
        None => None,
    }
}

/// The place of the function of this name. A typed program calls no other; for one that is not there it is
/// the place behind all functions.
pub fn place_named(names: &FunctionNames, name: &str) -> Result<FunId, AllocError>
    ensures { IfOk result (λ fun. fun.0
        ≡ one.place_or (length (program_of names.now.program.now)) (place_of name.now (program_of names.now.program.now))) }
{
    match names.find(name) {
        Some(fun) => Ok(fun),
        None => match u32::try_from(names.program.funs.len()) {
            Ok(count) => Ok(FunId(count)),
            Err(_) => Err(AllocError),
        },
    }
}

/// The parameters of the function of this name.
pub fn params_named<'a>(names: &FunctionNames<'a>, name: &str) -> &'a [Param]
    ensures { types_in result.now ≡ one.parameters_or (find name.now (program_of names.now.program.now)) }
{
    match function_named(names, name) {
        Some(fun) => &fun.params,
        None => &[],
    }
}
