// Functions that give the same values in two programs, on made arguments.
ghost use Rattle.std.specs.Prelude.{◌≡◌, Some, IfOk, IfSome, slice_get, true};
ghost use Rattle.raml_syntax.specs.Read.{program_of, function_of};
ghost use Rattle.call_groups.specs.Read.{ids_of};
ghost use Rattle.explain_runs.specs.Measure.{CanRun};
ghost use Rattle.explain_kept.specs.Kept.{KeepsValue, KeepValues};

use explain_made::made_texts;
use explain_runs::{Limits, agree};
use raml_syntax::{Fun, FunId};
use simple_types::Typed;
use std::alloc::{AllocError, Global};

/// The sizes of made arguments, of each of which three are made.
const SIZES: [u32; 17] = [0, 1, 2, 3, 4, 5, 6, 7, 8, 9, 10, 11, 12, 13, 14, 15, 16];

/// Where their random numbers begin.
const SEED: u64 = 1;

/// Whether each of these functions gives the same values in both programs, on fifty-one made arguments.
pub fn keep_values(
    alloc: Global,
    first: &Typed,
    second: &Typed,
    funs: &[FunId],
) -> Result<bool, AllocError>
    requires first { CanRun (program_of first.now) }
    requires second { CanRun (program_of second.now) }
    ensures { IfOk result (λ kept. kept ≡ true → KeepValues (program_of first.now) (program_of second.now) (ids_of funs.now)) }
{
    match funs {
        [] => Ok(true),
        [fun, rest @ ..] => {
            if !keeps_value(alloc, first, second, *fun)? {
                return Ok(false);
            }
            keep_values(alloc, first, second, rest)
        }
    }
}

/// The function at a place.
fn function_at(typed: &Typed, fun: FunId) -> Option<&Fun>
    ensures { IfSome result (λ function. slice_get (program_of typed.now) fun.0 ≡ Some (function_of function.now)) }
{
    typed.program().funs.get(fun.0 as usize)
}

/// Whether a function does so. Runs that do not end within the limits are not compared.
fn keeps_value(alloc: Global, first: &Typed, second: &Typed, fun: FunId) -> Result<bool, AllocError>
    requires first { CanRun (program_of first.now) }
    requires second { CanRun (program_of second.now) }
    ensures { IfOk result (λ kept. kept ≡ true → KeepsValue (program_of first.now) (program_of second.now) fun.0) }
{
    let Some(function) = function_at(first, fun) else {
        return Ok(false);
    };
    if fun.0 as usize >= second.program().funs.len() {
        return Ok(false);
    }
    let texts = made_texts(alloc, function, &SIZES, SEED)?;
    let limits = Limits {
        steps: 100_000,
        cells: 100_000,
    };
    agree(alloc, first, second, fun, &texts, limits)
}
