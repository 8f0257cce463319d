// Two parameters of a function, and what stands for them.
ghost use Rattle.std.specs.Prelude.{◌≡◌, ◌<◌};
ghost use Rattle.std.specs.Borrow.{Bor};
ghost use Rattle.std.specs.List.{slice_get};
ghost use Rattle.std.specs.Option.{option_map};
ghost use Rattle.raml_syntax.specs.Read.{program_of, function_of};
ghost use Rattle.explain_exchange.specs.Read.{place_before, two_of};

use raml_syntax::{Fun, FunId, Name, Program};

/// Two parameters of a function, by their places from 0, the first before the second.
#[derive(Clone, Copy)]
pub struct TwoParams<'a> {
    pub function: &'a Name,
    pub first: usize,
    pub second: usize,
}

impl<'a> TwoParams<'a> {
    /// Those at two places of a function.
    pub fn of(fun: &'a Fun, first: usize, second: usize) -> TwoParams<'a>
        ensures { two_of result ≡ record { function = fun.now.name; first = first; second = second } }
    {
        TwoParams {
            function: &fun.name,
            first,
            second,
        }
    }
}

/// The function at a place of a program.
pub(crate) fn function_at(program: &Program, fun: FunId) -> Option<&Fun>
    ensures { option_map (λ (found : Bor Fun). function_of found.now) result ≡ slice_get (program_of program.now) fun.0 }
{
    program.funs.get(fun.0 as usize)
}

/// The place that what is at a place had before the elements at two places were exchanged, of so many.
pub(crate) fn place_before(first: usize, second: usize, count: usize, place: usize) -> usize
    ensures before { result ≡ place_before first second count place }
    ensures within { place < count → result < count }
{
    if first >= second || second >= count {
        place
    } else if place == first {
        second
    } else if place == second {
        first
    } else {
        place
    }
}
