// Functions that have the same headers.
ghost use Rattle.std.specs.Prelude.{◌↔◌, map, IsTrue};
ghost use Rattle.raml_syntax.specs.Read.{function_of, parameter_of};
ghost use Rattle.explain_inline.specs.Headers.{SameParameters, SameHeader, SameHeaders};

use raml_syntax::{Fun, Param};

/// Whether the parameters have the same names and types.
fn same_params(params: &[Param], others: &[Param]) -> bool
    ensures { IsTrue result ↔ SameParameters (map parameter_of params.now) (map parameter_of others.now) }
{
    match params {
        [] => match others {
            [] => true,
            [_, ..] => false,
        },
        [param, rest @ ..] => match others {
            [] => false,
            [other, more @ ..] => {
                param.name.text() == other.name.text()
                    && param.ty.same(&other.ty)
                    && same_params(rest, more)
            }
        },
    }
}

/// Whether the functions have the same name, parameters and result.
fn same_header(fun: &Fun, other: &Fun) -> bool
    ensures { IsTrue result ↔ SameHeader (function_of fun.now) (function_of other.now) }
{
    fun.name.text() == other.name.text()
        && same_params(&fun.params, &other.params)
        && fun.result.same(&other.result)
}

/// Whether there are as many functions, each with the same header.
pub fn same_headers(funs: &[Fun], others: &[Fun]) -> bool
    ensures { IsTrue result ↔ SameHeaders (map function_of funs.now) (map function_of others.now) }
{
    match funs {
        [] => match others {
            [] => true,
            [_, ..] => false,
        },
        [fun, rest @ ..] => match others {
            [] => false,
            [other, more @ ..] => same_header(fun, other) && same_headers(rest, more),
        },
    }
}
