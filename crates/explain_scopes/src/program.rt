// The names of programs.
ghost use Rattle.std.specs.Prelude.{◌≡◌, ◌++◌, [], ◌∷◌, ℕ, List, map, IfOk, OnOk};
ghost use Rattle.raml_syntax.specs.Tree.{Parameter};
ghost use Rattle.raml_syntax.specs.Read.{function_of, parameter_of, program_of, term_of};
ghost use Rattle.parse_table.specs.Read.{pieces, token_of};
ghost use Rattle.explain_scopes.specs.Scopes as s;
ghost use Rattle.explain_scopes.specs.Scopes.{bind_parameters, named_at, names_in, names_of, names_of_all, variable};
ghost use Rattle.explain_scopes.specs.Sources.{function_places, place_behind};
ghost use Rattle.explain_scopes.specs.Read.{bounds_of, occurrences_of, places_of, scope_of};

use crate::occurrence::{Bound, Kind, Occurrence};
use crate::scope::{Env, Scope};
use crate::walk::push_names;
use parse_table::token::{Piece, Sign};
use raml_syntax::{Fun, Param, Pos, Program};
use std::alloc::{AllocError, Global};

/// Adds the place of the token behind a `fun`.
fn push_place_behind(
    places: &mut Vec<Pos>,
    token: &Piece<'_>,
    rest: &[Piece<'_>],
) -> Result<(), AllocError>
    ensures { OnOk result (places_of places.new.items ≡ places_of places.old.items ++ place_behind (token_of token.now) (pieces rest.now)) }
{
    match rest {
        [next, ..] => {
            if token.is(Sign::Fun) {
                places.push(next.at)?;
            }
            Ok(())
        }
        [] => Ok(()),
    }
}

/// Where the names of functions stand.
fn function_places(alloc: Global, tokens: &[Piece<'_>]) -> Result<Vec<Pos>, AllocError>
    ensures { IfOk result (λ places. places_of places.items ≡ function_places (pieces tokens.now)) }
{
    let mut places = Vec::new(alloc);
    for place in 0..tokens.len() {
        push_place_behind(&mut places, &tokens[place], &tokens[place + 1..])?;
    }
    Ok(places)
}

/// The functions, whose names stand at these places.
fn functions_at<'a>(
    alloc: Global,
    places: &[Pos],
    funs: &'a [Fun],
) -> Result<Vec<Bound<'a>>, AllocError>
    ensures { IfOk result (λ functions. bounds_of functions.items ≡ named_at (places_of places.now) (map function_of funs.now)) }
{
    let mut functions = Vec::new(alloc);
    let mut place = 0;
    while place < places.len() && place < funs.len() {
        functions.push(Bound {
            at: places[place],
            name: &funs[place].name,
        })?;
        place += 1;
    }
    Ok(functions)
}

/// Adds parameters, where they are bound.
fn push_parameters<'a>(
    found: &mut Vec<Occurrence<'a>>,
    params: &'a [Param],
) -> Result<(), AllocError>
    ensures { OnOk result (occurrences_of found.new.items
        ≡ occurrences_of found.old.items
        ++ map (λ (p : Parameter). variable (s.parameter p)) (map parameter_of params.now)) }
{
    for param in params {
        found.push(Bound::parameter(param).occurrence(Kind::Variable))?;
    }
    Ok(())
}

/// Adds the names of a body below its parameters, of which some are bound already.
fn push_body<'s, 'a>(
    found: &mut Vec<Occurrence<'a>>,
    env: Env<'s, 'a>,
    params: &'a [Param],
    fun: &'a Fun,
) -> Result<(), AllocError>
    ensures { OnOk result (occurrences_of found.new.items
        ≡ occurrences_of found.old.items
        ++ names_in (bounds_of env.entry.functions.now)
        (bind_parameters (scope_of env.entry.scope.now) (map parameter_of params.now)) (term_of fun.now.body)) }
{
    match params {
        [] => push_names(found, env, &fun.body),
        [param, rest @ ..] => {
            let scope = Scope::More {
                newest: Bound::parameter(param),
                outer: env.scope,
            };
            let functions = env.functions;
            push_body(
                found,
                Env {
                    functions,
                    scope: &scope,
                },
                rest,
                fun,
            )
        }
    }
}

/// Adds those of a function behind its own name.
fn push_function_names<'a>(
    found: &mut Vec<Occurrence<'a>>,
    functions: &[Bound<'a>],
    fun: &'a Fun,
) -> Result<(), AllocError>
    ensures { OnOk result (occurrences_of found.new.items
        ≡ occurrences_of found.old.items ++ names_of (bounds_of functions.now) (function_of fun.now)) }
{
    push_parameters(found, &fun.params)?;
    let scope = Scope::empty();
    let env = Env {
        functions,
        scope: &scope,
    };
    push_body(found, env, &fun.params, fun)
}

/// Adds those of all functions.
fn push_functions<'a>(
    found: &mut Vec<Occurrence<'a>>,
    functions: &[Bound<'a>],
    funs: &'a [Fun],
) -> Result<(), AllocError>
    ensures { OnOk result (occurrences_of found.new.items
        ≡ occurrences_of found.old.items ++ names_of_all (bounds_of functions.now) (bounds_of functions.now) (map function_of funs.now)) }
{
    let mut place = 0;
    while place < functions.len() && place < funs.len() {
        found.push(functions[place].occurrence(Kind::Function))?;
        push_function_names(found, functions, &funs[place])?;
        place += 1;
    }
    Ok(())
}

/// All names of a program with these tokens.
pub fn occurrences<'a>(
    alloc: Global,
    program: &'a Program,
    tokens: &[Piece<'_>],
) -> Result<Vec<Occurrence<'a>>, AllocError>
    ensures { IfOk result (λ found. occurrences_of found.items ≡ s.occurrences (function_places (pieces tokens.now)) (program_of program.now)) }
{
    let places = function_places(alloc, tokens)?;
    let functions = functions_at(alloc, &places, &program.funs)?;
    let mut found = Vec::new(alloc);
    push_functions(&mut found, &functions, &program.funs)?;
    Ok(found)
}
