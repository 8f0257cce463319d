// How a call goes down, by its arguments.
ghost use Rattle.std.specs.Prelude.{◌≡◌, slice_get};
ghost use Rattle.raml_syntax.specs.Read.{program_of, terms_of};
ghost use Rattle.call_groups.specs.Read.{ids_of};
ghost use Rattle.explain_rounds.specs.Calls as c;
ghost use Rattle.explain_rounds.specs.Classes.{is_part, is_made};
ghost use Rattle.explain_rounds.specs.Read.{variables_in, types_in, function_in};

use crate::class::{class_of, is_sized};
use crate::scope::Scope;
use raml_syntax::{Expr, Fun, FunId, Param, Program};

/// How a call of a function of the group goes down.
#[derive(Clone, Copy, PartialEq, Eq, Debug)]
pub enum Kind {
    /// Some argument of a sized type is a part of a parameter, or a pair that holds one.
    Smaller,
    /// No such argument is a part, and some holds a call, or what comes from one.
    Computed,
    /// No such argument is a part, and none comes from a call.
    Stuck,
}

/// Whether the function is of the group.
pub fn is_in(fun: FunId, group: &[FunId]) -> bool
    ensures { result ≡ c.is_in fun.0 (ids_of group.now) }
{
    for member in group {
        if fun.0 == member.0 {
            return true;
        }
    }
    false
}

/// Whether some argument of a sized type is a part, or a pair that holds one.
fn hands_part(scope: &Scope, params: &[Param], args: &[Expr]) -> bool
    ensures { result ≡ c.hands is_part (variables_in scope.now) (types_in params.now) (terms_of args.now) }
{
    match params {
        [] => false,
        [param, params @ ..] => match args {
            [] => false,
            [arg, args @ ..] => {
                is_sized(&param.ty) && class_of(scope, arg).is_part()
                    || hands_part(scope, params, args)
            }
        },
    }
}

/// Whether some argument of a sized type holds a call, or a variable that comes from one.
fn hands_made(scope: &Scope, params: &[Param], args: &[Expr]) -> bool
    ensures { result ≡ c.hands is_made (variables_in scope.now) (types_in params.now) (terms_of args.now) }
{
    match params {
        [] => false,
        [param, params @ ..] => match args {
            [] => false,
            [arg, args @ ..] => {
                is_sized(&param.ty) && class_of(scope, arg).is_made()
                    || hands_made(scope, params, args)
            }
        },
    }
}

/// The function at a place.
pub fn function_at(program: &Program, fun: FunId) -> Option<&Fun>
    ensures { function_in result ≡ slice_get (program_of program.now) fun.0 }
{
    program.funs.get(fun.0 as usize)
}

/// The parameters of a function.
pub fn params_of(program: &Program, fun: FunId) -> &[Param]
    ensures { types_in result.now ≡ c.types_at (slice_get (program_of program.now) fun.0) }
{
    match function_at(program, fun) {
        Some(fun) => &fun.params,
        None => &[],
    }
}

/// How a call of a function goes down.
pub fn kind_of(scope: &Scope, program: &Program, fun: FunId, args: &[Expr]) -> Kind
    ensures { result
        ≡ c.kind_of (variables_in scope.now) (c.types_at (slice_get (program_of program.now) fun.0)) (terms_of args.now) }
{
    let params = params_of(program, fun);
    if hands_part(scope, params, args) {
        Kind::Smaller
    } else if hands_made(scope, params, args) {
        Kind::Computed
    } else {
        Kind::Stuck
    }
}
