// The bodies of functions.
ghost use Rattle.std.specs.Prelude.{◌≡◌, ◌+◌, IfOk, Some, length, map};
ghost use Rattle.raml_syntax.specs.Read.{term_of, function_of, parameter_of, program_of};
ghost use Rattle.normal_spec.specs.One as one;
ghost use Rattle.normal_spec.specs.Read.{norm_of};
ghost use Rattle.normal_operands.specs.Types.{lent};
ghost use Rattle.normal_operands.specs.Read.{program_in, scope_in, norm_in};

use crate::maker::Maker;
use crate::naming::name_expr;
use crate::operand::{carry, plus};
use crate::scope::{Env, Local, Scope};
use crate::types::TyRef;
use normal_spec::NormExpr;
use raml_syntax::{Expr, Fun, FunctionNames, Param};
use std::alloc::AllocError;

/// The least number that is free below parameters.
fn free_below(params: &[Param]) -> Result<u32, AllocError>
    ensures { IfOk result (λ free. free ≡ length (map parameter_of params.now) + 1) }
{
    match u32::try_from(params.len()) {
        Ok(count) => plus(count, 1),
        Err(_) => Err(AllocError),
    }
}

/// The form of an expression below parameters, which are numbered from `number` on.
fn name_below_params<'s, 'a>(
    env: Env<'s, 'a>,
    maker: &mut Maker,
    want: TyRef,
    params: &'a [Param],
    number: u32,
    e: &'a Expr,
) -> Result<Box<NormExpr>, AllocError>
    ensures { IfOk result (λ made. norm_in made ≡ one.one (program_in env.entry) (Some (lent want.entry))
        (one.scope_of (map parameter_of params.now) number (scope_in env.entry.scope.now)) (term_of e.now) env.entry.free) }
{
    match params {
        [] => name_expr(env, maker, Some(want), e),
        [param, rest @ ..] => {
            let next = plus(number, 1)?;
            let local = Local {
                name: &param.name,
                number,
                ty: TyRef::Of(&param.ty),
            };
            let scope = Scope::Bound {
                local,
                outer: env.scope,
            };
            let inner = Env {
                scope: &scope,
                ..env
            };
            name_below_params(inner, maker, want, rest, next, e)
        }
    }
}

/// The body of a function, in which each operand is a variable: step one of its normal form. Memory is
/// wanting too where the maker has made all the nodes of types that it may, or a number would leave 32 bits.
pub fn name_operands<'a>(
    maker: &mut Maker,
    names: &FunctionNames<'a>,
    fun: &'a Fun,
) -> Result<NormExpr, AllocError>
    ensures { IfOk result (λ body. norm_of body ≡ one.body_of (program_of names.now.program.now) (function_of fun.now)) }
{
    let free = free_below(&fun.params)?;
    let scope = Scope::Empty;
    let env = Env {
        names,
        scope: &scope,
        free,
    };
    let result = TyRef::Of(&fun.result);
    let body = name_below_params(env, maker, result, &fun.params, 1, &fun.body)?;
    Ok(Box::into_inner(carry(1, body)?))
}
