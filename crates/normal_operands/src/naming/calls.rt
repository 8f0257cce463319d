// Calls and their arguments.
ghost use Rattle.std.specs.Prelude.{◌≡◌, IfOk, None};
ghost use Rattle.raml_syntax.specs.Read.{terms_of};
ghost use Rattle.raml_syntax.specs.Tree as t;
ghost use Rattle.normal_spec.specs.One as one;
ghost use Rattle.normal_operands.specs.Read.{program_in, scope_in, norm_in, form_at};
ghost use Rattle.normal_operands.specs.Operand.{operands_of, types_in};

use crate::functions::{params_named, place_named};
use crate::maker::Maker;
use crate::naming::name_operand;
use crate::operand::{Operand, close_all, variables_of};
use crate::scope::Env;
use crate::types::TyRef;
use normal_spec::{NormExpr, NormForm};
use raml_syntax::{Expr, Name, Param};
use std::alloc::AllocError;

/// The form of a call.
#[cycle(naming)]
pub fn name_call<'s, 'a>(
    env: Env<'s, 'a>,
    maker: &mut Maker,
    function: &'a Name,
    args: &'a [Expr],
) -> Result<Box<NormExpr>, AllocError>
    ensures { IfOk result (λ made. norm_in made ≡ form_at env.entry None (t.Call 0 function.now (terms_of args.now))) }
{
    let place = place_named(env.names, function.text())?;
    let params = params_named(env.names, function.text());
    let operands = name_arguments(env, maker, args, params)?;
    let variables = variables_of(maker.alloc, &operands)?;
    close_all(maker, operands, NormForm::Call(place, variables))
}

/// What stands for arguments, from left to right, where these are the parameters.
#[cycle(naming)]
fn name_arguments<'s, 'a>(
    env: Env<'s, 'a>,
    maker: &mut Maker,
    args: &'a [Expr],
    params: &[Param],
) -> Result<Vec<Operand>, AllocError>
    ensures { IfOk result (λ operands. operands_of operands.items
        ≡ one.operands (program_in env.entry) (scope_in env.entry.scope.now) (terms_of args.now) (types_in params.now) env.entry.free) }
{
    let mut operands = Vec::new(maker.alloc);
    let mut free = env.free;
    let mut rest = params;
    for arg in args {
        let want = match rest {
            [] => TyRef::Int,
            [param, more @ ..] => {
                rest = more;
                TyRef::Of(&param.ty)
            }
        };
        let operand = name_operand(Env { free, ..env }, maker, Some(want), arg)?;
        free = operand.after(free)?;
        operands.push(operand)?;
    }
    Ok(operands)
}
