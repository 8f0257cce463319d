// Functions whose nodes stand behind their prices.
ghost use Rattle.std.specs.Prelude.{◌≡◌, IfOk, map};
ghost use Rattle.raml_syntax.specs.Read.{function_of};
ghost use Rattle.price_file.specs.Read.{term_in, function_applied_by, with_body};

use crate::node::{Maker, copy_name, copy_params};
use crate::nodes::apply_expr;
use raml_syntax::{Expr, Fun};
use std::alloc::{AllocError, Global};

/// A copy of a function, but with this body.
fn with_body(alloc: Global, fun: &Fun, body: Box<Expr>) -> Result<Fun, AllocError>
    ensures { IfOk result (λ made. function_of made ≡ with_body (function_of fun.now) (term_in body)) }
{
    let name = copy_name(alloc, &fun.name)?;
    let params = copy_params(alloc, &fun.params)?;
    let result = fun.result.copy(alloc)?;
    Ok(Fun {
        at: fun.at,
        name,
        params,
        result,
        body: Box::into_inner(body),
    })
}

/// The function with each node of its body behind its price.
fn apply_function<'a>(maker: Maker<'a>, fun: &Fun) -> Result<Fun, AllocError>
    ensures { IfOk result (λ made. function_of made ≡ function_applied_by maker.entry (function_of fun.now)) }
{
    let body = apply_expr(maker, &fun.body)?;
    with_body(maker.alloc, fun, body)
}

/// The functions with each node of their bodies behind its price.
pub fn apply_functions<'a>(maker: Maker<'a>, funs: &[Fun]) -> Result<Vec<Fun>, AllocError>
    ensures { IfOk result (λ made. map function_of made.items ≡ map (function_applied_by maker.entry) (map function_of funs.now)) }
{
    let mut made = Vec::new(maker.alloc);
    for fun in funs {
        made.push(apply_function(maker, fun)?)?;
    }
    Ok(made)
}
