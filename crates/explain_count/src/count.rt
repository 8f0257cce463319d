// The count program of a group.
ghost use Rattle.std.specs.Prelude.{◌≡◌, ◌<◌, ◌^◌, IfOk, length};
ghost use Rattle.raml_syntax.specs.Read.{function_of, program_of};
ghost use Rattle.call_groups.specs.Read.{ids_of};
ghost use Rattle.explain_count.specs.Count.{with_body, counting, counting_body, count_program};
ghost use Rattle.explain_count.specs.Read.{term_in};

use crate::copied::{copy_name, copy_params, node};
use crate::tickless::without_ticks;
use explain_rounds::is_in;
use raml_syntax::{Expr, Form, Fun, FunId, Program};
use std::alloc::{AllocError, Global};

/// The body without its ticks, and behind one tick where the function is counted.
fn counting_body(alloc: Global, fun: &Fun, is_counted: bool) -> Result<Box<Expr>, AllocError>
    ensures { IfOk result (λ body. term_in body ≡ counting_body is_counted (function_of fun.now)) }
{
    let body = without_ticks(alloc, &fun.body)?;
    if is_counted {
        node(alloc, fun.at, Form::Tick(1, body))
    } else {
        Ok(body)
    }
}

/// A copy of a function, but with this body.
fn with_body(alloc: Global, fun: &Fun, body: Box<Expr>) -> Result<Fun, AllocError>
    ensures { IfOk result (λ made. function_of made ≡ with_body (function_of fun.now) (term_in body)) }
{
    let name = copy_name(alloc, &fun.name)?;
    let params = copy_params(alloc, &fun.params)?;
    let result = fun.result.copy(alloc)?;
    Ok(Fun {
        at: fun.at,
        name,
        params,
        result,
        body: Box::into_inner(body),
    })
}

fn counting(alloc: Global, fun: &Fun, is_counted: bool) -> Result<Fun, AllocError>
    ensures { IfOk result (λ made. function_of made ≡ counting is_counted (function_of fun.now)) }
{
    let body = counting_body(alloc, fun, is_counted)?;
    with_body(alloc, fun, body)
}

/// The program without its ticks, but with one tick before the body of each function of the group, so
/// that its ticks count the calls of these functions.
pub fn count_program(
    alloc: Global,
    program: &Program,
    group: &[FunId],
) -> Result<Program, AllocError>
    requires { length (program_of program.now) < 2 ^ 32 }
    ensures { IfOk result (λ made. program_of made ≡ count_program (ids_of group.now) (program_of program.now)) }
{
    let mut funs = Vec::new(alloc);
    let mut place = 0;
    for fun in &program.funs {
        funs.push(counting(alloc, fun, is_in(FunId(place), group))?)?;
        place += 1;
    }
    Ok(Program { funs })
}
