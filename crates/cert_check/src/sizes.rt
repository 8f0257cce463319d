// How many positions the functions of a group have.
ghost use Rattle.std.specs.Prelude.{◌≡◌, ◌≤◌, ◌++◌, ◌∷◌, [], List, map, slice_get, IfOk, OnOk};
ghost use Rattle.std.specs.List.{All};
ghost use Rattle.raml_syntax.specs.Read.{ty_of};
ghost use Rattle.base_poly.specs.Read.{context_of};
ghost use Rattle.call_groups.specs.Read.{ids_of};
ghost use Rattle.cost_free.specs.Read.{kind_of};
ghost use Rattle.normal_spec.specs.Context.{types};
ghost use Rattle.normal_spec.specs.Read.{parameters_of};
ghost use Rattle.annot_types.specs.Certificate as c;
ghost use Rattle.annot_types.specs.Held.{IfSolved};
ghost use Rattle.annot_types.specs.Holds as h;
ghost use Rattle.annot_types.specs.Read as a;
ghost use Rattle.annot_types.specs.Rows.{size as size_of};
ghost use Rattle.rules_walk.specs.Remembers.{Remembers};
ghost use Rattle.rules_plan.specs.Read.{program_in, GroupWithin};
ghost use Rattle.rules_plan.specs.Within.{FunctionWithin};
ghost use Rattle.cert_check.specs.Sizes.{fun_sizes};

use crate::at::{budget_of, members, result_of};
use crate::bound::{params_of, types_of};
use crate::course::remember;
use annot_types::{Block, BlockBody};
use base_poly::{IndexFault, positions};
use raml_syntax::{FunId, Ty};
use rules_walk::Earlier;
use share_normal::NormProgram;
use std::alloc::{AllocError, Global};
use std::slice;

// How many tuples of degree at most `d` there are, which are few.
fn size(alloc: Global, types: &[Ty], d: u8) -> Result<usize, AllocError>
    requires { size_of (context_of types.now) d ≤ 2000 }
    ensures { IfOk result (λ size. size ≡ size_of (context_of types.now) d) }
{
    match positions(alloc, types, d, 2000) {
        Ok(count) => Ok(count),
        Err(IndexFault::TooMany) => unreachable!(),
        Err(IndexFault::NoMemory) => Err(AllocError),
    }
}

// Those of the arguments.
fn args_size(alloc: Global, params: &[(u32, Ty)], d: u8) -> Result<usize, AllocError>
    requires { size_of (types (parameters_of params.now)) d ≤ 2000 }
    ensures { IfOk result (λ size. size ≡ size_of (types (parameters_of params.now)) d) }
{
    let types = types_of(alloc, params)?;
    size(alloc, &types, d)
}

// Those of the result.
fn result_size(alloc: Global, ty: &Ty, d: u8) -> Result<usize, AllocError>
    requires { size_of (ty_of ty.now ∷ []) d ≤ 2000 }
    ensures { IfOk result (λ size. size ≡ size_of (ty_of ty.now ∷ []) d) }
{
    size(alloc, slice::from_ref(ty), d)
}

// Those of a function, whose walk is within the limits; none where there is no such function.
fn fun_sizes(
    alloc: Global,
    program: &NormProgram<'_>,
    fun: FunId,
    d: u8,
) -> Result<(usize, usize), AllocError>
    requires { FunctionWithin 2000 (slice_get (program_in program.now).funs fun.0) d }
    ensures { IfOk result (λ sizes. sizes ≡ fun_sizes d (slice_get (program_in program.now).funs fun.0)) }
{
    let Some(params) = params_of(program, fun) else {
        return Ok((0, 0));
    };
    let Some(ty) = result_of(program, fun) else {
        return Ok((0, 0));
    };
    let args = args_size(alloc, params, d)?;
    let result = result_size(alloc, ty, d)?;
    Ok((args, result))
}

// Those of functions.
fn sizes(
    alloc: Global,
    program: &NormProgram<'_>,
    functions: &[FunId],
    d: u8,
) -> Result<Vec<(usize, usize)>, AllocError>
    requires { All (λ f. FunctionWithin 2000 (slice_get (program_in program.now).funs f) d) (ids_of functions.now) }
    ensures { IfOk result (λ made. made.items ≡ map (λ f. fun_sizes d (slice_get (program_in program.now).funs f)) (ids_of functions.now)) }
{
    let mut made = Vec::with_capacity(alloc, functions.len())?;
    for fun in functions {
        made.push(fun_sizes(alloc, program, *fun, d)?)?;
    }
    Ok(made)
}

/// The tables go past a block of a certificate of this degree, whose walks are within the limits where it
/// is solved.
pub fn remember_block(
    alloc: Global,
    program: &NormProgram<'_>,
    degree: u8,
    earlier: &mut Earlier,
    block: &Block,
) -> Result<(), AllocError>
    requires { IfSolved (a.body_of block.now.body)
        (GroupWithin (program_in program.now) block.now.task.group (h.budget_of degree (kind_of block.now.task.kind))) }
    ensures { OnOk result ((blocks : List c.Block) → Remembers (program_in program.now) degree blocks earlier.old →
        Remembers (program_in program.now) degree (blocks ++ a.block_of block.now ∷ []) earlier.new) }
{
    match block.body {
        BlockBody::Solved { .. } => {
            let functions = members(program, block.task.group);
            let budget = budget_of(degree, block.task.kind);
            let sizes = sizes(alloc, program, functions, budget)?;
            remember(alloc, program, degree, earlier, block, &sizes)
        }
        BlockBody::Refuted { .. } | BlockBody::Calls { .. } => {
            remember(alloc, program, degree, earlier, block, &[])
        }
    }
}
