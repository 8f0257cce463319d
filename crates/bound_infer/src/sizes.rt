// How many positions the functions of a group have.
ghost use Rattle.std.specs.Prelude.{◌≡◌, ◌<◌, ◌∷◌, [], map, length, slice_get, IfOk};
ghost use Rattle.raml_syntax.specs.Read.{ty_of};
ghost use Rattle.base_poly.specs.Read.{context_of};
ghost use Rattle.normal_spec.specs.Context.{types};
ghost use Rattle.normal_spec.specs.Read.{parameters_of};
ghost use Rattle.call_groups.specs.Read.{ids_of};
ghost use Rattle.annot_types.specs.Program.{members};
ghost use Rattle.annot_types.specs.Rows.{size as size_of};
ghost use Rattle.rules_walk.specs.Sizes.{AreSizes};
ghost use Rattle.infer_systems_laws.specs.Tried.{IsOrdered};
ghost use Rattle.bound_infer.specs.Sized.{sizes_in};
ghost use Rattle.rules_plan.specs.Read.{program_in};

use crate::kinds::members;
use base_poly::positions;
use raml_syntax::{FunId, Ty};
use share_normal::NormProgram;
use std::alloc::{AllocError, Global};

// How many tuples of degree at most `d` there are. So many that they are not counted have no room in memory.
fn size(alloc: Global, types: &[Ty], d: u8) -> Result<usize, AllocError>
    ensures { IfOk result (λ size. size ≡ size_of (context_of types.now) d) }
{
    match positions(alloc, types, d, usize::MAX) {
        Ok(count) => Ok(count),
        Err(_) => Err(AllocError),
    }
}

// The types of the parameters.
fn types_of(alloc: Global, params: &[(u32, Ty)]) -> Result<Vec<Ty>, AllocError>
    ensures { IfOk result (λ found. context_of found.items ≡ types (parameters_of params.now)) }
{
    let mut found = Vec::with_capacity(alloc, params.len())?;
    for (_, ty) in params {
        found.push(ty.copy(alloc)?)?;
    }
    Ok(found)
}

// Those of the arguments.
fn args_size(alloc: Global, params: &[(u32, Ty)], d: u8) -> Result<usize, AllocError>
    ensures { IfOk result (λ size. size ≡ size_of (types (parameters_of params.now)) d) }
{
    let types = types_of(alloc, params)?;
    size(alloc, &types, d)
}

// Those of the result.
fn result_size(alloc: Global, ty: &Ty, d: u8) -> Result<usize, AllocError>
    ensures { IfOk result (λ size. size ≡ size_of (ty_of ty.now ∷ []) d) }
{
    let types = vec![in alloc; ty.copy(alloc)?]?;
    size(alloc, &types, d)
}

// Those of a function of the program.
fn sizes_of(
    alloc: Global,
    program: &NormProgram<'_>,
    fun: FunId,
    d: u8,
) -> Result<(usize, usize), AllocError>
    requires { fun.0 < length program.now.functions }
    ensures { IfOk result (λ sizes. sizes ≡ sizes_in d (slice_get (program_in program.now).funs fun.0)) }
{
    let _source = program.source();
    let functions = program.functions();
    let results = program.results();
    let args = args_size(alloc, &functions.fun(fun).params, d)?;
    let result = result_size(alloc, &results[fun.0 as usize], d)?;
    Ok((args, result))
}

/// Those of the functions of a group, at a budget.
pub fn sizes(
    alloc: Global,
    program: &NormProgram<'_>,
    group: u32,
    budget: u8,
) -> Result<Vec<(usize, usize)>, AllocError>
    requires { IsOrdered (program_in program.now) }
    ensures { IfOk result (λ made. AreSizes (program_in program.now) budget (members (program_in program.now) group) made.items) }
{
    let _source = program.source();
    let _functions = program.functions();
    let _groups = program.groups();
    let funs = members(program, group);
    let mut made = Vec::with_capacity(alloc, funs.len())?;
    for place in 0..funs.len() {
        made.push(sizes_of(alloc, program, funs[place], budget)?)?;
    }
    Ok(made)
}
