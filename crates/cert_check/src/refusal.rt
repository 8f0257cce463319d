// What is told where the schedule does not go on.
ghost use Rattle.std.specs.Prelude.{◌≡◌, ◌≤◌, ℕ, Bool, length, List, Some, slice_get, IfOk};
ghost use Rattle.raml_syntax.specs.Read.{ty_of};
ghost use Rattle.std.specs.Option.{option_map};
ghost use Rattle.base_poly.specs.Read.{context_of};
ghost use Rattle.call_groups.specs.Read.{ids_of};
ghost use Rattle.cost_free.specs.Read.{task_of, lists_of};
ghost use Rattle.cost_free.specs.Refused.{has_more};
ghost use Rattle.cert_check.specs.Finds.{large_in, large_from};

use base_poly::{IndexFault, indices};
use cost_free::{Task, TaskKind};
use raml_syntax::{FunId, Ty};
use std::alloc::{AllocError, Global};
use std::slice;

fn ty_has_more(alloc: Global, ty: &Ty, degree: u8) -> Result<bool, AllocError>
    ensures { IfOk result (λ more. more ≡ has_more 2000 degree (Some (ty_of ty.now))) }
{
    match indices(alloc, slice::from_ref(ty), degree, 2000) {
        Ok(_) => Ok(false),
        Err(IndexFault::TooMany) => Ok(true),
        Err(IndexFault::NoMemory) => Err(AllocError),
    }
}

// The function's result has more than 2000 indices.
fn is_large(alloc: Global, results: &[Ty], degree: u8, fun: FunId) -> Result<bool, AllocError>
    ensures { IfOk result (λ more. more ≡ has_more 2000 degree (slice_get (context_of results.now) fun.0)) }
{
    match results.get(fun.0 as usize) {
        None => Ok(false),
        Some(ty) => ty_has_more(alloc, ty, degree),
    }
}

// The first task of the first such function of a group.
fn large_in(
    alloc: Global,
    results: &[Ty],
    degree: u8,
    group: u32,
    functions: &[FunId],
) -> Result<Option<Task>, AllocError>
    ensures { IfOk result (λ task. (groups : List (List ℕ)) (work : Bool) → option_map task_of task
        ≡ large_in (record {
          results = context_of results.now;
          groups = groups;
          degree = degree;
          work = work;
        }) group (ids_of functions.now)) }
{
    for fun in functions {
        if is_large(alloc, results, degree, *fun)? {
            return Ok(Some(Task {
                group,
                kind: TaskKind::Free {
                    budget: degree,
                    fun: *fun,
                    target: 0,
                },
            }));
        }
    }
    Ok(None)
}

/// The first of all groups, which are few.
pub fn large_task(
    alloc: Global,
    results: &[Ty],
    degree: u8,
    groups: &[Vec<FunId>],
) -> Result<Option<Task>, AllocError>
    requires { length groups.now ≤ 256 }
    ensures { IfOk result (λ task. (all : List (List ℕ)) (work : Bool) → option_map task_of task
        ≡ large_from (record { results = context_of results.now; groups = all; degree = degree; work = work }) 0 (lists_of groups.now)) }
{
    for group in 0..groups.len() {
        let found = large_in(alloc, results, degree, group as u32, &groups[group])?;
        if found.is_some() {
            return Ok(found);
        }
    }
    Ok(None)
}
