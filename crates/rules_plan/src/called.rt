// Plans of calls.
ghost use Rattle.std.specs.Prelude.{◌≡◌, map, slice_get, IfOk};
ghost use Rattle.raml_syntax.specs.Read.{ty_of};
ghost use Rattle.base_poly.specs.Read.{context_of};
ghost use Rattle.call_groups.specs.Read.{ids_of};
ghost use Rattle.normal_spec.specs.Norm as n;
ghost use Rattle.normal_spec.specs.Context.{types};
ghost use Rattle.normal_spec.specs.Read.{parameters_of};
ghost use Rattle.annot_types.specs.System.{args_of};
ghost use Rattle.rules_spec.specs.Plan as p;
ghost use Rattle.rules_spec.specs.Planned.{place_in, operand_entries};
ghost use Rattle.rules_walk.specs.Read.{plan_of, called_of};
ghost use Rattle.rules_plan.specs.Down.{reached};
ghost use Rattle.rules_plan.specs.Entries.{restricted};
ghost use Rattle.rules_plan.specs.Given.{given_of, made_of, ArePlans};
ghost use Rattle.rules_plan.specs.Wide.{at_budget, called_at, IsCallee};

use crate::budgets::{boxed, budgets};
use crate::context;
use crate::entries::restricted;
use crate::env::Env;
use crate::operands::{operand_entries, same_entries};
use crate::tuples::{context_sizes, sizes};
use index_shift::Entry;
use raml_syntax::{FunId, Ty};
use rules_walk::{Called, Plan};
use std::alloc::{AllocError, Global};
use std::slice;

/// Of a call, what is made once for all budgets: the function, its place in the group, how many
/// positions its arguments, the context and the result have at each budget from 0 on, and the entries at
/// the greatest budget.
#[derive(Drop)]
pub struct Callee {
    pub function: usize,
    pub own: Option<usize>,
    pub args: Vec<usize>,
    pub context: Vec<usize>,
    pub result: Vec<usize>,
    pub operands: Vec<Entry>,
    pub same: Vec<Entry>,
}

// The place of the function in the group.
fn place_in(group: &[FunId], fun: FunId) -> Option<usize>
    ensures { result ≡ place_in (ids_of group.now) fun.0 }
{
    for (at, member) in group.iter().enumerate() {
        if fun.0 == member.0 {
            return Some(at);
        }
    }
    None
}

// The types of the function's parameters; none where there is no such function.
#[tactic(auto, using(crate::proofs::Calling::args_there, crate::proofs::Calling::no_function, crate::proofs::Calling::no_result))]
fn args_of(env: &Env<'_>, fun: FunId) -> Result<Vec<Ty>, AllocError>
    ensures { IfOk result (λ found. context_of found.items ≡ args_of (slice_get (given_of env.now).funs fun.0)) }
{
    let place = fun.0 as usize;
    if place >= env.functions.len() {
        return Ok(Vec::new(env.alloc));
    }
    if place >= env.results.len() {
        return Ok(Vec::new(env.alloc));
    }
    context::types(env.alloc, &env.functions.fun(fun).params)
}

/// The number at a budget; 0 past the greatest one.
pub fn at_budget(sizes: &[usize], d: usize) -> usize
    ensures { result ≡ at_budget sizes.now d }
{
    match sizes.get(d) {
        Some(size) => *size,
        None => 0,
    }
}

// The entries from positions below each of the numbers and to positions below the limit.
fn all_restricted(
    alloc: Global,
    entries: &[Entry],
    froms: &[usize],
    limit: usize,
) -> Result<Vec<Vec<Entry>>, AllocError>
    ensures { IfOk result (λ found. map (λ es. es.items) found.items ≡ map (λ n. restricted n limit entries.now) froms.now) }
{
    let mut found = Vec::new(alloc);
    for from in froms {
        found.push(restricted(alloc, entries, *from, limit)?)?;
    }
    Ok(found)
}

// The call at a budget.
fn called(alloc: Global, callee: &Callee, d: u8) -> Result<Called, AllocError>
    ensures { IfOk result (λ made. called_of made ≡ called_at callee.now d) }
{
    let args = at_budget(&callee.context, d as usize);
    let result = at_budget(&callee.result, d as usize);
    let args_from = all_restricted(alloc, &callee.operands, &callee.args, args)?;
    let result_from = all_restricted(alloc, &callee.same, &callee.result, result)?;
    Ok(Called {
        function: callee.function,
        own: callee.own,
        args,
        result,
        args_from,
        result_from,
    })
}

// The same as a plan.
fn called_at(alloc: Global, nodes: u32, callee: &Callee, d: u8) -> Result<Box<Plan>, AllocError>
    ensures { IfOk result (λ made. plan_of made.value ≡ p.Calls nodes (called_at callee.now d)) }
{
    let called = called(alloc, callee, d)?;
    boxed(alloc, Plan::Calls(nodes, called))
}

// The call at the budgets that are reached.
fn at_budgets(env: &Env<'_>, nodes: u32, callee: &Callee) -> Result<Vec<Box<Plan>>, AllocError>
    ensures { IfOk result (λ made. made_of made.items ≡ map
        (λ d. p.Calls nodes (called_at callee.now d)) (reached env.now.reach (λ d. d) env.now.top)) }
{
    let mut made = Vec::new(env.alloc);
    for d in &budgets(env)? {
        made.push(called_at(env.alloc, nodes, callee, *d)?)?;
    }
    Ok(made)
}

// How many positions there are, and the entries.
fn made_once(
    env: &Env<'_>,
    fun: FunId,
    args: &[u32],
    context: &[(u32, Ty)],
    ty: &Ty,
) -> Result<Callee, AllocError>
    ensures { IfOk result (λ made. IsCallee (given_of env.now) (parameters_of context.now) fun.0 args.now (ty_of ty.now) made) }
{
    let parameters = args_of(env, fun)?;
    let result = slice::from_ref(ty);
    Ok(Callee {
        function: fun.0 as usize,
        own: place_in(env.group, fun),
        args: sizes(env.alloc, &parameters, env.top)?,
        context: context_sizes(env.alloc, context, env.top)?,
        result: sizes(env.alloc, result, env.top)?,
        operands: operand_entries(env.alloc, context, args, &parameters, env.top)?,
        same: same_entries(env.alloc, result, env.top)?,
    })
}

/// The plans of a call with these arguments, which are the whole context.
pub fn calls(
    env: &Env<'_>,
    nodes: u32,
    fun: FunId,
    args: &[u32],
    context: &[(u32, Ty)],
    ty: &Ty,
) -> Result<Vec<Box<Plan>>, AllocError>
    ensures { IfOk result (λ made. ArePlans (given_of env.now) (n.Call nodes fun.0 args.now)
        (parameters_of context.now) (ty_of ty.now) (made_of made.items)) }
{
    let callee = made_once(env, fun, args, context, ty)?;
    at_budgets(env, nodes, &callee)
}
