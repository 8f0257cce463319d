// Plans of a form at the budgets that are reached, that of the greatest first.
ghost use Rattle.std.specs.Prelude.{◌≡◌, ◌≤◌, map, drop, IfOk};
ghost use Rattle.std.specs.Rc.{rc_value};
ghost use Rattle.base_poly.specs.Read.{context_of};
ghost use Rattle.annot_types.specs.Rows.{size as size_of};
ghost use Rattle.rules_spec.specs.Plan as p;
ghost use Rattle.rules_walk.specs.Read.{plan_of};
ghost use Rattle.rules_plan.specs.Down.{down, reached, each_down, both_down};
ghost use Rattle.rules_plan.specs.Change.{step_at};
ghost use Rattle.rules_plan.specs.Given.{made_of};

use crate::change::Move;
use crate::env::{Env, Reach};
use crate::tuples::size;
use raml_syntax::Ty;
use rules_walk::Plan;
use std::alloc::{AllocError, Global};
use std::rc::Rc;

/// The plan on the heap.
pub fn boxed(alloc: Global, plan: Plan) -> Result<Box<Plan>, AllocError>
    ensures { IfOk result (λ made. plan_of made.value ≡ plan_of plan) }
{
    Ok(Box::new(alloc, plan)?)
}

// The budgets from the greatest one down.
fn down(alloc: Global, top: u8) -> Result<Vec<u8>, AllocError>
    ensures { IfOk result (λ found. found.items ≡ down (λ d. d) top) }
{
    let mut found = Vec::new(alloc);
    let mut d = top;
    while d > 0 {
        found.push(d)?;
        d -= 1;
    }
    found.push(0)?;
    Ok(found)
}

/// The budgets that are reached.
pub fn budgets(env: &Env<'_>) -> Result<Vec<u8>, AllocError>
    ensures { IfOk result (λ found. found.items ≡ reached env.now.reach (λ d. d) env.now.top) }
{
    match env.reach {
        Reach::Greatest => Ok(vec![in env.alloc; env.top]?),
        Reach::Down => down(env.alloc, env.top),
    }
}

/// Ticks, and then these.
pub fn pays(
    alloc: Global,
    nodes: u32,
    ticks: u32,
    rests: Vec<Box<Plan>>,
) -> Result<Vec<Box<Plan>>, AllocError>
    ensures { IfOk result (λ made. made_of made.items ≡ map (λ e. p.Pays nodes ticks e) (made_of rests.items)) }
{
    let mut made = Vec::new(alloc);
    for rest in rests {
        made.push(boxed(alloc, Plan::Pays(nodes, ticks, rest))?)?;
    }
    Ok(made)
}

// At one budget: the context changes.
fn moved(
    alloc: Global,
    nodes: u32,
    change: &Move,
    d: u8,
    rest: Box<Plan>,
) -> Result<Box<Plan>, AllocError>
    requires low { d ≤ 4 }
    ensures { IfOk result (λ made. plan_of made.value ≡ p.Moves nodes (step_at change.now d) (plan_of rest.value)) }
{
    let step = change.step(alloc, d)?;
    boxed(alloc, Plan::Moves(nodes, step, rest))
}

/// The context changes, and then these.
pub fn moves(
    alloc: Global,
    nodes: u32,
    change: &Move,
    top: u8,
    rests: Vec<Box<Plan>>,
) -> Result<Vec<Box<Plan>>, AllocError>
    requires low { top ≤ 4 }
    ensures { IfOk result (λ made. made_of made.items ≡ each_down
        (λ d e. p.Moves nodes (step_at change.now d) e) top (made_of rests.items)) }
{
    let mut made = Vec::new(alloc);
    let mut d = top;
    for rest in rests {
        made.push(moved(alloc, nodes, change, d, rest)?)?;
        d = d.saturating_sub(1);
    }
    Ok(made)
}

// At one budget: a variable is shared.
fn doubled(
    alloc: Global,
    nodes: u32,
    change: &Move,
    types: &[Ty],
    d: u8,
    rest: Box<Plan>,
) -> Result<Box<Plan>, AllocError>
    requires low { d ≤ 4 }
    ensures { IfOk result (λ made. plan_of made.value
        ≡ p.Shares nodes (size_of (context_of types.now) d) (step_at change.now d) (plan_of rest.value)) }
{
    let step = change.step(alloc, d)?;
    let size = size(alloc, types, d)?;
    boxed(alloc, Plan::Shares(nodes, size, step, rest))
}

/// A variable is shared, by which the context has these types, and then these.
pub fn shares(
    alloc: Global,
    nodes: u32,
    change: &Move,
    types: &[Ty],
    top: u8,
    rests: Vec<Box<Plan>>,
) -> Result<Vec<Box<Plan>>, AllocError>
    requires low { top ≤ 4 }
    ensures { IfOk result (λ made. made_of made.items
        ≡ each_down (λ d e. p.Shares nodes (size_of (context_of types.now) d) (step_at change.now d) e) top (made_of rests.items)) }
{
    let mut made = Vec::new(alloc);
    let mut d = top;
    for rest in rests {
        made.push(doubled(alloc, nodes, change, types, d, rest)?)?;
        d = d.saturating_sub(1);
    }
    Ok(made)
}

// At one budget: one branch and the other.
fn forked(
    alloc: Global,
    nodes: u32,
    change: &Move,
    first: Box<Plan>,
    other: &Move,
    second: Box<Plan>,
    d: u8,
) -> Result<Box<Plan>, AllocError>
    requires low { d ≤ 4 }
    ensures { IfOk result (λ made. plan_of made.value
        ≡ p.Forks nodes (step_at change.now d) (plan_of first.value) (step_at other.now d) (plan_of second.value)) }
{
    let step = change.step(alloc, d)?;
    let other = other.step(alloc, d)?;
    boxed(alloc, Plan::Forks(nodes, step, first, other, second))
}

/// One branch and the other.
#[tactic(auto, using(crate::proofs::Downed::both_none))]
pub fn forks(
    alloc: Global,
    nodes: u32,
    change: &Move,
    firsts: Vec<Box<Plan>>,
    other: &Move,
    seconds: Vec<Box<Plan>>,
    top: u8,
) -> Result<Vec<Box<Plan>>, AllocError>
    requires low { top ≤ 4 }
    ensures { IfOk result (λ made. made_of made.items
        ≡ both_down (λ d a b. p.Forks nodes (step_at change.now d) a (step_at other.now d) b) top
        (made_of seconds.items) (made_of firsts.items)) }
{
    let mut made = Vec::new(alloc);
    let mut d = top;
    let mut firsts = firsts.into_iter();
    for second in seconds {
        let Some(first) = firsts.next() else {
            return Ok(made);
        };
        made.push(forked(alloc, nodes, change, first, other, second, d)?)?;
        d = d.saturating_sub(1);
    }
    Ok(made)
}

/// The plans as such that can be shared.
pub fn shared(alloc: Global, plans: Vec<Box<Plan>>) -> Result<Vec<Rc<Plan>>, AllocError>
    ensures { IfOk result (λ made. map (λ r. plan_of (rc_value r)) made.items ≡ made_of plans.items) }
{
    let mut made = Vec::new(alloc);
    for plan in plans {
        made.push(Rc::new(alloc, Box::into_inner(plan))?)?;
    }
    Ok(made)
}

// What stands from a place on.
fn from_place(plans: &[Rc<Plan>], place: usize) -> &[Rc<Plan>]
    ensures { result.now ≡ drop place plans.now }
{
    if place < plans.len() {
        &plans[place..]
    } else {
        &[]
    }
}

/// Those from a place on once more; none of them is copied.
pub fn tail(alloc: Global, plans: &[Rc<Plan>], place: usize) -> Result<Vec<Rc<Plan>>, AllocError>
    ensures { IfOk result (λ made. map rc_value made.items ≡ map rc_value (drop place plans.now)) }
{
    let mut made = Vec::new(alloc);
    for plan in from_place(plans, place) {
        made.push(plan.clone()?)?;
    }
    Ok(made)
}
