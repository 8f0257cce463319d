// Plans of forms.
ghost use Rattle.std.specs.Prelude.{◌≡◌, ◌≤◌, [], ◌∷◌, map, IfOk};
ghost use Rattle.std.specs.Rc.{rc_value};
ghost use Rattle.raml_syntax.specs.Read.{ty_of};
ghost use Rattle.normal_spec.specs.Norm as n;
ghost use Rattle.normal_spec.specs.Context.{without, opened, parts_of, copies_of};
ghost use Rattle.normal_spec.specs.Read.{norm_of, parameters_of};
ghost use Rattle.rules_spec.specs.Plan as p;
ghost use Rattle.rules_spec.specs.Planned.{zero_alone, leaving_step, opening_step, sharing_step};
ghost use Rattle.rules_walk.specs.Read.{plan_of};
ghost use Rattle.rules_walk.specs.Steps.{step_of};
ghost use Rattle.rules_plan.specs.Down.{reached, both_down};
ghost use Rattle.rules_plan.specs.Change.{step_at};
ghost use Rattle.rules_plan.specs.Given.{given_of, all_down, made_of, planned, AreReached, ArePlans, IsBranch};

use crate::budgets::{boxed, budgets, forks, moves, pays, shared, shares};
use crate::called::calls;
use crate::change::{Change, Move};
use crate::constructed::constructors;
use crate::context;
use crate::env::Env;
use crate::lets::{cut_let, lets};
use index_shift::Entry;
use normal_spec::{NormExpr, NormForm};
use raml_syntax::Ty;
use rules_walk::{Plan, Step};
use std::alloc::{AllocError, Global};
use std::rc::Rc;

// No maps, at each of the budgets.
fn without_maps(alloc: Global, nodes: u32, budgets: Vec<u8>) -> Result<Vec<Box<Plan>>, AllocError>
    ensures { IfOk result (λ made. made_of made.items ≡ map (λ d. p.Ends nodes 0 []) budgets.items) }
{
    let mut made = Vec::new(alloc);
    for _ in budgets {
        made.push(boxed(alloc, Plan::Ends(nodes, 0, Vec::new(alloc)))?)?;
    }
    Ok(made)
}

// A variable alone.
fn variable(env: &Env<'_>, nodes: u32) -> Result<Vec<Box<Plan>>, AllocError>
    ensures { IfOk result (λ made. made_of made.items ≡ reached env.now.reach (λ d. p.Ends nodes 0 []) env.now.top) }
{
    let budgets = budgets(env)?;
    without_maps(env.alloc, nodes, budgets)
}

// The zero index alone.
fn zero_alone(alloc: Global) -> Result<Vec<Step>, AllocError>
    ensures { IfOk result (λ steps. map step_of steps.items ≡ zero_alone) }
{
    let entries = vec![in alloc;
        Entry {
            from: 0,
            to: 0,
            times: 1
        },
    ]?;
    Ok(vec![in alloc; Step { size: 1, entries }]?)
}

// The same at each of the budgets.
fn at_zero(alloc: Global, nodes: u32, budgets: Vec<u8>) -> Result<Vec<Box<Plan>>, AllocError>
    ensures { IfOk result (λ made. made_of made.items ≡ map (λ d. p.Ends nodes 0 zero_alone) budgets.items) }
{
    let mut made = Vec::new(alloc);
    for _ in budgets {
        made.push(boxed(alloc, Plan::Ends(nodes, 0, zero_alone(alloc)?))?)?;
    }
    Ok(made)
}

// A form whose result has the zero index alone.
fn constant(env: &Env<'_>, nodes: u32) -> Result<Vec<Box<Plan>>, AllocError>
    ensures { IfOk result (λ made. made_of made.items ≡ reached env.now.reach (λ d. p.Ends nodes 0 zero_alone) env.now.top) }
{
    let budgets = budgets(env)?;
    at_zero(env.alloc, nodes, budgets)
}

/// A branch: the change of the context, and the plans of the form.
#[derive(Drop)]
struct Branch {
    change: Move,
    rests: Vec<Box<Plan>>,
}

/// The plans of a form at the budgets that are reached, that at the greatest first.
#[cycle(plan)]
pub fn plans(
    env: &Env<'_>,
    expr: &NormExpr,
    context: &[(u32, Ty)],
    ty: &Ty,
) -> Result<Vec<Box<Plan>>, AllocError>
    requires low { env.now.top ≤ 4 }
    ensures { IfOk result (λ made. ArePlans (given_of env.now) (norm_of expr.now)
        (parameters_of context.now) (ty_of ty.now) (made_of made.items)) }
{
    let nodes = expr.nodes;
    match &expr.form {
        NormForm::Var(_) => variable(env, nodes),
        NormForm::Const(_) | NormForm::Nil | NormForm::Leaf | NormForm::Nothing | NormForm::Op(_) =>
            constant(env, nodes),
        NormForm::Pair(x, y) => constructors(env, nodes, &[*x, *y], context, ty),
        NormForm::Cons(x, y) => constructors(env, nodes, &[*x, *y], context, ty),
        NormForm::Node(x, y, z) => constructors(env, nodes, &[*x, *y, *z], context, ty),
        NormForm::Just(x) => constructors(env, nodes, &[*x], context, ty),
        NormForm::Call(fun, args) => calls(env, nodes, *fun, args, context, ty),
        NormForm::Let(x, bound, a, b) => plan_let(env, nodes, *x, bound, a, b, context, ty),
        NormForm::Split(x, p, q, a) => plan_split(env, nodes, *x, *p, *q, a, context, ty),
        NormForm::If(x, a, b) => plan_if(env, nodes, *x, a, b, context, ty),
        NormForm::CaseList(x, a, h, t, b) => {
            plan_case(env, nodes, *x, a, &[*h, *t], b, context, ty)
        }
        NormForm::CaseTree(x, a, e, l, r, b) => {
            plan_case(env, nodes, *x, a, &[*e, *l, *r], b, context, ty)
        }
        NormForm::CaseOption(x, a, w, b) => { plan_case(env, nodes, *x, a, &[*w], b, context, ty) }
        NormForm::Tick(ticks, a) => plan_tick(env, nodes, *ticks, a, context, ty),
        NormForm::Share(x, p, q, a) => plan_share(env, nodes, *x, *p, *q, a, context, ty),
        NormForm::Drop(x, a) => plan_drop(env, nodes, *x, a, context, ty),
    }
}

// Without a variable.
#[cycle(plan)]
fn left(
    env: &Env<'_>,
    x: u32,
    a: &NormExpr,
    context: &[(u32, Ty)],
    ty: &Ty,
) -> Result<Branch, AllocError>
    requires low { env.now.top ≤ 4 }
    ensures { IfOk result (λ branch. IsBranch (given_of env.now) (leaving_step (parameters_of context.now) x) (norm_of a.now)
        (without x (parameters_of context.now)) (ty_of ty.now) branch.change (made_of branch.rests.items)) }
{
    let next = context::without(env.alloc, context, x)?;
    let rests = plans(env, a, &next, ty)?;
    let change = Move::new(env.alloc, Change::Leaving, context, x, next)?;
    Ok(Branch { change, rests })
}

// With the parts of a variable.
#[cycle(plan)]
fn taken_apart(
    env: &Env<'_>,
    x: u32,
    names: &[u32],
    a: &NormExpr,
    context: &[(u32, Ty)],
    ty: &Ty,
) -> Result<Branch, AllocError>
    requires low { env.now.top ≤ 4 }
    ensures { IfOk result (λ branch. IsBranch (given_of env.now) (opening_step (parameters_of context.now) x names.now) (norm_of a.now)
        (opened x names.now parts_of (parameters_of context.now)) (ty_of ty.now) branch.change (made_of branch.rests.items)) }
{
    let next = context::opened(env.alloc, context, x, names)?;
    let rests = plans(env, a, &next, ty)?;
    let change = Move::new(env.alloc, Change::Opening, context, x, next)?;
    Ok(Branch { change, rests })
}

// A pair is taken apart.
#[cycle(plan)]
fn plan_split(
    env: &Env<'_>,
    nodes: u32,
    x: u32,
    first: u32,
    second: u32,
    a: &NormExpr,
    context: &[(u32, Ty)],
    ty: &Ty,
) -> Result<Vec<Box<Plan>>, AllocError>
    requires low { env.now.top ≤ 4 }
    ensures { IfOk result (λ made. ArePlans (given_of env.now) (n.Split nodes x first second (norm_of a.now))
        (parameters_of context.now) (ty_of ty.now) (made_of made.items)) }
{
    let branch = taken_apart(env, x, &[first, second], a, context, ty)?;
    let rests = branch.rests;
    moves(env.alloc, nodes, &branch.change, env.top, rests)
}

// A variable leaves.
#[cycle(plan)]
fn plan_drop(
    env: &Env<'_>,
    nodes: u32,
    x: u32,
    a: &NormExpr,
    context: &[(u32, Ty)],
    ty: &Ty,
) -> Result<Vec<Box<Plan>>, AllocError>
    requires low { env.now.top ≤ 4 }
    ensures { IfOk result (λ made. ArePlans (given_of env.now) (n.Drop nodes x (norm_of a.now))
        (parameters_of context.now) (ty_of ty.now) (made_of made.items)) }
{
    let branch = left(env, x, a, context, ty)?;
    let rests = branch.rests;
    moves(env.alloc, nodes, &branch.change, env.top, rests)
}

// A condition.
#[cycle(plan)]
fn plan_if(
    env: &Env<'_>,
    nodes: u32,
    x: u32,
    a: &NormExpr,
    b: &NormExpr,
    context: &[(u32, Ty)],
    ty: &Ty,
) -> Result<Vec<Box<Plan>>, AllocError>
    requires low { env.now.top ≤ 4 }
    ensures { IfOk result (λ made. ArePlans (given_of env.now) (n.If nodes x (norm_of a.now) (norm_of b.now))
        (parameters_of context.now) (ty_of ty.now) (made_of made.items)) }
{
    let first = left(env, x, a, context, ty)?;
    let second = left(env, x, b, context, ty)?;
    forked(env, nodes, first, second)
}

// A variable is empty, or is taken apart.
#[cycle(plan)]
fn plan_case(
    env: &Env<'_>,
    nodes: u32,
    x: u32,
    a: &NormExpr,
    names: &[u32],
    b: &NormExpr,
    context: &[(u32, Ty)],
    ty: &Ty,
) -> Result<Vec<Box<Plan>>, AllocError>
    requires low { env.now.top ≤ 4 }
    ensures { IfOk result (λ made. AreReached (given_of env.now) (λ P d. p.Forks nodes
        (leaving_step (parameters_of context.now) x d)
        (planned (given_of env.now) (norm_of a.now) (without x (parameters_of context.now)) (ty_of ty.now) P d)
        (opening_step (parameters_of context.now) x names.now d)
        (planned (given_of env.now) (norm_of b.now)
        (opened x names.now parts_of (parameters_of context.now)) (ty_of ty.now) P d)) (made_of made.items)) }
{
    let first = left(env, x, a, context, ty)?;
    let second = taken_apart(env, x, names, b, context, ty)?;
    forked(env, nodes, first, second)
}

// Two branches.
fn forked(
    env: &Env<'_>,
    nodes: u32,
    first: Branch,
    second: Branch,
) -> Result<Vec<Box<Plan>>, AllocError>
    requires low { env.now.top ≤ 4 }
    ensures { IfOk result (λ made. made_of made.items ≡ both_down
        (λ d a b. p.Forks nodes (step_at first.change d) a (step_at second.change d) b) env.now.top
        (made_of second.rests.items) (made_of first.rests.items)) }
{
    let firsts = first.rests;
    let seconds = second.rests;
    forks(
        env.alloc,
        nodes,
        &first.change,
        firsts,
        &second.change,
        seconds,
        env.top,
    )
}

// Ticks are paid for.
#[cycle(plan)]
fn plan_tick(
    env: &Env<'_>,
    nodes: u32,
    ticks: u32,
    a: &NormExpr,
    context: &[(u32, Ty)],
    ty: &Ty,
) -> Result<Vec<Box<Plan>>, AllocError>
    requires low { env.now.top ≤ 4 }
    ensures { IfOk result (λ made. ArePlans (given_of env.now) (n.Tick nodes ticks (norm_of a.now))
        (parameters_of context.now) (ty_of ty.now) (made_of made.items)) }
{
    let rests = plans(env, a, context, ty)?;
    pays(env.alloc, nodes, ticks, rests)
}

// A variable is shared.
#[cycle(plan)]
fn plan_share(
    env: &Env<'_>,
    nodes: u32,
    x: u32,
    first: u32,
    second: u32,
    a: &NormExpr,
    context: &[(u32, Ty)],
    ty: &Ty,
) -> Result<Vec<Box<Plan>>, AllocError>
    requires low { env.now.top ≤ 4 }
    ensures { IfOk result (λ made. ArePlans (given_of env.now) (n.Share nodes x first second (norm_of a.now))
        (parameters_of context.now) (ty_of ty.now) (made_of made.items)) }
{
    let next = context::shared(env.alloc, context, x, &[first, second])?;
    let rests = plans(env, a, &next, ty)?;
    let same = context::copied(env.alloc, context)?;
    let change = Move::new(env.alloc, Change::Sharing, context, x, same)?;
    let types = context::types(env.alloc, &next)?;
    shares(env.alloc, nodes, &change, &types, env.top, rests)
}

// Plans of a bound form at all budgets, which are shared.
#[cycle(plan)]
fn bound_plans(
    env: &Env<'_>,
    a: &NormExpr,
    context: &[(u32, Ty)],
    ty: &Ty,
) -> Result<Vec<Rc<Plan>>, AllocError>
    requires low { env.now.top ≤ 4 }
    ensures { IfOk result (λ made. ArePlans (all_down (given_of env.now)) (norm_of a.now)
        (parameters_of context.now) (ty_of ty.now) (map (λ r. plan_of (rc_value r)) made.items)) }
{
    let down = env.all_down();
    let firsts = plans(&down, a, context, ty)?;
    shared(env.alloc, firsts)
}

// A form is bound.
#[cycle(plan)]
fn plan_let(
    env: &Env<'_>,
    nodes: u32,
    x: u32,
    bound: &Ty,
    a: &NormExpr,
    b: &NormExpr,
    context: &[(u32, Ty)],
    ty: &Ty,
) -> Result<Vec<Box<Plan>>, AllocError>
    requires low { env.now.top ≤ 4 }
    ensures { IfOk result (λ made. ArePlans (given_of env.now)
        (n.Let nodes x (ty_of bound.now) (norm_of a.now) (norm_of b.now)) (parameters_of context.now) (ty_of ty.now) (made_of made.items)) }
{
    let inner = context::inners(env.alloc, a, context)?;
    let outer = context::others(env.alloc, a, context)?;
    let next = context::with_bound(env.alloc, &outer, x, bound)?;
    let cut = cut_let(env.alloc, a, context, bound, env.top)?;
    let firsts = bound_plans(env, a, &inner, bound)?;
    let rests = plans(env, b, &next, ty)?;
    lets(env.alloc, nodes, &cut, &firsts, env.top, rests)
}
