// Plans of constructors.
ghost use Rattle.std.specs.Prelude.{◌≡◌, ◌≤◌, map, IfOk};
ghost use Rattle.raml_syntax.specs.Read.{ty_of};
ghost use Rattle.normal_spec.specs.Read.{parameters_of};
ghost use Rattle.rules_spec.specs.Plan as p;
ghost use Rattle.rules_spec.specs.Planned.{part_steps};
ghost use Rattle.rules_walk.specs.Read.{plan_of};
ghost use Rattle.rules_walk.specs.Steps.{step_of};
ghost use Rattle.rules_plan.specs.Down.{reached};
ghost use Rattle.rules_plan.specs.Given.{made_of};
ghost use Rattle.rules_plan.specs.Wide.{narrowed, built_steps, IsBuilt};

use crate::budgets::{boxed, budgets};
use crate::change::{Change, entries};
use crate::context;
use crate::entries::restricted;
use crate::env::Env;
use crate::operands::operand_entries;
use crate::tuples::size;
use index_shift::Entry;
use raml_syntax::Ty;
use rules_walk::{Plan, Step};
use std::alloc::{AllocError, Global};

/// Of a constructor, what is made once for all budgets: the type of the value, those of its parts and
/// of the context, and at the greatest budget the entries from the value to its parts, and from these
/// to the context.
#[derive(Drop)]
pub struct Built {
    pub whole: Vec<Ty>,
    pub parts: Vec<Ty>,
    pub types: Vec<Ty>,
    pub opens: Vec<Entry>,
    pub places: Vec<Entry>,
}

// The types and the entries.
#[tactic(auto, using(crate::proofs::Widened::parts_same))]
fn made_once(
    env: &Env<'_>,
    operands: &[u32],
    context: &[(u32, Ty)],
    ty: &Ty,
) -> Result<Built, AllocError>
    requires low { env.now.top ≤ 4 }
    ensures { IfOk result (λ made. IsBuilt (parameters_of context.now) operands.now (ty_of ty.now) env.now.top made) }
{
    let whole = context::alone(env.alloc, ty)?;
    let parts = context::parts_of(env.alloc, ty)?;
    let types = context::types(env.alloc, context)?;
    let opens = entries(env.alloc, Change::Opening, &whole, 0, env.top)?;
    let places = operand_entries(env.alloc, context, operands, &parts, env.top)?;
    Ok(Built {
        whole,
        parts,
        types,
        opens,
        places,
    })
}

// A map at one budget, from its entries at the greatest.
fn narrowed(
    alloc: Global,
    from: &[Ty],
    to: &[Ty],
    wide: &[Entry],
    d: u8,
) -> Result<Step, AllocError>
    ensures { IfOk result (λ made. step_of made ≡ narrowed from.now to.now wide.now d) }
{
    let froms = size(alloc, from, d)?;
    let tos = size(alloc, to, d)?;
    let entries = restricted(alloc, wide, froms, tos)?;
    Ok(Step { size: tos, entries })
}

// Both maps at one budget.
fn steps(alloc: Global, built: &Built, d: u8) -> Result<Vec<Step>, AllocError>
    ensures { IfOk result (λ steps. map step_of steps.items ≡ built_steps built.now d) }
{
    let first = narrowed(alloc, &built.whole, &built.parts, &built.opens, d)?;
    let second = narrowed(alloc, &built.parts, &built.types, &built.places, d)?;
    Ok(vec![in alloc; first, second]?)
}

// A constructor at one budget.
fn at_budget(alloc: Global, nodes: u32, built: &Built, d: u8) -> Result<Box<Plan>, AllocError>
    ensures { IfOk result (λ made. plan_of made.value ≡ p.Ends nodes 1 (built_steps built.now d)) }
{
    let steps = steps(alloc, built, d)?;
    boxed(alloc, Plan::Ends(nodes, 1, steps))
}

// A constructor at the budgets that are reached.
fn at_budgets(env: &Env<'_>, nodes: u32, built: &Built) -> Result<Vec<Box<Plan>>, AllocError>
    ensures { IfOk result (λ made. made_of made.items ≡ map
        (λ d. p.Ends nodes 1 (built_steps built.now d)) (reached env.now.reach (λ d. d) env.now.top)) }
{
    let mut made = Vec::new(env.alloc);
    for d in &budgets(env)? {
        made.push(at_budget(env.alloc, nodes, built, *d)?)?;
    }
    Ok(made)
}

/// A constructor with these operands, which are the whole context.
pub fn constructors(
    env: &Env<'_>,
    nodes: u32,
    operands: &[u32],
    context: &[(u32, Ty)],
    ty: &Ty,
) -> Result<Vec<Box<Plan>>, AllocError>
    requires low { env.now.top ≤ 4 }
    ensures { IfOk result (λ made. made_of made.items ≡ reached env.now.reach
        (λ d. p.Ends nodes 1 (part_steps (parameters_of context.now) operands.now (ty_of ty.now) d)) env.now.top) }
{
    let built = made_once(env, operands, context, ty)?;
    at_budgets(env, nodes, &built)
}
