// The tuples of a `let`.
ghost use Rattle.std.specs.Prelude.{◌≡◌, ◌≤◌, ◌-◌, map, take, drop, IfOk};
ghost use Rattle.std.specs.Rc.{rc_value};
ghost use Rattle.raml_syntax.specs.Read.{ty_of};
ghost use Rattle.normal_spec.specs.Read.{norm_of, parameters_of};
ghost use Rattle.rules_spec.specs.Plan as p;
ghost use Rattle.rules_walk.specs.Read.{plan_of, plans};
ghost use Rattle.rules_walk.specs.Steps.{part_of};
ghost use Rattle.rules_plan.specs.Down.{each_down};
ghost use Rattle.rules_plan.specs.Given.{made_of};
ghost use Rattle.rules_plan.specs.Wide.{at_budget, seam_of, seam_at, seams_from, part_at, parts_at, IsCut};

use crate::budgets::{boxed, tail};
use crate::called::at_budget;
use crate::context;
use crate::entries::{picked, placed, restricted};
use crate::free::marks;
use crate::tuples::cut_spots;
use index_shift::Entry;
use normal_spec::NormExpr;
use raml_syntax::Ty;
use rules_walk::{Part, Parts, Plan, Step};
use std::alloc::{AllocError, Global};
use std::rc::Rc;
use tuple_ranks::Joined;

/// A tuple of the variables that the bound form does not use, at the greatest budget: its degree, the
/// map to the bound form's context, and the entries from the bound form's result to the context of
/// the rest.
#[derive(Drop)]
pub struct Seam {
    pub degree: usize,
    pub there: Vec<Entry>,
    pub joins: Vec<Entry>,
}

/// How many positions there are at each budget from 0 on: of the context, of what the bound form uses
/// and what it does not, of its result, and of the context of the rest.
#[derive(Drop)]
pub struct Sizes {
    pub context: Vec<usize>,
    pub inner: Vec<usize>,
    pub others: Vec<usize>,
    pub bound: Vec<usize>,
    pub rest: Vec<usize>,
}

/// What is made of a `let` once for all budgets.
#[derive(Drop)]
pub struct Cut {
    pub sizes: Sizes,
    pub seams: Vec<Seam>,
}

// The tuple at a budget.
fn part(alloc: Global, sizes: &Sizes, seam: &Seam, d: usize) -> Result<Part, AllocError>
    ensures { IfOk result (λ made. part_of made ≡ part_at sizes.now d (seam_of seam.now)) }
{
    let left = d.saturating_sub(seam.degree);
    let inner = at_budget(&sizes.inner, left);
    let bound = at_budget(&sizes.bound, left);
    let there = restricted(alloc, &seam.there, at_budget(&sizes.context, d), inner)?;
    let joins = restricted(alloc, &seam.joins, bound, at_budget(&sizes.rest, d))?;
    Ok(Part {
        there: Step {
            size: inner,
            entries: there,
        },
        size: bound,
        joins,
        degree: seam.degree,
    })
}

// The first of some items, so many of them.
fn front<T>(items: &[T], number: usize) -> &[T]
    ensures { result.now ≡ take number items.now }
{
    if number < items.len() {
        &items[..number]
    } else {
        items
    }
}

// The tuples.
fn listed(alloc: Global, sizes: &Sizes, seams: &[Seam], d: usize) -> Result<Vec<Part>, AllocError>
    ensures { IfOk result (λ found. map part_of found.items ≡ map (part_at sizes.now d) (map seam_of seams.now)) }
{
    let mut found = Vec::new(alloc);
    for seam in seams {
        found.push(part(alloc, sizes, seam, d)?)?;
    }
    Ok(found)
}

// The tuples of degree at most `d`, at this budget.
#[tactic(auto, using(crate::proofs::Downed::take_map))]
fn parts(alloc: Global, cut: &Cut, d: usize) -> Result<Parts, AllocError>
    ensures { IfOk result (λ made. made ≡ parts_at cut.now d) }
{
    let seams = front(&cut.seams, at_budget(&cut.sizes.others, d));
    match Parts::new(listed(alloc, &cut.sizes, seams, d)?) {
        Some(parts) => Ok(parts),
        None => Err(AllocError),
    }
}

// At one budget.
fn bound_at(
    alloc: Global,
    nodes: u32,
    cut: &Cut,
    firsts: &[Rc<Plan>],
    top: u8,
    d: u8,
    rest: Box<Plan>,
) -> Result<Box<Plan>, AllocError>
    requires below { d ≤ top }
    ensures { IfOk result (λ made. plan_of made.value
        ≡ p.Lets nodes (parts_at cut.now d) (plans (drop (top - d) (map (λ r. plan_of (rc_value r)) firsts.now)))
        (at_budget cut.now.sizes.rest.items d) (plan_of rest.value)) }
{
    let parts = parts(alloc, cut, d as usize)?;
    let firsts = tail(alloc, firsts, (top - d) as usize)?;
    let size = at_budget(&cut.sizes.rest, d as usize);
    boxed(alloc, Plan::Lets(nodes, parts, firsts, size, rest))
}

/// The bound form for each tuple, and then these.
pub fn lets(
    alloc: Global,
    nodes: u32,
    cut: &Cut,
    firsts: &[Rc<Plan>],
    top: u8,
    rests: Vec<Box<Plan>>,
) -> Result<Vec<Box<Plan>>, AllocError>
    ensures { IfOk result (λ made. made_of made.items ≡ each_down
        (λ d e. p.Lets nodes (parts_at cut.now d) (plans (drop (top - d) (map (λ r. plan_of (rc_value r)) firsts.now)))
        (at_budget cut.now.sizes.rest.items d) e) top (made_of rests.items)) }
{
    let mut made = Vec::new(alloc);
    let mut d = top;
    for rest in rests {
        made.push(bound_at(alloc, nodes, cut, firsts, top, d, rest)?)?;
        d = d.saturating_sub(1);
    }
    Ok(made)
}

// The tuple at this place.
fn seam_for(
    alloc: Global,
    halves: &[(usize, usize)],
    inner: usize,
    rest: usize,
    place: usize,
    joined: &Joined,
) -> Result<Seam, AllocError>
    ensures { IfOk result (λ made. seam_of made ≡ seam_at halves.now inner rest place joined.now) }
{
    Ok(Seam {
        degree: usize::from(joined.degree),
        there: picked(alloc, halves, place, inner)?,
        joins: placed(alloc, &joined.spots, rest)?,
    })
}

// All of them.
fn seams(
    alloc: Global,
    halves: &[(usize, usize)],
    inner: usize,
    rest: usize,
    joined: &[Joined],
) -> Result<Vec<Seam>, AllocError>
    ensures { IfOk result (λ found. map seam_of found.items ≡ seams_from (seam_at halves.now inner rest) 0 joined.now) }
{
    let mut found = Vec::new(alloc);
    for (place, joined) in joined.iter().enumerate() {
        found.push(seam_for(alloc, halves, inner, rest, place, joined)?)?;
    }
    Ok(found)
}

/// Of a `let` with this bound form of this type.
pub fn cut_let(
    alloc: Global,
    a: &NormExpr,
    context: &[(u32, Ty)],
    bound: &Ty,
    top: u8,
) -> Result<Cut, AllocError>
    ensures { IfOk result (λ made. IsCut (norm_of a.now) (parameters_of context.now) (ty_of bound.now) top made) }
{
    let marks = marks(alloc, a, context)?;
    let types = context::types(alloc, context)?;
    let spots = cut_spots(alloc, &marks, &types, bound, top)?;
    let inner = at_budget(&spots.marked, top as usize);
    let rest = at_budget(&spots.rest, top as usize);
    let seams = seams(alloc, &spots.halves, inner, rest, &spots.joined)?;
    let sizes = Sizes {
        context: spots.whole,
        inner: spots.marked,
        others: spots.others,
        bound: spots.bound,
        rest: spots.rest,
    };
    Ok(Cut { sizes, seams })
}
