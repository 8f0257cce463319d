// How much a plan makes of the numbers that it is walked with.
ghost use Rattle.std.specs.Prelude.{◌≡◌, ℕ, ◌+◌, ◌*◌, map, slice_index_or, IfSome};
ghost use Rattle.rules_spec.specs.Growth.{span, spans, all_spans, join_spans, each_growth, growth, growths};
ghost use Rattle.rules_spec.specs.Plan as p;
ghost use Rattle.rules_walk.specs.Steps.{step_of, part_of};
ghost use Rattle.rules_walk.specs.Read.{plan_of, plans_of, called_of};

use crate::plan::{Called, Part, Parts, Plan, Step};
use index_shift::Entry;
use smallvec::SmallVec;
use std::alloc::Global;
use std::rc::Rc;

// How often a map takes entries, all together.
fn span(entries: &[Entry]) -> Option<u128>
    ensures { IfSome result (λ all. all ≡ span entries.now) }
{
    let mut all: u128 = 0;
    for entry in entries {
        all = all.checked_add(u128::from(entry.times))?;
    }
    Some(all)
}

// One map after the other.
fn spans(steps: &[Step]) -> Option<u128>
    ensures { IfSome result (λ all. all ≡ spans (map step_of steps.now)) }
{
    let mut all: u128 = 1;
    for step in steps {
        all = all.checked_mul(span(&step.entries)?)?;
    }
    Some(all)
}

// All of some maps.
fn all_spans(maps: &[Vec<Entry>]) -> Option<u128>
    ensures { IfSome result (λ all. all ≡ all_spans (map (λ es. es.items) maps.now)) }
{
    let mut all: u128 = 0;
    for map in maps {
        all = all.checked_add(span(map)?)?;
    }
    Some(all)
}

// What the results of a `let` bring to the context of the rest.
fn join_spans(parts: &[Part]) -> Option<u128>
    ensures { IfSome result (λ all. all ≡ join_spans (map part_of parts.now)) }
{
    let mut all: u128 = 0;
    for part in parts {
        all = all.checked_add(span(&part.joins)?)?;
    }
    Some(all)
}

// A bound form for one tuple, by what its plan at each budget makes.
fn part_growth(budgets: &[u128], part: &Part) -> Option<u128>
    ensures { IfSome result (λ all. all
        ≡ slice_index_or budgets.now (part_of part.now).degree 0 * (1 + span (part_of part.now).there.entries)) }
{
    match budgets.get(part.degree) {
        Some(growth) => growth.checked_mul(1u128.checked_add(span(&part.there.entries)?)?),
        None => Some(0),
    }
}

// The same for each tuple.
fn each_growth(budgets: &[u128], parts: &[Part]) -> Option<u128>
    ensures { IfSome result (λ all. all ≡ each_growth budgets.now (map part_of parts.now)) }
{
    let mut all: u128 = 0;
    for part in parts {
        all = all.checked_add(part_growth(budgets, part)?)?;
    }
    Some(all)
}

// A call.
fn called_growth(nodes: u32, called: &Called, factor: u128) -> Option<u128>
    ensures { IfSome result (λ all. all ≡ growth factor (p.Calls nodes (called_of called.now))) }
{
    let maps = all_spans(&called.args_from)?.checked_add(all_spans(&called.result_from)?)?;
    let taken = 2u128.checked_add(maps.checked_mul(factor)?)?;
    (1 + u128::from(nodes)).checked_add(taken)
}

/// How many times the numbers that a plan is walked with its totals are at most, where what multiples
/// make is at most `factor` times these; none where that may leave 128 bits.
#[cycle(growth)]
pub fn growth(alloc: Global, plan: &Plan, factor: u128) -> Option<u128>
    ensures { IfSome result (λ all. all ≡ growth factor (plan_of plan.now)) }
{
    match plan {
        Plan::Ends(nodes, cells, steps) => {
            let ends = u128::from(*cells).checked_add(spans(steps)?)?;
            (1 + u128::from(*nodes)).checked_add(ends)
        }
        Plan::Pays(nodes, ticks, rest) => growth(alloc, rest, factor)?.checked_mul(
            1 + u128::from(*nodes) + u128::from(*ticks),
        ),
        Plan::Moves(nodes, step, rest) => {
            after(alloc, step, rest, factor)?.checked_mul(1 + u128::from(*nodes))
        }
        Plan::Forks(nodes, step, first, other, second) => {
            let branches = after(alloc, step, first, factor)?.checked_add(after(
                alloc, other, second, factor,
            )?)?;
            branches.checked_mul(1 + u128::from(*nodes))
        }
        Plan::Shares(nodes, _, step, rest) => {
            let shared = span(&step.entries)?.checked_add(growth(alloc, rest, factor)?)?;
            (1 + u128::from(*nodes)).checked_add(shared)
        }
        Plan::Calls(nodes, called) => called_growth(*nodes, called, factor),
        Plan::Lets(nodes, parts, firsts, _, rest) => {
            bound_growth(alloc, *nodes, parts, firsts, rest, factor)
        }
    }
}

// A change of the context, and the rest.
#[cycle(growth)]
fn after(alloc: Global, step: &Step, rest: &Plan, factor: u128) -> Option<u128>
    ensures { IfSome result (λ all. all ≡ growth factor (plan_of rest.now) * (1 + span (step_of step.now).entries)) }
{
    growth(alloc, rest, factor)?.checked_mul(1u128.checked_add(span(&step.entries)?)?)
}

// A bound form at all of its budgets.
#[cycle(growth)]
fn growths(alloc: Global, firsts: &[Rc<Plan>], factor: u128) -> Option<SmallVec<u128, 5>>
    ensures { IfSome result (λ made. made.items ≡ growths factor (plans_of firsts.now)) }
{
    let mut made = SmallVec::new(alloc);
    for first in firsts {
        made.push(growth(alloc, first, factor)?).ok()?;
    }
    Some(made)
}

// A `let`.
#[cycle(growth)]
fn bound_growth(
    alloc: Global,
    nodes: u32,
    parts: &Parts,
    firsts: &[Rc<Plan>],
    rest: &Plan,
    factor: u128,
) -> Option<u128>
    ensures { IfSome result (λ all. all
        ≡ (1 + each_growth (growths factor (plans_of firsts.now)) parts.now) * (1 + nodes) + growth factor
        (plan_of rest.now) * (1 + join_spans parts.now)) }
{
    let tuples = parts.list();
    let budgets = growths(alloc, firsts, factor)?;
    let each = each_growth(budgets.as_slice(), tuples)?;
    let bound = 1u128.checked_add(each)?.checked_mul(1 + u128::from(nodes))?;
    let joins = 1u128.checked_add(join_spans(tuples)?)?;
    bound.checked_add(growth(alloc, rest, factor)?.checked_mul(joins)?)
}
