// What a plan asks for.
ghost use Rattle.std.specs.Prelude.{◌≡◌, ◌↔◌, ◌≤◌, ◌+◌, ◌++◌, ◌∷◌, [], map, slice_index_or, IfOk, OnOk, SomeIff};
ghost use Rattle.rules_spec.specs.Asked.{ResultsOf, CopiesOf, MultiplesOf, asked, each_asked, all_asked, count as counted, counts, sum_of};
ghost use Rattle.rules_walk.specs.Steps.{part_of};
ghost use Rattle.rules_walk.specs.Read.{plan_of, plans_of};
ghost use Rattle.rules_walk.specs.Asks.{ask_of, asks_of, sizes_of};
ghost use Rattle.rules_walk.specs.Filled.{table_of, blocks_at, uses_of, filled, all_filled};

use crate::plan::{Called, Part, Plan, Usage};
use smallvec::SmallVec;
use std::alloc::{AllocError, Global};
use std::rc::Rc;

/// A hint that a plan asks for. Up to four sizes or blocks need no memory of their own.
#[derive(Debug, Drop)]
pub enum Ask {
    /// How many positions the result has at each tuple of a `let`.
    Results(SmallVec<usize, 4>),
    /// How many positions the context with both copies has.
    Copies(usize),
    /// The blocks whose signatures a call may take, ascending.
    Multiples(SmallVec<u32, 4>),
}

/// The hints that a plan at this budget asks for, in the order of the walk. By function, `uses` tells the
/// blocks whose signatures a call may take.
pub fn asked(
    alloc: Global,
    plan: &Plan,
    budget: usize,
    uses: &[Vec<Usage>],
) -> Result<Vec<Ask>, AllocError>
    ensures { IfOk result (λ asks. asks_of asks.items ≡ asked (filled (uses_of (table_of uses.now)) budget (plan_of plan.now))) }
{
    let mut asks = Vec::new(alloc);
    append(alloc, uses, budget, plan, &mut asks)?;
    Ok(asks)
}

// Appends them.
#[cycle(ask)]
fn append(
    alloc: Global,
    uses: &[Vec<Usage>],
    budget: usize,
    plan: &Plan,
    asks: &mut Vec<Ask>,
) -> Result<(), AllocError>
    ensures { OnOk result (asks_of asks.new.items ≡ asks_of asks.old.items
        ++ asked (filled (uses_of (table_of uses.now)) budget (plan_of plan.now))) }
{
    match plan {
        Plan::Ends(_, _, _) => Ok(()),
        Plan::Pays(_, _, rest) => append(alloc, uses, budget, rest, asks),
        Plan::Moves(_, _, rest) => append(alloc, uses, budget, rest, asks),
        Plan::Forks(_, _, first, _, second) => {
            append_both(alloc, uses, budget, first, second, asks)
        }
        Plan::Shares(_, size, _, rest) => append_shared(alloc, uses, budget, *size, rest, asks),
        Plan::Calls(_, called) => append_called(alloc, uses, budget, called, asks),
        Plan::Lets(_, parts, firsts, _, rest) => {
            append_bound(alloc, uses, budget, parts.list(), firsts, rest, asks)
        }
    }
}

// Those of two branches.
#[cycle(ask)]
fn append_both(
    alloc: Global,
    uses: &[Vec<Usage>],
    budget: usize,
    first: &Plan,
    second: &Plan,
    asks: &mut Vec<Ask>,
) -> Result<(), AllocError>
    ensures { OnOk result (asks_of asks.new.items ≡ asks_of asks.old.items
        ++ (asked (filled (uses_of (table_of uses.now)) budget (plan_of first.now))
        ++ asked (filled (uses_of (table_of uses.now)) budget (plan_of second.now)))) }
{
    append(alloc, uses, budget, first, asks)?;
    append(alloc, uses, budget, second, asks)
}

// That of a variable that is shared, and those of the rest.
#[cycle(ask)]
fn append_shared(
    alloc: Global,
    uses: &[Vec<Usage>],
    budget: usize,
    size: usize,
    rest: &Plan,
    asks: &mut Vec<Ask>,
) -> Result<(), AllocError>
    ensures { OnOk result (asks_of asks.new.items ≡ asks_of asks.old.items
        ++ (CopiesOf size ∷ asked (filled (uses_of (table_of uses.now)) budget (plan_of rest.now)))) }
{
    asks.push(Ask::Copies(size))?;
    append(alloc, uses, budget, rest, asks)
}

// The blocks of budget at most `d`.
fn blocks_at(alloc: Global, uses: &[Usage], d: usize) -> Result<SmallVec<u32, 4>, AllocError>
    ensures { IfOk result (λ found. found.items ≡ blocks_at d uses.now) }
{
    let mut found = SmallVec::new(alloc);
    for usage in uses {
        if usage.budget as usize <= d {
            found.push(usage.block)?;
        }
    }
    Ok(found)
}

// Those whose signatures of a function a call may take; none where there is no such function.
fn usable(
    alloc: Global,
    uses: &[Vec<Usage>],
    d: usize,
    function: usize,
) -> Result<SmallVec<u32, 4>, AllocError>
    ensures { IfOk result (λ found. found.items ≡ uses_of (table_of uses.now) d function) }
{
    match uses.get(function) {
        Some(uses) => blocks_at(alloc, uses, d),
        None => Ok(SmallVec::new(alloc)),
    }
}

// That of a call.
fn append_called(
    alloc: Global,
    uses: &[Vec<Usage>],
    budget: usize,
    called: &Called,
    asks: &mut Vec<Ask>,
) -> Result<(), AllocError>
    ensures { OnOk result (asks_of asks.new.items ≡ asks_of asks.old.items
        ++ (MultiplesOf (uses_of (table_of uses.now) budget called.now.function) ∷ [])) }
{
    let blocks = usable(alloc, uses, budget, called.function)?;
    asks.push(Ask::Multiples(blocks))?;
    Ok(())
}

// That of a `let`, those of the bound form for each tuple, and those of the rest.
#[cycle(ask)]
fn append_bound(
    alloc: Global,
    uses: &[Vec<Usage>],
    budget: usize,
    parts: &[Part],
    firsts: &[Rc<Plan>],
    rest: &Plan,
    asks: &mut Vec<Ask>,
) -> Result<(), AllocError>
    ensures { OnOk result (asks_of asks.new.items
        ≡ asks_of asks.old.items ++ (ResultsOf (sizes_of (map part_of parts.now))
        ∷ (each_asked (all_asked (all_filled (uses_of (table_of uses.now)) budget (plans_of firsts.now))) (map part_of parts.now)
        ++ asked (filled (uses_of (table_of uses.now)) budget (plan_of rest.now))))) }
{
    let sizes = result_sizes(alloc, parts)?;
    asks.push(Ask::Results(sizes))?;
    append_each(alloc, uses, budget, parts, firsts, asks)?;
    append(alloc, uses, budget, rest, asks)
}

// How many positions the result has at each tuple.
fn result_sizes(alloc: Global, parts: &[Part]) -> Result<SmallVec<usize, 4>, AllocError>
    ensures { IfOk result (λ sizes. sizes.items ≡ sizes_of (map part_of parts.now)) }
{
    let mut sizes = SmallVec::with_capacity(alloc, parts.len())?;
    for part in parts {
        sizes.push(part.size)?;
    }
    Ok(sizes)
}

// Those of the bound form, for each tuple.
#[cycle(ask)]
fn append_each(
    alloc: Global,
    uses: &[Vec<Usage>],
    budget: usize,
    parts: &[Part],
    firsts: &[Rc<Plan>],
    asks: &mut Vec<Ask>,
) -> Result<(), AllocError>
    ensures { OnOk result (asks_of asks.new.items
        ≡ asks_of asks.old.items
        ++ each_asked (all_asked (all_filled (uses_of (table_of uses.now)) budget (plans_of firsts.now))) (map part_of parts.now)) }
{
    for part in parts {
        append_at(alloc, uses, budget, firsts, part.degree, asks)?;
    }
    Ok(())
}

// Those of the plan at a place, where there is one.
#[cycle(ask)]
fn append_at(
    alloc: Global,
    uses: &[Vec<Usage>],
    budget: usize,
    firsts: &[Rc<Plan>],
    place: usize,
    asks: &mut Vec<Ask>,
) -> Result<(), AllocError>
    ensures { OnOk result (asks_of asks.new.items
        ≡ asks_of asks.old.items
        ++ slice_index_or (all_asked (all_filled (uses_of (table_of uses.now)) budget (plans_of firsts.now))) place []) }
{
    if place >= firsts.len() {
        return Ok(());
    }
    append(
        alloc,
        uses,
        budget.saturating_sub(place),
        &firsts[place],
        asks,
    )?;
    Ok(())
}

/// How many numbers the hints have, which are as many unknowns of a task; none exactly where they are
/// more than `most`.
pub fn unknowns(asks: &[Ask], most: u32) -> Option<u32>
    ensures { SomeIff result (counts (asks_of asks.now) ≤ most) (counts (asks_of asks.now)) }
{
    let mut count: u32 = 0;
    for ask in asks {
        count = add_ask(count, ask, most)?;
    }
    Some(count)
}

// The numbers of one hint more.
fn add_ask(count: u32, ask: &Ask, most: u32) -> Option<u32>
    requires { count ≤ most }
    ensures { SomeIff result (count + counted (ask_of ask.now) ≤ most) (count + counted (ask_of ask.now)) }
{
    match ask {
        Ask::Results(sizes) => add_all(count, sizes.as_slice(), most),
        Ask::Copies(size) => add(count, *size, most),
        Ask::Multiples(blocks) => add(count, blocks.len(), most),
    }
}

fn add(count: u32, more: usize, most: u32) -> Option<u32>
    requires { count ≤ most }
    ensures { SomeIff result (count + more ≤ most) (count + more) }
{
    if more <= (most - count) as usize {
        Some(count + more as u32)
    } else {
        None
    }
}

fn add_all(count: u32, sizes: &[usize], most: u32) -> Option<u32>
    requires { count ≤ most }
    ensures { SomeIff result (count + sum_of sizes.now ≤ most) (count + sum_of sizes.now) }
{
    let mut sum = count;
    for &size in sizes {
        sum = add(sum, size, most)?;
    }
    Some(sum)
}
