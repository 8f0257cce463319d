// Changes of a context, and their maps.
ghost use Rattle.std.specs.Prelude.{◌≡◌, ◌≤◌, ◌<◌, ℕ, length, IfOk};
ghost use Rattle.base_poly.specs.Read.{context_of};
ghost use Rattle.normal_spec.specs.Context.{types, place};
ghost use Rattle.normal_spec.specs.Read.{parameters_of};
ghost use Rattle.index_shift.specs.Maps.{opening};
ghost use Rattle.rules_spec.specs.Planned.{step};
ghost use Rattle.rules_walk.specs.Steps.{step_of};
ghost use Rattle.rules_plan.specs.Change.{changed, step_at};

use crate::context;
use crate::tuples::context_size;
use crate::within::MOST;
use base_poly::degrees;
use index_shift::{Entry, Local, MapFault, drop_var, share_map};
use raml_syntax::Ty;
use rules_walk::Step;
use std::alloc::{AllocError, Global};

/// What becomes of a variable: its parts stand for it, it leaves, or its two copies become one.
#[derive(Clone, Copy, Debug, PartialEq, Eq)]
pub enum Change {
    Opening,
    Leaving,
    Sharing,
}

// The map by which the parts of the variable at `at` come in its place.
fn opening(alloc: Global, types: &[Ty], at: usize, d: u8) -> Result<Vec<Entry>, MapFault>
    requires there { at < length types.now }
    requires low { d ≤ 4 }
    ensures { IfOk result (λ found. found.items ≡ opening (context_of types.now) at d) }
{
    let local = Local::opening(alloc, &types[at], d)?;
    let before = degrees(alloc, &types[..at], d, MOST)?;
    let after = degrees(alloc, &types[at + 1..], d, MOST)?;
    local.map(alloc, &before, &after)
}

// The map of a change of the variable at `at`.
fn there(
    alloc: Global,
    change: Change,
    types: &[Ty],
    at: usize,
    d: u8,
) -> Result<Vec<Entry>, MapFault>
    requires there { at < length types.now }
    requires low { d ≤ 4 }
    ensures { IfOk result (λ found. found.items ≡ changed change (context_of types.now) at d) }
{
    match change {
        Change::Opening => opening(alloc, types, at, d),
        Change::Leaving => drop_var(alloc, types, at, d),
        Change::Sharing => share_map(alloc, types, at, d),
    }
}

/// The same, where there need not be such a variable. A walk within its limits leaves memory alone
/// wanting.
#[tactic(auto, using(crate::proofs::Changed::unchanged))]
pub fn entries(
    alloc: Global,
    change: Change,
    types: &[Ty],
    at: usize,
    d: u8,
) -> Result<Vec<Entry>, AllocError>
    requires low { d ≤ 4 }
    ensures { IfOk result (λ found. found.items ≡ changed change (context_of types.now) at d) }
{
    if at >= types.len() {
        return Ok(Vec::new(alloc));
    }
    match there(alloc, change, types, at, d) {
        Ok(found) => Ok(found),
        Err(_) => Err(AllocError),
    }
}

/// A change of a context: of which variable, from which types and to which context.
#[derive(Drop)]
pub struct Move {
    pub change: Change,
    pub types: Vec<Ty>,
    pub at: usize,
    pub next: Vec<(u32, Ty)>,
}

impl Move {
    /// The change of a variable of the context, which comes to another.
    pub fn new(
        alloc: Global,
        change: Change,
        context: &[(u32, Ty)],
        x: u32,
        next: Vec<(u32, Ty)>,
    ) -> Result<Move, AllocError>
        ensures { IfOk result (λ made. (d : ℕ) → step_at made d
            ≡ step (types (parameters_of next.items)) d
            (changed change (types (parameters_of context.now)) (place x (parameters_of context.now)) d)) }
    {
        let types = context::types(alloc, context)?;
        Ok(Move {
            change,
            types,
            at: context::place(context, x),
            next,
        })
    }

    /// Its map at a budget.
    pub fn step(&self, alloc: Global, d: u8) -> Result<Step, AllocError>
        requires low { d ≤ 4 }
        ensures { IfOk result (λ made. step_of made ≡ step_at self.now d) }
    {
        let entries = entries(alloc, self.change, &self.types, self.at, d)?;
        let size = context_size(alloc, &self.next, d)?;
        Ok(Step { size, entries })
    }
}
