// How many unknowns a task has.
ghost use Rattle.std.specs.Prelude.{◌≡◌, ◌≤◌, ◌<◌, ◌+◌, map, IfOk, SomeIff};
ghost use Rattle.rules_spec.specs.Asked.{asked, counts};
ghost use Rattle.rules_spec.specs.Tasks as t;
ghost use Rattle.rules_spec.specs.Tasks.{sides_count};
ghost use Rattle.rules_walk.specs.Asks.{asks_of};
ghost use Rattle.rules_plan.specs.Read.{body_of};
ghost use Rattle.constraint_gen.specs.Given.{all_counts};

use rules_plan::Body;
use rules_walk::{Ask, unknowns};
use std::alloc::{AllocError, Global};

/// What the plan of each body asks for.
pub fn all_asked(alloc: Global, bodies: &[Body<'_>]) -> Result<Vec<Vec<Ask>>, AllocError>
    ensures { IfOk result (λ asks. map (λ a. asks_of a.items) asks.items ≡ map (λ (b : t.Body). asked b.plan) (map body_of bodies.now)) }
{
    let mut asks = Vec::with_capacity(alloc, bodies.len())?;
    for body in bodies {
        asks.push(body.asked(alloc)?)?;
    }
    Ok(asks)
}

// A number and so many more; none exactly where that is more than `most`.
fn add(count: u32, more: usize, most: u32) -> Option<u32>
    requires { count ≤ most }
    ensures { SomeIff result (count + more ≤ most) (count + more) }
{
    if more <= (most - count) as usize {
        Some(count + more as u32)
    } else {
        None
    }
}

// Those of the arguments and the result.
fn add_body(count: u32, body: &Body<'_>, most: u32) -> Option<u32>
    requires { count ≤ most }
    ensures { SomeIff result (count + (body.now.args + body.now.result) ≤ most) (count + (body.now.args + body.now.result)) }
{
    let args = add(count, body.args, most)?;
    add(args, body.result, most)
}

/// How many numbers the signatures have; none exactly where they are more than `most`.
pub fn sides_within(bodies: &[Body<'_>], most: u32) -> Option<u32>
    ensures { SomeIff result (sides_count (map body_of bodies.now) ≤ most) (sides_count (map body_of bodies.now)) }
{
    let mut count: u32 = 0;
    for body in bodies {
        count = add_body(count, body, most)?;
    }
    Some(count)
}

// Those of the hints of one body more.
fn add_asks(count: u32, asks: &[Ask], most: u32) -> Option<u32>
    requires { count ≤ most }
    ensures { SomeIff result (count + counts (asks_of asks.now) ≤ most) (count + counts (asks_of asks.now)) }
{
    let more = unknowns(asks, most - count)?;
    Some(count + more)
}

/// How many numbers there are with those of all hints.
pub fn hints_within(count: u32, asks: &[Vec<Ask>], most: u32) -> Option<u32>
    requires { count ≤ most }
    ensures { SomeIff result (count + all_counts (map (λ a. asks_of a.items) asks.now) ≤ most)
        (count + all_counts (map (λ a. asks_of a.items) asks.now)) }
{
    let mut sum = count;
    for asked in asks {
        sum = add_asks(sum, asked, most)?;
    }
    Some(sum)
}
