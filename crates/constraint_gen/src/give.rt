// Unknowns in their order, as signatures and hints.
ghost use Rattle.std.specs.Prelude.{◌≡◌, ◌<◌, ◌+◌, ◌^◌, map, length, IfOk, OnOk};
ghost use Rattle.rules_spec.specs.Asked.{given, given_each, given_blocks, answer, answers, sum_of, count, counts};
ghost use Rattle.rules_spec.specs.Tasks.{sides_count, sides_given};
ghost use Rattle.rules_walk.specs.Asks.{ask_of, asks_of};
ghost use Rattle.rules_walk.specs.Read.{hint_of, hints_of, sides_of};
ghost use Rattle.rules_plan.specs.Read.{body_of};
ghost use Rattle.constraint_gen.specs.Sums.{unknown};
ghost use Rattle.constraint_gen.specs.Given.{lists, all_counts, all_answers};

use crate::form::Form;
use rules_plan::Body;
use rules_walk::{Ask, Hint, Sides};
use std::alloc::{AllocError, Global};

// So many unknowns, from the next one on.
fn given(alloc: Global, next: &mut u32, count: usize) -> Result<Vec<Form>, AllocError>
    requires room { next.old + count < 2 ^ 32 }
    ensures given { IfOk result (λ made. made.items ≡ given unknown next.old count) }
    ensures next { OnOk result (next.new ≡ next.old + count) }
{
    let mut made = Vec::with_capacity(alloc, count)?;
    for _ in 0..count {
        made.push(Form::unknown(alloc, *next)?)?;
        *next += 1;
    }
    Ok(made)
}

// Lists of these sizes.
fn given_each(alloc: Global, next: &mut u32, sizes: &[usize]) -> Result<Vec<Vec<Form>>, AllocError>
    requires room { next.old + sum_of sizes.now < 2 ^ 32 }
    ensures given { IfOk result (λ made. lists made.items ≡ given_each unknown next.old sizes.now) }
    ensures next { OnOk result (next.new ≡ next.old + sum_of sizes.now) }
{
    let mut made = Vec::with_capacity(alloc, sizes.len())?;
    for &size in sizes {
        made.push(given(alloc, next, size)?)?;
    }
    Ok(made)
}

// One for each block.
fn given_blocks(
    alloc: Global,
    next: &mut u32,
    blocks: &[u32],
) -> Result<Vec<(u32, Form)>, AllocError>
    requires room { next.old + length blocks.now < 2 ^ 32 }
    ensures given { IfOk result (λ made. made.items ≡ given_blocks unknown next.old blocks.now) }
    ensures next { OnOk result (next.new ≡ next.old + length blocks.now) }
{
    let mut made = Vec::with_capacity(alloc, blocks.len())?;
    for &block in blocks {
        made.push((block, Form::unknown(alloc, *next)?))?;
        *next += 1;
    }
    Ok(made)
}

// A hint that is asked for.
fn answer(alloc: Global, next: &mut u32, ask: &Ask) -> Result<Hint<Form>, AllocError>
    requires room { next.old + count (ask_of ask.now) < 2 ^ 32 }
    ensures given { IfOk result (λ made. hint_of made ≡ answer unknown next.old (ask_of ask.now)) }
    ensures next { OnOk result (next.new ≡ next.old + count (ask_of ask.now)) }
{
    match ask {
        Ask::Results(sizes) => Ok(Hint::Results(given_each(alloc, next, sizes.as_slice())?)),
        Ask::Copies(size) => Ok(Hint::Copies(given(alloc, next, *size)?)),
        Ask::Multiples(blocks) => Ok(Hint::Multiples(given_blocks(
            alloc,
            next,
            blocks.as_slice(),
        )?)),
    }
}

// All hints of a body.
fn answers(alloc: Global, next: &mut u32, asks: &[Ask]) -> Result<Vec<Hint<Form>>, AllocError>
    requires room { next.old + counts (asks_of asks.now) < 2 ^ 32 }
    ensures given { IfOk result (λ made. hints_of made.items ≡ answers unknown next.old (asks_of asks.now)) }
    ensures next { OnOk result (next.new ≡ next.old + counts (asks_of asks.now)) }
{
    let mut made = Vec::with_capacity(alloc, asks.len())?;
    for ask in asks {
        made.push(answer(alloc, next, ask)?)?;
    }
    Ok(made)
}

/// Those of all bodies, by what their plans ask for.
pub fn all_answers(
    alloc: Global,
    next: &mut u32,
    asks: &[Vec<Ask>],
) -> Result<Vec<Vec<Hint<Form>>>, AllocError>
    requires room { next.old + all_counts (map (λ a. asks_of a.items) asks.now) < 2 ^ 32 }
    ensures given { IfOk result
        (λ made. map (λ h. hints_of h.items) made.items ≡ all_answers unknown next.old (map (λ a. asks_of a.items) asks.now)) }
    ensures next { OnOk result (next.new ≡ next.old + all_counts (map (λ a. asks_of a.items) asks.now)) }
{
    let mut made = Vec::with_capacity(alloc, asks.len())?;
    for asked in asks {
        made.push(answers(alloc, next, asked)?)?;
    }
    Ok(made)
}

// The signature of a body.
fn side(alloc: Global, next: &mut u32, body: &Body) -> Result<Sides<Form>, AllocError>
    requires room { next.old + (body.now.args + body.now.result) < 2 ^ 32 }
    ensures given { IfOk result (λ made. sides_of made
        ≡ record { args = given unknown next.old body.now.args; result = given unknown (next.old + body.now.args) body.now.result }) }
    ensures next { OnOk result (next.new ≡ next.old + (body.now.args + body.now.result)) }
{
    let args = given(alloc, next, body.args)?;
    let result = given(alloc, next, body.result)?;
    Ok(Sides { args, result })
}

/// The signatures of all bodies.
pub fn sides(
    alloc: Global,
    next: &mut u32,
    bodies: &[Body<'_>],
) -> Result<Vec<Sides<Form>>, AllocError>
    requires room { next.old + sides_count (map body_of bodies.now) < 2 ^ 32 }
    ensures given { IfOk result (λ made. map sides_of made.items ≡ sides_given unknown next.old (map body_of bodies.now)) }
    ensures next { OnOk result (next.new ≡ next.old + sides_count (map body_of bodies.now)) }
{
    let mut made = Vec::with_capacity(alloc, bodies.len())?;
    for body in bodies {
        made.push(side(alloc, next, body)?)?;
    }
    Ok(made)
}
