// Signatures and hints, as they are walked.
ghost use Rattle.std.specs.Prelude.{◌≡◌, map, option_to_list, replicate, slice_set, unsigned_abs, IfOk};
ghost use Rattle.annot_types.specs.Read as a;
ghost use Rattle.rules_spec.specs.Capped.{capped, capped_amount};
ghost use Rattle.rules_spec.specs.Carried.{sides_to, multiple_to, hint_to};
ghost use Rattle.rules_spec.specs.Shape.{amounts_at, each_amounts, multiples_at, hint_at, hints_at};
ghost use Rattle.rules_walk.specs.Asks.{ask_of, asks_of};
ghost use Rattle.rules_walk.specs.Read.{sides_of, hint_of, hints_of};
ghost use Rattle.rules_plan.specs.Read.{body_of};
ghost use Rattle.cert_check.specs.Finds.{sides_at};

use annot_types::{Annot, Hint as Told, Sig};
use rules_plan::Body;
use rules_walk::{Amount, Ask, Hint, Sides};
use std::alloc::{AllocError, Global};

// So many amounts of 0.
fn zeros(alloc: Global, size: usize) -> Result<Vec<Amount>, AllocError>
    ensures { IfOk result (λ made. made.items ≡ replicate size capped.none) }
{
    let mut made = Vec::with_capacity(alloc, size)?;
    for _ in 0..size {
        made.push(Amount::of(0))?;
    }
    Ok(made)
}

// An entry at its position, where there is such a position.
fn put(made: &mut Vec<Amount>, entry: (u32, i128))
    ensures { made.new.items ≡ slice_set made.old.items entry.0 (capped_amount (record { plus = unsigned_abs entry.1; minus = 0 })) }
{
    let place = entry.0 as usize;
    if place < made.len() {
        made[place] = Amount::of(entry.1.unsigned_abs());
    }
}

// An annotation of so many positions.
fn amounts(alloc: Global, annot: &Annot, size: usize) -> Result<Vec<Amount>, AllocError>
    ensures { IfOk result (λ made. made.items ≡ map capped_amount (amounts_at size annot.now)) }
{
    let entries = annot.entries();
    let mut made = zeros(alloc, size)?;
    let mut left = entries.len();
    while left > 0 {
        left -= 1;
        put(&mut made, entries[left]);
    }
    Ok(made)
}

/// The signatures of a group.
pub fn all_sides(
    alloc: Global,
    bodies: &[Body<'_>],
    sigs: &[Sig],
) -> Result<Vec<Sides<Amount>>, AllocError>
    ensures { IfOk result (λ made. map sides_of made.items
        ≡ map (sides_to capped_amount) (sides_at (map body_of bodies.now) (map a.sig_of sigs.now))) }
{
    let mut made = Vec::with_capacity(alloc, bodies.len())?;
    let mut sigs = sigs;
    for body in bodies {
        let [sig, rest @ ..] = sigs else {
            return Ok(made);
        };
        made.push(Sides {
            args: amounts(alloc, &sig.args, body.args)?,
            result: amounts(alloc, &sig.result, body.result)?,
        })?;
        sigs = rest;
    }
    Ok(made)
}

// The results of a `let`.
fn each_result(
    alloc: Global,
    sizes: &[usize],
    results: &[Annot],
) -> Result<Vec<Vec<Amount>>, AllocError>
    ensures { IfOk result (λ made. map (λ q. q.items) made.items ≡ map (map capped_amount) (each_amounts sizes.now results.now)) }
{
    let mut made = Vec::with_capacity(alloc, sizes.len())?;
    let mut results = results;
    for size in sizes {
        let [annot, rest @ ..] = results else {
            return Ok(made);
        };
        made.push(amounts(alloc, annot, *size)?)?;
        results = rest;
    }
    Ok(made)
}

// The multiples of a call.
fn multiples(alloc: Global, told: &[(u32, i128)]) -> Result<Vec<(u32, Amount)>, AllocError>
    ensures { IfOk result (λ made. made.items ≡ map (multiple_to capped_amount) (multiples_at told.now)) }
{
    let mut made = Vec::with_capacity(alloc, told.len())?;
    for (block, number) in told {
        made.push((*block, Amount::of(number.unsigned_abs())))?;
    }
    Ok(made)
}

// A hint of the kind that is asked for.
fn walked_hint(alloc: Global, ask: &Ask, told: &Told) -> Result<Option<Hint<Amount>>, AllocError>
    ensures { IfOk result (λ hint. map hint_of (option_to_list hint)
        ≡ map (hint_to capped_amount) (hint_at (ask_of ask.now) (a.hint_of told.now))) }
{
    match ask {
        Ask::Results(sizes) => match told {
            Told::Let(results) => Ok(Some(Hint::Results(each_result(
                alloc,
                sizes.as_slice(),
                results,
            )?))),
            Told::Share(_) | Told::Call(_) => Ok(None),
        },
        Ask::Copies(size) => match told {
            Told::Share(copies) => Ok(Some(Hint::Copies(amounts(alloc, copies, *size)?))),
            Told::Let(_) | Told::Call(_) => Ok(None),
        },
        Ask::Multiples(_) => match told {
            Told::Call(told) => Ok(Some(Hint::Multiples(multiples(alloc, told)?))),
            Told::Let(_) | Told::Share(_) => Ok(None),
        },
    }
}

/// The hints that are asked for.
pub fn walked_hints(
    alloc: Global,
    asks: &[Ask],
    told: &[Told],
) -> Result<Vec<Hint<Amount>>, AllocError>
    ensures { IfOk result (λ made. hints_of made.items
        ≡ map (hint_to capped_amount) (hints_at (asks_of asks.now) (map a.hint_of told.now))) }
{
    let mut made = Vec::with_capacity(alloc, asks.len())?;
    let mut told = told;
    for ask in asks {
        let [hint, rest @ ..] = told else {
            return Ok(made);
        };
        if let Some(walked) = walked_hint(alloc, ask, hint)? {
            made.push(walked)?;
        }
        told = rest;
    }
    Ok(made)
}
