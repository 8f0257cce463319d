// Tables by functions.
ghost use Rattle.std.specs.Prelude.{◌≡◌, ◌++◌, ◌∷◌, [], map, drop, slice_set, slice_index_or, Some, None, option_map, OnOk, OnErr};
ghost use Rattle.rules_walk.specs.Read.{signature_of};
ghost use Rattle.rules_walk.specs.Signed.{signed_of, all_signed, noted, front, standing, filled};

use crate::known::{Signature, Signed};
use crate::plan::Usage;
use std::alloc::AllocError;

// The block is noted for a function.
fn note(uses: &mut Vec<Vec<Usage>>, function: usize, usage: Usage) -> Result<(), AllocError>
    ensures noted { OnOk result (map (λ us. us.items) uses.new.items
        ≡ slice_set (map (λ us. us.items) uses.old.items) function
        (slice_index_or (map (λ us. us.items) uses.old.items) function [] ++ usage ∷ [])) }
    ensures kept { OnErr result (map (λ us. us.items) uses.new.items ≡ map (λ us. us.items) uses.old.items) }
{
    if function < uses.len() {
        uses[function].push(usage)?;
    }
    Ok(())
}

// It is noted no more.
fn forget(uses: &mut Vec<Vec<Usage>>, function: usize)
    ensures { map (λ us. us.items) uses.new.items
        ≡ slice_set (map (λ us. us.items) uses.old.items) function
        (front (slice_index_or (map (λ us. us.items) uses.old.items) function [])) }
{
    if function < uses.len() {
        uses[function].pop();
    }
}

/// The block is noted for each of these functions from a place on. Where memory is wanting nothing is
/// changed.
#[cycle(note)]
pub fn note_all(
    uses: &mut Vec<Vec<Usage>>,
    signed: &[Signed],
    place: usize,
    usage: Usage,
) -> Result<(), AllocError>
    ensures noted { OnOk result
        (map (λ us. us.items) uses.new.items ≡ noted usage (drop place signed.now) (map (λ us. us.items) uses.old.items)) }
    ensures kept { OnErr result (map (λ us. us.items) uses.new.items ≡ map (λ us. us.items) uses.old.items) }
{
    if place >= signed.len() {
        return Ok(());
    }
    note(uses, signed[place].function, usage)?;
    match note_all(uses, signed, place + 1, usage) {
        Ok(()) => Ok(()),
        Err(error) => {
            forget(uses, signed[place].function);
            Err(error)
        }
    }
}

// A function that has no signature yet gets this one.
fn fill(table: &mut Vec<Option<Signature>>, signed: Signed)
    ensures { map (option_map signature_of) table.new.items
        ≡ slice_set (map (option_map signature_of) table.old.items) signed.function
        (Some (standing (slice_index_or
        (map (option_map signature_of) table.old.items) signed.function None) (signature_of signed.signature))) }
{
    let place = signed.function;
    if place < table.len() && table[place].is_none() {
        table[place] = Some(signed.signature);
    }
}

/// So does each of these.
pub fn fill_all(table: &mut Vec<Option<Signature>>, signed: Vec<Signed>)
    ensures { map (option_map signature_of) table.new.items
        ≡ filled (all_signed signed.items) (map (option_map signature_of) table.old.items) }
{
    for one in signed {
        fill(table, one);
    }
}
