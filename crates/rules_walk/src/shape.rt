// The shape of the hints of a certificate.
ghost use Rattle.std.specs.Prelude.{◌≡◌, ◌↔◌, IsTrue, map};
ghost use Rattle.annot_types.specs.Read as a;
ghost use Rattle.annot_types.specs.Certificate.{Rise};
ghost use Rattle.rules_spec.specs.Stand.{Within};
ghost use Rattle.rules_spec.specs.Shape.{EachWithin, AreAmong, FitsAsk, FitAsks};
ghost use Rattle.rules_walk.specs.Asks.{ask_of, asks_of};

use crate::ask::Ask;
use annot_types::{Annot, Hint, rise};

/// The hints are those that are asked for: one of the kind for each, whose positions and blocks are in
/// range, and of which the blocks of a call ascend and their numbers are positive.
pub fn fits(asks: &[Ask], hints: &[Hint]) -> bool
    ensures { IsTrue result ↔ FitAsks (asks_of asks.now) (map a.hint_of hints.now) }
{
    if asks.len() < hints.len() {
        return false;
    }
    if hints.len() < asks.len() {
        return false;
    }
    for number in 0..asks.len() {
        if !fits_one(&asks[number], &hints[number]) {
            return false;
        }
    }
    true
}

// A hint that is asked for.
fn fits_one(ask: &Ask, hint: &Hint) -> bool
    ensures { IsTrue result ↔ FitsAsk (ask_of ask.now) (a.hint_of hint.now) }
{
    match ask {
        Ask::Results(sizes) => match hint {
            Hint::Let(results) => each_within(sizes.as_slice(), results),
            Hint::Share(_) | Hint::Call(_) => false,
        },
        Ask::Copies(size) => match hint {
            Hint::Share(copies) => within(*size, copies.entries()),
            Hint::Let(_) | Hint::Call(_) => false,
        },
        Ask::Multiples(blocks) => match hint {
            Hint::Call(multiples) => rise(multiples) && are_among(blocks.as_slice(), multiples),
            Hint::Let(_) | Hint::Share(_) => false,
        },
    }
}

// All positions are below the size.
fn within(size: usize, entries: &[(u32, i128)]) -> bool
    ensures { IsTrue result ↔ Within size entries.now }
{
    for &(position, _) in entries {
        if position as usize >= size {
            return false;
        }
    }
    true
}

// For each size an annotation that has its positions below it.
fn each_within(sizes: &[usize], results: &[Annot]) -> bool
    ensures { IsTrue result ↔ EachWithin sizes.now results.now }
{
    if sizes.len() < results.len() {
        return false;
    }
    if results.len() < sizes.len() {
        return false;
    }
    for number in 0..sizes.len() {
        if !within(sizes[number], results[number].entries()) {
            return false;
        }
    }
    true
}

// The blocks are among these.
fn are_among(blocks: &[u32], multiples: &[(u32, i128)]) -> bool
    ensures { IsTrue result ↔ AreAmong blocks.now multiples.now }
{
    for (block, _) in multiples {
        if !blocks.contains(block) {
            return false;
        }
    }
    true
}
