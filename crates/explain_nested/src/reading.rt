// Readings of base polynomials.
ghost use Rattle.std.specs.Prelude.{◌≡◌, ◌≤◌, ◌<◌, ◌+◌, ◌++◌, ◌^◌, length, IfOk, OnOk};
ghost use Rattle.base_poly.specs.Plain.{OneEntry, many, deg, degrees};
ghost use Rattle.base_poly.specs.Read.{index_of, plains_of};
ghost use Rattle.explain_nested.specs.Reading.{names_in, are_zero, reading, entries_reading, tuple_reading};
ghost use Rattle.explain_nested.specs.Read.{place_of, pieces_of};

use crate::piece::{Piece, Place, push_choices, push_elements, push_held};
use base_poly::{Index, Tuple};
use std::alloc::{AllocError, Global};

/// What the base polynomial of the tuple counts, as sums over elements of products of sizes.
pub fn read(alloc: Global, tuple: &Tuple) -> Result<Vec<Piece>, AllocError>
    requires { degrees tuple.now ≤ 4 }
    ensures { IfOk result (λ pieces. pieces_of pieces.items ≡ tuple_reading tuple.now) }
{
    let parts = tuple.parts();
    let mut pieces = Vec::new(alloc);
    append_entries(alloc, &mut pieces, parts, 0, parts.len())?;
    Ok(pieces)
}

// Appends the reading of the index at the value, where this is the next number, and tells which is next.
#[cycle(reading)]
fn append(
    alloc: Global,
    pieces: &mut Vec<Piece>,
    index: &Index,
    place: &Place,
    next: usize,
) -> Result<usize, AllocError>
    requires low { deg (index_of index.now) ≤ 4 }
    requires few { next + deg (index_of index.now) < 2 ^ 64 }
    ensures pieces { OnOk result
        (pieces_of pieces.new.items ≡ pieces_of pieces.old.items ++ reading (index_of index.now) (place_of place.now) next) }
    ensures next { IfOk result (λ after. after ≡ next + names_in (reading (index_of index.now) (place_of place.now) next)) }
    ensures low { IfOk result (λ after. after ≤ next + deg (index_of index.now)) }
{
    match index {
        Index::Unit => Ok(next),
        Index::Pair(first, second) => {
            let left = place.first(alloc)?;
            let right = place.second(alloc)?;
            let after = append(alloc, pieces, first, &left, next)?;
            append(alloc, pieces, second, &right, after)
        }
        Index::List(entries) => append_list(alloc, pieces, entries, place, next),
        Index::Opt(held) => match held {
            None => Ok(next),
            Some(entry) => append_held(alloc, pieces, entry, place, next),
        },
    }
}

// The same for the option index with this entry.
#[cycle(reading)]
fn append_held(
    alloc: Global,
    pieces: &mut Vec<Piece>,
    entry: &Index,
    place: &Place,
    next: usize,
) -> Result<usize, AllocError>
    requires low { deg (OneEntry (index_of entry.now)) ≤ 4 }
    requires few { next + deg (OneEntry (index_of entry.now)) < 2 ^ 64 }
    ensures pieces { OnOk result (pieces_of pieces.new.items
        ≡ pieces_of pieces.old.items ++ reading (OneEntry (index_of entry.now)) (place_of place.now) next) }
    ensures next { IfOk result (λ after. after ≡ next + names_in (reading (OneEntry (index_of entry.now)) (place_of place.now) next)) }
    ensures low { IfOk result (λ after. after ≤ next + deg (OneEntry (index_of entry.now))) }
{
    push_held(alloc, pieces, place)?;
    append(alloc, pieces, entry, &Place::named(next), next + 1)
}

// The same for the list index with these entries.
#[cycle(reading)]
fn append_list(
    alloc: Global,
    pieces: &mut Vec<Piece>,
    entries: &[Index],
    place: &Place,
    next: usize,
) -> Result<usize, AllocError>
    requires low { deg (many (plains_of entries.now)) ≤ 4 }
    requires few { next + deg (many (plains_of entries.now)) < 2 ^ 64 }
    ensures pieces { OnOk result
        (pieces_of pieces.new.items ≡ pieces_of pieces.old.items ++ reading (many (plains_of entries.now)) (place_of place.now) next) }
    ensures next { IfOk result (λ after. after ≡ next + names_in (reading (many (plains_of entries.now)) (place_of place.now) next)) }
    ensures low { IfOk result (λ after. after ≤ next + deg (many (plains_of entries.now))) }
{
    let count = entries.len();
    if count == 0 {
        Ok(next)
    } else if are_zero(entries) {
        push_choices(alloc, pieces, place, count)?;
        Ok(next)
    } else {
        push_elements(alloc, pieces, place, count)?;
        append_entries(alloc, pieces, entries, next, next + count)
    }
}

// The same for a list index's entries, at the elements from this number on.
#[cycle(reading)]
fn append_entries(
    alloc: Global,
    pieces: &mut Vec<Piece>,
    entries: &[Index],
    first: usize,
    next: usize,
) -> Result<usize, AllocError>
    requires elements { first + length entries.now ≤ next }
    requires low { degrees (plains_of entries.now) ≤ 4 }
    requires few { next + degrees (plains_of entries.now) < 2 ^ 64 }
    ensures pieces { OnOk result
        (pieces_of pieces.new.items ≡ pieces_of pieces.old.items ++ entries_reading (many (plains_of entries.now)) first next) }
    ensures next { IfOk result (λ after. after ≡ next + names_in (entries_reading (many (plains_of entries.now)) first next)) }
    ensures low { IfOk result (λ after. after ≤ next + degrees (plains_of entries.now)) }
{
    let mut number = first;
    let mut after = next;
    for entry in entries {
        after = append(alloc, pieces, entry, &Place::named(number), after)?;
        number += 1;
    }
    Ok(after)
}

// Whether each of the entries has degree 0.
fn are_zero(entries: &[Index]) -> bool
    requires { deg (many (plains_of entries.now)) ≤ 4 }
    ensures { result ≡ are_zero (many (plains_of entries.now)) }
{
    for entry in entries {
        if entry.degree() != 0 {
            return false;
        }
    }
    true
}
