// Indices of a type with pieces of a list at some of its components.
ghost use Rattle.std.specs.Prelude.{◌≡◌, ◌+◌, [], ◌∷◌, ◌++◌, map, length, IfOk, OnOk};
ghost use Rattle.std.specs.Option.{option_map};
ghost use Rattle.raml_syntax.specs.Read.{ty_of};
ghost use Rattle.base_poly.specs.Plain.{Pair};
ghost use Rattle.base_poly.specs.Laws.{cuts};
ghost use Rattle.base_poly.specs.Indices.{zero_of};
ghost use Rattle.base_poly.specs.Read.{index_of, plains_of};
ghost use Rattle.cost_free.specs.Target.{components, piece_at, piece_or_zero, filled, pieces};
ghost use Rattle.cost_free.specs.Cut.{cut_pieces};
ghost use Rattle.cost_free.specs.Read.{pieces_of};

use crate::holder::place_behind;
use base_poly::{Index, Tuple};
use raml_syntax::Ty;
use std::alloc::{AllocError, Global};

// The piece for the component at a place, where there is one.
fn piece_at<'a>(place: usize, places: &[usize], pieces: &[&'a [Index]]) -> Option<&'a [Index]>
    ensures { option_map (λ p. plains_of p.now) result ≡ piece_at place places.now (pieces_of pieces.now) }
{
    match places {
        [] => None,
        [first, others @ ..] => match pieces {
            [] => None,
            [piece, rest @ ..] => {
                if place == *first {
                    Some(*piece)
                } else {
                    piece_at(place, others, rest)
                }
            }
        },
    }
}

fn copy_all(alloc: Global, indices: &[Index]) -> Result<Vec<Index>, AllocError>
    ensures { IfOk result (λ copies. plains_of copies.items ≡ plains_of indices.now) }
{
    let mut copies = Vec::with_capacity(alloc, indices.len())?;
    for index in indices {
        copies.push(index.copy(alloc)?)?;
    }
    Ok(copies)
}

// The index at one component; goes to the place behind.
fn at_component(
    alloc: Global,
    ty: &Ty,
    zero: Index,
    place: &mut usize,
    places: &[usize],
    pieces: &[&[Index]],
) -> Result<Index, AllocError>
    requires { index_of zero ≡ zero_of (ty_of ty.now) }
    ensures index { IfOk result
        (λ index. index_of index ≡ piece_or_zero (ty_of ty.now) (piece_at place.old places.now (pieces_of pieces.now))) }
    ensures behind { OnOk result (place.new ≡ place.old + 1) }
{
    let piece = piece_at(*place, places, pieces);
    *place = place_behind(*place)?;
    match piece {
        None => Ok(zero),
        Some(entries) => Ok(Index::List(copy_all(alloc, entries)?)),
    }
}

fn pair(alloc: Global, first: Index, second: Index) -> Result<Index, AllocError>
    ensures { IfOk result (λ pair. index_of pair ≡ Pair (index_of first) (index_of second)) }
{
    Ok(Index::Pair(Box::new(alloc, first)?, Box::new(alloc, second)?))
}

// The index of a type whose first component has this place: pieces at the places, and zero
// indices elsewhere. Goes to the place behind the type.
pub fn filled(
    alloc: Global,
    ty: &Ty,
    place: &mut usize,
    places: &[usize],
    pieces: &[&[Index]],
) -> Result<Index, AllocError>
    ensures index { IfOk result (λ index. index_of index ≡ filled (ty_of ty.now) place.old places.now (pieces_of pieces.now)) }
    ensures behind { OnOk result (place.new ≡ place.old + length (components (ty_of ty.now))) }
{
    match ty {
        Ty::Int | Ty::Bool => at_component(alloc, ty, Index::Unit, place, places, pieces),
        Ty::Pair(first, second) => {
            let left = filled(alloc, first, place, places, pieces)?;
            let right = filled(alloc, second, place, places, pieces)?;
            pair(alloc, left, right)
        }
        Ty::List(_) | Ty::Tree(_) => at_component(
            alloc,
            ty,
            Index::List(Vec::new(alloc)),
            place,
            places,
            pieces,
        ),
        Ty::Opt(_) => at_component(alloc, ty, Index::Opt(None), place, places, pieces),
    }
}

// Appends the index with these pieces as a tuple, where no entries are left.
fn append_whole(
    alloc: Global,
    found: &mut Vec<Tuple>,
    ty: &Ty,
    places: &[usize],
    before: &[&[Index]],
    entries: &[Index],
) -> Result<(), AllocError>
    ensures { OnOk result (found.new.items
        ≡ found.old.items
        ++ map (λ p. filled (ty_of ty.now) 0 places.now (pieces_of before.now ++ p) ∷ []) (pieces 0 (plains_of entries.now))) }
{
    if entries.is_empty() {
        let index = filled(alloc, ty, &mut 0, places, before)?;
        found.push(Tuple::new(vec![in alloc; index]?))?;
    }
    Ok(())
}

/// Appends a tuple for each way to cut the entries into `count` pieces, behind the pieces `before`: the
/// index of the type that has the pieces at the places, and zero indices elsewhere.
#[cycle(cuts)]
pub fn append_filled<'a>(
    alloc: Global,
    found: &mut Vec<Tuple>,
    ty: &Ty,
    places: &[usize],
    before: &mut Vec<&'a [Index]>,
    count: usize,
    entries: &'a [Index],
) -> Result<(), AllocError>
    ensures all { OnOk result (found.new.items
        ≡ found.old.items
        ++ map (λ p. filled (ty_of ty.now) 0 places.now (pieces_of before.old.items ++ p) ∷ []) (pieces count (plains_of entries.now))) }
    ensures kept { OnOk result (before.new.items ≡ before.old.items) }
{
    if count == 0 {
        return append_whole(alloc, found, ty, places, before, entries);
    }
    append_cuts(alloc, found, ty, places, before, count - 1, entries)
}

// Appends those whose next piece is some first entries.
#[cycle(cuts)]
fn append_cuts<'a>(
    alloc: Global,
    found: &mut Vec<Tuple>,
    ty: &Ty,
    places: &[usize],
    before: &mut Vec<&'a [Index]>,
    count: usize,
    entries: &'a [Index],
) -> Result<(), AllocError>
    ensures all { OnOk result (found.new.items
        ≡ found.old.items
        ++ map (λ p. filled (ty_of ty.now) 0 places.now (pieces_of before.old.items ++ p) ∷ [])
        (cut_pieces count (cuts (plains_of entries.now)))) }
    ensures kept { OnOk result (before.new.items ≡ before.old.items) }
{
    for cut in 0..entries.len() + 1 {
        append_cut(
            alloc,
            found,
            ty,
            places,
            before,
            count,
            &entries[..cut],
            &entries[cut..],
        )?;
    }
    Ok(())
}

// Appends those with this next piece.
#[cycle(cuts)]
fn append_cut<'a>(
    alloc: Global,
    found: &mut Vec<Tuple>,
    ty: &Ty,
    places: &[usize],
    before: &mut Vec<&'a [Index]>,
    count: usize,
    piece: &'a [Index],
    entries: &'a [Index],
) -> Result<(), AllocError>
    ensures all { OnOk result (found.new.items
        ≡ found.old.items
        ++ map (λ p. filled (ty_of ty.now) 0 places.now (pieces_of before.old.items ++ p) ∷ [])
        (map (λ p. plains_of piece.now ∷ p) (pieces count (plains_of entries.now)))) }
    ensures kept { OnOk result (before.new.items ≡ before.old.items) }
{
    let place = before.len();
    before.push(piece)?;
    append_filled(alloc, found, ty, places, before, count, entries)?;
    before.truncate(place);
    Ok(())
}
