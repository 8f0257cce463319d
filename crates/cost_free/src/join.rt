// The joined targets of a type.
ghost use Rattle.std.specs.Prelude.{◌≡◌, ◌≤◌, ◌<◌, [], ◌∷◌, ◌++◌, All, map, flat_map, filter, nat_lt, length, IfOk, OnOk};
ghost use Rattle.raml_syntax.specs.Tree.{ListOf};
ghost use Rattle.raml_syntax.specs.Read.{ty_of};
ghost use Rattle.base_poly.specs.Plain.{many, deg};
ghost use Rattle.base_poly.specs.Indices.{index_list};
ghost use Rattle.base_poly.specs.Read.{index_of, plains_of};
ghost use Rattle.cost_free.specs.Target.{cut_lists, joined, joined_over, joined_sets};
ghost use Rattle.cost_free.specs.Joining.{joined_of, all_joined};
ghost use Rattle.cost_free.specs.Read.{holders_of, sets_of, places_of};

use crate::holder::{Holder, joined_sets};
use crate::joined::Joined;
use base_poly::{Index, Tuple, indices};
use raml_syntax::Ty;
use std::alloc::{AllocError, Global};

fn has_entries(entries: &[Index]) -> bool
    ensures { result ≡ nat_lt 0 (deg (many (plains_of entries.now))) }
{
    match entries {
        [] => false,
        [_first, _rest @ ..] => true,
    }
}

// Whether the degree is positive.
fn is_positive(index: &Index) -> bool
    ensures { result ≡ nat_lt 0 (deg (index_of index.now)) }
{
    match index {
        Index::Unit => false,
        Index::Pair(first, second) => is_positive(first) || is_positive(second),
        Index::List(entries) => has_entries(entries),
        Index::Opt(None) => false,
        Index::Opt(Some(_)) => true,
    }
}

// Appends those of positive degree.
fn append_positive(
    alloc: Global,
    found: &mut Vec<Index>,
    indices: &[Index],
) -> Result<(), AllocError>
    ensures { OnOk result (plains_of found.new.items ≡ plains_of found.old.items ++ filter
        (λ l. nat_lt 0 (deg l)) (plains_of indices.now)) }
{
    for index in indices {
        if is_positive(index) {
            found.push(index.copy(alloc)?)?;
        }
    }
    Ok(())
}

// All indices of positive degree in the tuples.
fn positive_parts(alloc: Global, tuples: &[Tuple]) -> Result<Vec<Index>, AllocError>
    ensures { IfOk result (λ found. plains_of found.items ≡ filter (λ l. nat_lt 0 (deg l)) (flat_map (λ t. t) tuples.now)) }
{
    let mut found = Vec::new(alloc);
    for tuple in tuples {
        append_positive(alloc, &mut found, tuple.parts())?;
    }
    Ok(found)
}

// All indices of the type. More of them than there are places have no room in memory.
fn all_indices(alloc: Global, ty: Ty, d: u8) -> Result<Vec<Tuple>, AllocError>
    ensures { IfOk result (λ found. found.items ≡ index_list (ty_of ty ∷ []) d) }
{
    let types = vec![in alloc; ty]?;
    match indices(alloc, &types, d, usize::MAX) {
        Ok(found) => Ok(found),
        Err(_) => Err(AllocError),
    }
}

// The list indices over the type of elements, but for the zero index.
fn cut_lists(alloc: Global, element: &Ty, d: u8) -> Result<Vec<Index>, AllocError>
    ensures all { IfOk result (λ found. plains_of found.items ≡ cut_lists (ty_of element.now) d) }
    ensures low { IfOk result (λ found. All (λ i. deg (index_of i) ≤ 255) found.items) }
{
    let tuples = list_tuples(alloc, element, d)?;
    let found = positive_parts(alloc, &tuples)?;
    Ok(found)
}

// The tuples of lists of these elements.
fn list_tuples(alloc: Global, element: &Ty, d: u8) -> Result<Vec<Tuple>, AllocError>
    ensures { IfOk result (λ found. found.items ≡ index_list (ListOf (ty_of element.now) ∷ []) d) }
{
    let list = Ty::List(Box::new(alloc, element.copy(alloc)?)?);
    all_indices(alloc, list, d)
}

fn places(alloc: Global, holders: &[Holder<'_>]) -> Result<Vec<usize>, AllocError>
    ensures { IfOk result (λ places. places.items ≡ places_of holders.now) }
{
    let mut places = Vec::with_capacity(alloc, holders.len())?;
    for holder in holders {
        places.push(holder.place)?;
    }
    Ok(places)
}

// The joined target of the components and the list index.
fn joined<'a>(
    alloc: Global,
    ty: &'a Ty,
    holders: &[Holder<'_>],
    list: Index,
) -> Result<Joined<'a>, AllocError>
    requires some { 0 < length holders.now }
    requires low { deg (index_of list) ≤ 255 }
    ensures { IfOk result (λ j. joined_of j ≡ joined (ty_of ty.now) (places_of holders.now) (index_of list)) }
{
    let places = places(alloc, holders)?;
    let degree = list.degree();
    Ok(Joined {
        ty,
        list,
        degree,
        places,
    })
}

// Appends those of the components and each of the list indices.
fn append_joined<'a>(
    alloc: Global,
    found: &mut Vec<Joined<'a>>,
    ty: &'a Ty,
    holders: &[Holder<'_>],
    lists: Vec<Index>,
) -> Result<(), AllocError>
    requires some { 0 < length holders.now }
    requires low { All (λ i. deg (index_of i) ≤ 255) lists.items }
    ensures { OnOk result (all_joined found.new.items ≡ all_joined found.old.items
        ++ map (joined (ty_of ty.now) (places_of holders.now)) (plains_of lists.items)) }
{
    for list in lists {
        found.push(joined(alloc, ty, holders, list)?)?;
    }
    Ok(())
}

// Appends those of the components.
fn append_joined_over<'a>(
    alloc: Global,
    found: &mut Vec<Joined<'a>>,
    ty: &'a Ty,
    d: u8,
    holders: &[Holder<'_>],
) -> Result<(), AllocError>
    ensures { OnOk result (all_joined found.new.items ≡ all_joined found.old.items
        ++ joined_over (ty_of ty.now) d (holders_of holders.now)) }
{
    match holders {
        [] => Ok(()),
        [first, _others @ ..] => {
            let lists = cut_lists(alloc, first.element, d)?;
            append_joined(alloc, found, ty, holders, lists)?;
            Ok(())
        }
    }
}

// Those of each of the sets.
fn joined_over_all<'a>(
    alloc: Global,
    ty: &'a Ty,
    d: u8,
    sets: &[Vec<Holder<'_>>],
) -> Result<Vec<Joined<'a>>, AllocError>
    ensures { IfOk result (λ found. all_joined found.items ≡ flat_map (joined_over (ty_of ty.now) d) (sets_of sets.now)) }
{
    let mut found = Vec::new(alloc);
    for set in sets {
        append_joined_over(alloc, &mut found, ty, d, set)?;
    }
    Ok(found)
}

/// All joined targets of the type at degree `d`, set by set.
pub fn all_joined<'a>(alloc: Global, ty: &'a Ty, d: u8) -> Result<Vec<Joined<'a>>, AllocError>
    ensures { IfOk result (λ found. all_joined found.items ≡ flat_map (joined_over (ty_of ty.now) d) (joined_sets (ty_of ty.now))) }
{
    let sets = joined_sets(alloc, ty)?;
    joined_over_all(alloc, ty, d, &sets)
}
