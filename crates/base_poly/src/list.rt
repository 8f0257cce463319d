// Lists of all indices up to a degree.
ghost use Rattle.std.specs.Prelude.{◌≡◌, ◌<◌, ◌≤◌, ◌+◌, ◌-◌, [], ◌∷◌, ◌++◌, All, map, filter, not, length, nat_eq, vec_len, IfOk, OnOk};
ghost use Rattle.std.specs.Prelude.{IsErrOf};
ghost use Rattle.raml_syntax.specs.Read.{ty_of};
ghost use Rattle.base_poly.specs.Plain.{Pair, OneEntry, many, deg, degrees};
ghost use Rattle.base_poly.specs.Indices.{tuples_led, pairs_led, lists, options, indices_up_to, tuples_up_to, index_list, ListsTuples};
ghost use Rattle.base_poly.specs.Read.{index_of, plains_of, context_of};

use crate::fault::IndexFault;
use crate::index::{Index, copy_all};
use crate::tuple::{Tuple, append_with_head};
use raml_syntax::Ty;
use std::alloc::{AllocError, Global};

/// All tuples of indices of these types of degree at most `d`, in order: by degree, and then
/// component by component.
///
/// `TooMany` where there are more than `most`.
pub fn indices(alloc: Global, types: &[Ty], d: u8, most: usize) -> Result<Vec<Tuple>, IndexFault>
    ensures all { IfOk result (λ found. found.items ≡ index_list (context_of types.now) d) }
    ensures exact { IfOk result (λ found. ListsTuples (context_of types.now) d found.items) }
    ensures few { OnOk result (length (index_list (context_of types.now) d) ≤ most) }
    ensures many { IsErrOf result IndexFault.TooMany → most < length (index_list (context_of types.now) d) }
{
    let mut found = tuples_up_to(alloc, types, u32::from(d), most)?;
    let mut ordered = Vec::with_capacity(alloc, found.len())?;
    for degree in 0..u32::from(d) + 1 {
        found = take_degree(alloc, &mut ordered, found, degree)?;
    }
    Ok(ordered)
}

// Moves the tuples of this degree behind those in order, and gives back the others.
fn take_degree(
    alloc: Global,
    ordered: &mut Vec<Tuple>,
    found: Vec<Tuple>,
    degree: u32,
) -> Result<Vec<Tuple>, AllocError>
    requires { All (λ t. degrees t ≤ 255) found.items }
    ensures moved { OnOk result (ordered.new.items ≡ ordered.old.items ++ filter (λ t. nat_eq (degrees t) degree) found.items) }
    ensures left { IfOk result (λ left. left.items ≡ filter (λ t. not (nat_eq (degrees t) degree)) found.items) }
{
    let mut left = Vec::new(alloc);
    for tuple in found {
        if tuple.degree() == degree {
            ordered.push(tuple)?;
        } else {
            left.push(tuple)?;
        }
    }
    Ok(left)
}

/// All tuples of indices of these types of degree at most `d`, component by component.
///
/// `TooMany` where there are more than `most`.
pub fn tuples_up_to(
    alloc: Global,
    types: &[Ty],
    d: u32,
    most: usize,
) -> Result<Vec<Tuple>, IndexFault>
    ensures all { IfOk result (λ found. found.items ≡ tuples_up_to (context_of types.now) d) }
    ensures many { IsErrOf result IndexFault.TooMany → most < length (tuples_up_to (context_of types.now) d) }
    ensures few { IfOk result (λ found. vec_len found ≤ most) }
{
    match types {
        [ty] => singles(alloc, ty, d, most),
        _ => of_types(alloc, types, d, most),
    }
}

// The indices of the type, each a tuple of its own.
fn singles(alloc: Global, ty: &Ty, d: u32, most: usize) -> Result<Vec<Tuple>, IndexFault>
    ensures all { IfOk result (λ found. found.items ≡ map (λ i. i ∷ []) (indices_up_to (ty_of ty.now) d)) }
    ensures many { IsErrOf result IndexFault.TooMany → most < length (indices_up_to (ty_of ty.now) d) }
    ensures few { IfOk result (λ found. vec_len found ≤ most) }
{
    let indices = indices_up_to(alloc, ty, d, most)?;
    Ok(each_alone(alloc, indices)?)
}

fn each_alone(alloc: Global, indices: Vec<Index>) -> Result<Vec<Tuple>, AllocError>
    ensures all { IfOk result (λ found. found.items ≡ map (λ i. i ∷ []) (plains_of indices.items)) }
    ensures len { IfOk result (λ found. vec_len found ≡ vec_len indices) }
{
    let mut found = Vec::with_capacity(alloc, indices.len())?;
    for index in indices {
        found.push(Tuple::new(Vec::from_array(alloc, [index])?))?;
    }
    Ok(found)
}

// All tuples of any number of types.
fn of_types(alloc: Global, types: &[Ty], d: u32, most: usize) -> Result<Vec<Tuple>, IndexFault>
    ensures all { IfOk result (λ found. found.items ≡ tuples_up_to (context_of types.now) d) }
    ensures many { IsErrOf result IndexFault.TooMany → most < length (tuples_up_to (context_of types.now) d) }
    ensures few { IfOk result (λ found. vec_len found ≤ most) }
{
    let mut found = Vec::new(alloc);
    append_tuples(alloc, &mut found, &mut Vec::new(alloc), types, d, most)?;
    Ok(found)
}

// Appends all tuples of these types behind the indices `before`, component by component.
#[cycle(of_types)]
fn append_tuples(
    alloc: Global,
    found: &mut Vec<Tuple>,
    before: &mut Vec<Index>,
    types: &[Ty],
    d: u32,
    most: usize,
) -> Result<(), IndexFault>
    requires { vec_len found.old ≤ most }
    ensures all { OnOk result (found.new.items
        ≡ found.old.items
        ++ map (λ t. plains_of before.old.items ++ t) (tuples_up_to (context_of types.now) d)) }
    ensures kept { OnOk result (before.new.items ≡ before.old.items) }
    ensures few { OnOk result (vec_len found.new ≤ most) }
    ensures many { IsErrOf result IndexFault.TooMany → most < length found.old.items + length (tuples_up_to (context_of types.now) d) }
{
    match types {
        [] => append_tuple(alloc, found, before, most),
        [first, rest @ ..] => append_by_first_type(alloc, found, before, first, rest, d, most),
    }
}

// Appends those of the first type and the rest.
#[cycle(of_types)]
fn append_by_first_type(
    alloc: Global,
    found: &mut Vec<Tuple>,
    before: &mut Vec<Index>,
    first: &Ty,
    rest: &[Ty],
    d: u32,
    most: usize,
) -> Result<(), IndexFault>
    requires { vec_len found.old ≤ most }
    ensures all { OnOk result (found.new.items
        ≡ found.old.items
        ++ map (λ t. plains_of before.old.items ++ t)
        (tuples_led (tuples_up_to (context_of rest.now)) d (indices_up_to (ty_of first.now) d))) }
    ensures kept { OnOk result (before.new.items ≡ before.old.items) }
    ensures few { OnOk result (vec_len found.new ≤ most) }
    ensures many { IsErrOf result IndexFault.TooMany →
        most < length found.old.items
        + length (tuples_led (tuples_up_to (context_of rest.now)) d (indices_up_to (ty_of first.now) d)) }
{
    let heads = indices_up_to(alloc, first, d, most)?;
    for head in &heads {
        append_by_first_index(alloc, found, before, head, rest, d, most)?;
    }
    Ok(())
}

// Appends those that have this index behind `before`, and leave the degree at most `d`.
#[cycle(of_types)]
fn append_by_first_index(
    alloc: Global,
    found: &mut Vec<Tuple>,
    before: &mut Vec<Index>,
    head: &Index,
    rest: &[Ty],
    d: u32,
    most: usize,
) -> Result<(), IndexFault>
    requires room { vec_len found.old ≤ most }
    requires low { deg (index_of head.now) ≤ d }
    ensures all { OnOk result (found.new.items
        ≡ found.old.items
        ++ map (λ r. plains_of before.old.items ++ index_of head.now ∷ r)
        (tuples_up_to (context_of rest.now) (d - deg (index_of head.now)))) }
    ensures kept { OnOk result (before.new.items ≡ before.old.items) }
    ensures few { OnOk result (vec_len found.new ≤ most) }
    ensures many { IsErrOf result IndexFault.TooMany →
        most < length found.old.items + length (tuples_up_to (context_of rest.now) (d - deg (index_of head.now))) }
{
    let place = before.len();
    before.push(head.copy(alloc)?)?;
    append_tuples(alloc, found, before, rest, d - head.degree(), most)?;
    before.truncate(place);
    Ok(())
}

// Appends the tuple of these indices.
fn append_tuple(
    alloc: Global,
    found: &mut Vec<Tuple>,
    parts: &[Index],
    most: usize,
) -> Result<(), IndexFault>
    requires { vec_len found.old ≤ most }
    ensures all { OnOk result (found.new.items ≡ found.old.items ++ plains_of parts.now ∷ []) }
    ensures few { OnOk result (vec_len found.new ≤ most) }
    ensures many { IsErrOf result IndexFault.TooMany → most < length found.old.items + 1 }
{
    if found.len() == most {
        return Err(IndexFault::TooMany);
    }
    found.push(Tuple::new(copy_all(alloc, parts)?))?;
    Ok(())
}

// The item alone.
pub fn only<T: Drop>(alloc: Global, item: T, most: usize) -> Result<Vec<T>, IndexFault>
    ensures all { IfOk result (λ found. found.items ≡ item ∷ []) }
    ensures few { IfOk result (λ found. vec_len found ≤ most) }
    ensures many { IsErrOf result IndexFault.TooMany → most < 1 }
{
    if most == 0 {
        return Err(IndexFault::TooMany);
    }
    let mut found = Vec::new(alloc);
    found.push(item)?;
    Ok(found)
}

// Appends the index before each of the tuples.
fn append_with_head_within(
    alloc: Global,
    found: &mut Vec<Tuple>,
    first: &Index,
    rests: &[Tuple],
    most: usize,
) -> Result<(), IndexFault>
    requires { vec_len found.old ≤ most }
    ensures all { OnOk result (found.new.items ≡ found.old.items ++ map (λ r. index_of first.now ∷ r) rests.now) }
    ensures few { OnOk result (vec_len found.new ≤ most) }
    ensures many { IsErrOf result IndexFault.TooMany → most < length found.old.items + length rests.now }
{
    if rests.len() > most - found.len() {
        return Err(IndexFault::TooMany);
    }
    Ok(append_with_head(alloc, found, first, rests)?)
}

// All indices of the type, in order.
#[cycle(of_type)]
fn indices_up_to(alloc: Global, ty: &Ty, d: u32, most: usize) -> Result<Vec<Index>, IndexFault>
    ensures all { IfOk result (λ found. plains_of found.items ≡ indices_up_to (ty_of ty.now) d) }
    ensures few { IfOk result (λ found. vec_len found ≤ most) }
    ensures many { IsErrOf result IndexFault.TooMany → most < length (indices_up_to (ty_of ty.now) d) }
{
    match ty {
        Ty::Int | Ty::Bool => only(alloc, Index::Unit, most),
        Ty::Pair(first, second) => pairs_up_to(alloc, first, second, d, most),
        Ty::List(element) | Ty::Tree(element) => {
            let found = lists_up_to(alloc, element, d, most)?;
            Ok(as_lists(alloc, found)?)
        }
        Ty::Opt(content) => options_up_to(alloc, content, d, most),
    }
}

// All indices of the pairs of these two types.
#[cycle(of_type)]
fn pairs_up_to(
    alloc: Global,
    first: &Ty,
    second: &Ty,
    d: u32,
    most: usize,
) -> Result<Vec<Index>, IndexFault>
    ensures all { IfOk result
        (λ found. plains_of found.items ≡ pairs_led (indices_up_to (ty_of second.now)) d (indices_up_to (ty_of first.now) d)) }
    ensures few { IfOk result (λ found. vec_len found ≤ most) }
    ensures many { IsErrOf result IndexFault.TooMany →
        most < length (pairs_led (indices_up_to (ty_of second.now)) d (indices_up_to (ty_of first.now) d)) }
{
    let heads = indices_up_to(alloc, first, d, most)?;
    let mut found = Vec::new(alloc);
    for head in &heads {
        append_pairs_by_head(alloc, &mut found, head, second, d, most)?;
    }
    Ok(found)
}

// Appends the pairs of the index with each one of the second type that leaves the degree at most `d`.
#[cycle(of_type)]
fn append_pairs_by_head(
    alloc: Global,
    found: &mut Vec<Index>,
    head: &Index,
    second: &Ty,
    d: u32,
    most: usize,
) -> Result<(), IndexFault>
    requires room { vec_len found.old ≤ most }
    requires low { deg (index_of head.now) ≤ d }
    ensures all { OnOk result (plains_of found.new.items
        ≡ plains_of found.old.items
        ++ map (λ j. Pair (index_of head.now) j) (indices_up_to (ty_of second.now) (d - deg (index_of head.now)))) }
    ensures few { OnOk result (vec_len found.new ≤ most) }
    ensures many { IsErrOf result IndexFault.TooMany →
        most < length found.old.items + length (indices_up_to (ty_of second.now) (d - deg (index_of head.now))) }
{
    let seconds = indices_up_to(alloc, second, d - head.degree(), most)?;
    append_pairs_within(alloc, found, head, seconds, most)
}

// Appends the pairs of the first with each of the seconds.
fn append_pairs_within(
    alloc: Global,
    found: &mut Vec<Index>,
    first: &Index,
    seconds: Vec<Index>,
    most: usize,
) -> Result<(), IndexFault>
    requires { vec_len found.old ≤ most }
    ensures all { OnOk result (plains_of found.new.items
        ≡ plains_of found.old.items ++ map (λ j. Pair (index_of first.now) j) (plains_of seconds.items)) }
    ensures few { OnOk result (vec_len found.new ≤ most) }
    ensures many { IsErrOf result IndexFault.TooMany → most < length found.old.items + length seconds.items }
{
    if seconds.len() > most - found.len() {
        return Err(IndexFault::TooMany);
    }
    for second in seconds {
        found.push(pair(alloc, first, second)?)?;
    }
    Ok(())
}

// The pair of the two.
pub fn pair(alloc: Global, first: &Index, second: Index) -> Result<Index, AllocError>
    ensures { IfOk result (λ pair. index_of pair ≡ Pair (index_of first.now) (index_of second)) }
{
    Ok(Index::Pair(
        Box::new(alloc, first.copy(alloc)?)?,
        Box::new(alloc, second)?,
    ))
}

// All entries that a list index of this element type may have together.
#[cycle(of_type)]
fn lists_up_to(alloc: Global, element: &Ty, d: u32, most: usize) -> Result<Vec<Tuple>, IndexFault>
    ensures all { IfOk result (λ found. found.items ≡ lists (indices_up_to (ty_of element.now)) d d) }
    ensures few { IfOk result (λ found. vec_len found ≤ most) }
    ensures many { IsErrOf result IndexFault.TooMany → most < length (lists (indices_up_to (ty_of element.now)) d d) }
{
    let found = only(alloc, Tuple::new(Vec::new(alloc)), most)?;
    if d == 0 {
        return Ok(found);
    }
    with_nonempty_lists(alloc, found, element, d - 1, most)
}

// Those found, and after them all that have a first entry and degree at most `d` beside its place.
#[cycle(of_type)]
fn with_nonempty_lists(
    alloc: Global,
    mut found: Vec<Tuple>,
    element: &Ty,
    d: u32,
    most: usize,
) -> Result<Vec<Tuple>, IndexFault>
    requires { vec_len found ≤ most }
    ensures all { IfOk result (λ all. all.items
        ≡ found.items ++ tuples_led (λ k. lists (indices_up_to (ty_of element.now)) k k) d (indices_up_to (ty_of element.now) d)) }
    ensures few { IfOk result (λ all. vec_len all ≤ most) }
    ensures many { IsErrOf result IndexFault.TooMany →
        most < length found.items
        + length (tuples_led (λ k. lists (indices_up_to (ty_of element.now)) k k) d (indices_up_to (ty_of element.now) d)) }
{
    let heads = indices_up_to(alloc, element, d, most)?;
    for head in &heads {
        append_lists_by_head(alloc, &mut found, head, element, d, most)?;
    }
    Ok(found)
}

// Appends the index before all entries that leave the degree at most `d`.
#[cycle(of_type)]
fn append_lists_by_head(
    alloc: Global,
    found: &mut Vec<Tuple>,
    head: &Index,
    element: &Ty,
    d: u32,
    most: usize,
) -> Result<(), IndexFault>
    requires room { vec_len found.old ≤ most }
    requires low { deg (index_of head.now) ≤ d }
    ensures all { OnOk result (found.new.items
        ≡ found.old.items
        ++ map (λ r. index_of head.now ∷ r)
        (lists (indices_up_to (ty_of element.now)) (d - deg (index_of head.now)) (d - deg (index_of head.now)))) }
    ensures few { OnOk result (vec_len found.new ≤ most) }
    ensures many { IsErrOf result IndexFault.TooMany →
        most < length found.old.items
        + length (lists (indices_up_to (ty_of element.now)) (d - deg (index_of head.now)) (d - deg (index_of head.now))) }
{
    let rests = lists_up_to(alloc, element, d - head.degree(), most)?;
    append_with_head_within(alloc, found, head, &rests, most)
}

// All indices of options of the type.
#[cycle(of_type)]
fn options_up_to(alloc: Global, content: &Ty, d: u32, most: usize) -> Result<Vec<Index>, IndexFault>
    ensures all { IfOk result (λ found. plains_of found.items ≡ options (indices_up_to (ty_of content.now)) d) }
    ensures few { IfOk result (λ found. vec_len found ≤ most) }
    ensures many { IsErrOf result IndexFault.TooMany → most < length (options (indices_up_to (ty_of content.now)) d) }
{
    let mut found = only(alloc, Index::Opt(None), most)?;
    if d > 0 {
        let entries = indices_up_to(alloc, content, d - 1, most - 1)?;
        append_options(alloc, &mut found, entries)?;
    }
    Ok(found)
}

// Appends the option index with each of the entries.
pub fn append_options(
    alloc: Global,
    found: &mut Vec<Index>,
    entries: Vec<Index>,
) -> Result<(), AllocError>
    ensures all { OnOk result (plains_of found.new.items ≡ plains_of found.old.items ++ map OneEntry (plains_of entries.items)) }
    ensures len { OnOk result (vec_len found.new ≡ vec_len found.old + vec_len entries) }
{
    for entry in entries {
        found.push(Index::Opt(Some(Box::new(alloc, entry)?)))?;
    }
    Ok(())
}

// Each of them as a list index.
pub fn as_lists(alloc: Global, tuples: Vec<Tuple>) -> Result<Vec<Index>, AllocError>
    ensures all { IfOk result (λ found. plains_of found.items ≡ map many tuples.items) }
    ensures len { IfOk result (λ found. vec_len found ≡ vec_len tuples) }
{
    let mut found = Vec::new(alloc);
    for tuple in tuples {
        found.push(tuple.into_list())?;
    }
    Ok(found)
}
