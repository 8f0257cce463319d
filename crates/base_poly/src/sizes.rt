// Degrees of all indices and tuples, without any of these.
ghost use Rattle.std.specs.Prelude.{◌≡◌, ◌<◌, ◌≤◌, ◌+◌, [], ◌∷◌, ◌++◌, ℕ, map, length, vec_len, IfOk, OnOk, IsErrOf, IsTrue};
ghost use Rattle.std.specs.List.{range_with_len};
ghost use Rattle.raml_syntax.specs.Read.{ty_of};
ghost use Rattle.base_poly.specs.Plain.{Unit', many, deg, degrees};
ghost use Rattle.base_poly.specs.Indices.{tuples_led, pairs_led, lists, options, indices_up_to, tuples_up_to, index_list};
ghost use Rattle.base_poly.specs.Read.{context_of};
ghost use Rattle.base_poly.specs.Sizes.{sums_behind, all_sums, list_sums};

use crate::fault::IndexFault;
use crate::list::only;
use raml_syntax::Ty;
use std::alloc::Global;

/// The degrees of all tuples of indices of these types of degree at most `d`, component by component.
/// There are as many as the context has positions.
///
/// `TooMany` where there are more than `most`.
pub fn degrees(alloc: Global, types: &[Ty], d: u8, most: usize) -> Result<Vec<u8>, IndexFault>
    ensures all { IfOk result (λ found. found.items ≡ map degrees (tuples_up_to (context_of types.now) d)) }
    ensures positions { IfOk result (λ found. length found.items ≡ length (index_list (context_of types.now) d)) }
    ensures few { OnOk result (length (index_list (context_of types.now) d) ≤ most) }
    ensures many { IsErrOf result IndexFault.TooMany → most < length (index_list (context_of types.now) d) }
{
    if d == 0 {
        return only(alloc, 0, most);
    }
    of_types(alloc, types, d, most)
}

// The same.
#[cycle(of_types)]
fn of_types(alloc: Global, types: &[Ty], d: u8, most: usize) -> Result<Vec<u8>, IndexFault>
    ensures all { IfOk result (λ found. found.items ≡ map degrees (tuples_up_to (context_of types.now) d)) }
    ensures few { IfOk result (λ found. vec_len found ≤ most) }
    ensures many { IsErrOf result IndexFault.TooMany → most < length (tuples_up_to (context_of types.now) d) }
{
    match types {
        [] => only(alloc, 0, most),
        [first, rest @ ..] => by_first_type(alloc, first, rest, d, most),
    }
}

// A type with one index adds nothing to the degrees of the others.
#[cycle(of_types)]
fn by_first_type(
    alloc: Global,
    first: &Ty,
    rest: &[Ty],
    d: u8,
    most: usize,
) -> Result<Vec<u8>, IndexFault>
    ensures all { IfOk result (λ found. found.items
        ≡ map degrees (tuples_led (tuples_up_to (context_of rest.now)) d (indices_up_to (ty_of first.now) d))) }
    ensures few { IfOk result (λ found. vec_len found ≤ most) }
    ensures many { IsErrOf result IndexFault.TooMany →
        most < length (tuples_led (tuples_up_to (context_of rest.now)) d (indices_up_to (ty_of first.now) d)) }
{
    if has_one_index(first) {
        of_types(alloc, rest, d, most)
    } else {
        before_others(alloc, first, rest, d, most)
    }
}

#[cycle(of_types)]
fn before_others(
    alloc: Global,
    first: &Ty,
    rest: &[Ty],
    d: u8,
    most: usize,
) -> Result<Vec<u8>, IndexFault>
    ensures all { IfOk result (λ found. found.items
        ≡ map degrees (tuples_led (tuples_up_to (context_of rest.now)) d (indices_up_to (ty_of first.now) d))) }
    ensures few { IfOk result (λ found. vec_len found ≤ most) }
    ensures many { IsErrOf result IndexFault.TooMany →
        most < length (tuples_led (tuples_up_to (context_of rest.now)) d (indices_up_to (ty_of first.now) d)) }
{
    match rest {
        [] => of_type(alloc, first, d, most),
        _ => with_others(alloc, first, rest, d, most),
    }
}

#[cycle(of_types)]
fn with_others(
    alloc: Global,
    first: &Ty,
    rest: &[Ty],
    d: u8,
    most: usize,
) -> Result<Vec<u8>, IndexFault>
    ensures all { IfOk result (λ found. found.items
        ≡ map degrees (tuples_led (tuples_up_to (context_of rest.now)) d (indices_up_to (ty_of first.now) d))) }
    ensures few { IfOk result (λ found. vec_len found ≤ most) }
    ensures many { IsErrOf result IndexFault.TooMany →
        most < length (tuples_led (tuples_up_to (context_of rest.now)) d (indices_up_to (ty_of first.now) d)) }
{
    let firsts = of_type(alloc, first, d, most)?;
    let rests = of_types(alloc, rest, d, most)?;
    sums(alloc, &firsts, &rests, d, most)
}

// Whether the type has one index, of degree 0.
pub fn has_one_index(ty: &Ty) -> bool
    ensures { IsTrue result → (g : ℕ) → indices_up_to (ty_of ty.now) g ≡ Unit' ∷ [] }
{
    matches!(ty, Ty::Int | Ty::Bool)
}

// The degrees of all indices of the type, in order.
#[cycle(of_type)]
fn of_type(alloc: Global, ty: &Ty, d: u8, most: usize) -> Result<Vec<u8>, IndexFault>
    ensures all { IfOk result (λ found. found.items ≡ map deg (indices_up_to (ty_of ty.now) d)) }
    ensures few { IfOk result (λ found. vec_len found ≤ most) }
    ensures many { IsErrOf result IndexFault.TooMany → most < length (indices_up_to (ty_of ty.now) d) }
{
    match ty {
        Ty::Int | Ty::Bool => only(alloc, 0, most),
        Ty::Pair(first, second) => of_pairs(alloc, first, second, d, most),
        Ty::List(element) | Ty::Tree(element) => of_lists(alloc, element, d, most),
        Ty::Opt(content) => of_options(alloc, content, d, most),
    }
}

#[cycle(of_type)]
fn of_pairs(
    alloc: Global,
    first: &Ty,
    second: &Ty,
    d: u8,
    most: usize,
) -> Result<Vec<u8>, IndexFault>
    ensures all { IfOk result
        (λ found. found.items ≡ map deg (pairs_led (indices_up_to (ty_of second.now)) d (indices_up_to (ty_of first.now) d))) }
    ensures few { IfOk result (λ found. vec_len found ≤ most) }
    ensures many { IsErrOf result IndexFault.TooMany →
        most < length (pairs_led (indices_up_to (ty_of second.now)) d (indices_up_to (ty_of first.now) d)) }
{
    let firsts = of_type(alloc, first, d, most)?;
    let seconds = of_type(alloc, second, d, most)?;
    sums(alloc, &firsts, &seconds, d, most)
}

#[cycle(of_type)]
fn of_lists(alloc: Global, element: &Ty, d: u8, most: usize) -> Result<Vec<u8>, IndexFault>
    ensures all { IfOk result (λ found. found.items ≡ map deg (map many (lists (indices_up_to (ty_of element.now)) d d))) }
    ensures few { IfOk result (λ found. vec_len found ≤ most) }
    ensures many { IsErrOf result IndexFault.TooMany → most < length (map many (lists (indices_up_to (ty_of element.now)) d d)) }
{
    if has_one_index(element) {
        lengths(alloc, d, most)
    } else {
        of_entries(alloc, element, d, most)
    }
}

// Where an entry has degree 0, there is one list index of each length.
fn lengths(alloc: Global, d: u8, most: usize) -> Result<Vec<u8>, IndexFault>
    ensures all { IfOk result (λ found. found.items ≡ range_with_len 0 (1 + d)) }
    ensures few { IfOk result (λ found. vec_len found ≤ most) }
    ensures many { IsErrOf result IndexFault.TooMany → most < 1 + d }
{
    if usize::from(d) >= most {
        return Err(IndexFault::TooMany);
    }
    let mut found = Vec::with_capacity(alloc, usize::from(d) + 1)?;
    for n in 0..d {
        found.push(n)?;
    }
    found.push(d)?;
    Ok(found)
}

#[cycle(of_type)]
fn of_entries(alloc: Global, element: &Ty, d: u8, most: usize) -> Result<Vec<u8>, IndexFault>
    ensures all { IfOk result (λ found. found.items ≡ map deg (map many (lists (indices_up_to (ty_of element.now)) d d))) }
    ensures few { IfOk result (λ found. vec_len found ≤ most) }
    ensures many { IsErrOf result IndexFault.TooMany → most < length (map many (lists (indices_up_to (ty_of element.now)) d d)) }
{
    if d == 0 {
        return only(alloc, 0, most);
    }
    let entries = of_type(alloc, element, d - 1, most)?;
    list_sums(alloc, &entries, d, most)
}

#[cycle(of_type)]
fn of_options(alloc: Global, content: &Ty, d: u8, most: usize) -> Result<Vec<u8>, IndexFault>
    ensures all { IfOk result (λ found. found.items ≡ map deg (options (indices_up_to (ty_of content.now)) d)) }
    ensures few { IfOk result (λ found. vec_len found ≤ most) }
    ensures many { IsErrOf result IndexFault.TooMany → most < length (options (indices_up_to (ty_of content.now)) d) }
{
    if d == 0 {
        return only(alloc, 0, most);
    }
    let entries = of_type(alloc, content, d - 1, most)?;
    option_sums(alloc, &entries, d, most)
}

// No entry, or one.
fn option_sums(alloc: Global, entries: &[u8], d: u8, most: usize) -> Result<Vec<u8>, IndexFault>
    ensures all { IfOk result (λ found. found.items ≡ 0 ∷ sums_behind 1 d entries.now) }
    ensures few { IfOk result (λ found. vec_len found ≤ most) }
    ensures many { IsErrOf result IndexFault.TooMany → most < 1 + length (sums_behind 1 d entries.now) }
{
    let mut found = only(alloc, 0, most)?;
    append_sums(&mut found, 1, entries, d, most)?;
    Ok(found)
}

// Any number of entries.
fn list_sums(alloc: Global, entries: &[u8], d: u8, most: usize) -> Result<Vec<u8>, IndexFault>
    ensures all { IfOk result (λ found. found.items ≡ list_sums entries.now d) }
    ensures few { IfOk result (λ found. vec_len found ≤ most) }
    ensures many { IsErrOf result IndexFault.TooMany → (g : ℕ) × (g ≤ d) × (most < length (list_sums entries.now g)) }
{
    let mut found = only(alloc, 0, most)?;
    for g in 0..d {
        found = longer_lists(alloc, entries, &found, g + 1, most)?;
    }
    Ok(found)
}

// No entry, or a first one before those that are shorter.
fn longer_lists(
    alloc: Global,
    entries: &[u8],
    shorter: &[u8],
    d: u8,
    most: usize,
) -> Result<Vec<u8>, IndexFault>
    ensures all { IfOk result (λ found. found.items ≡ 0 ∷ all_sums 1 d entries.now shorter.now) }
    ensures few { IfOk result (λ found. vec_len found ≤ most) }
    ensures many { IsErrOf result IndexFault.TooMany → most < 1 + length (all_sums 1 d entries.now shorter.now) }
{
    let mut found = only(alloc, 0, most)?;
    append_all(&mut found, 1, entries, shorter, d, most)?;
    Ok(found)
}

// Each of the firsts and each of the others, where both together are at most `d`.
fn sums(
    alloc: Global,
    firsts: &[u8],
    others: &[u8],
    d: u8,
    most: usize,
) -> Result<Vec<u8>, IndexFault>
    ensures all { IfOk result (λ found. found.items ≡ all_sums 0 d firsts.now others.now) }
    ensures few { IfOk result (λ found. vec_len found ≤ most) }
    ensures many { IsErrOf result IndexFault.TooMany → most < length (all_sums 0 d firsts.now others.now) }
{
    let mut found = Vec::with_capacity(alloc, firsts.len() + others.len())?;
    append_all(&mut found, 0, firsts, others, d, most)?;
    Ok(found)
}

// Appends them, where each of the firsts counts for so much more.
fn append_all(
    found: &mut Vec<u8>,
    more: u16,
    firsts: &[u8],
    others: &[u8],
    d: u8,
    most: usize,
) -> Result<(), IndexFault>
    requires room { vec_len found.old ≤ most }
    requires small { more ≤ 1 }
    ensures all { OnOk result (found.new.items ≡ found.old.items ++ all_sums more d firsts.now others.now) }
    ensures few { OnOk result (vec_len found.new ≤ most) }
    ensures many { IsErrOf result IndexFault.TooMany → most < length found.old.items + length (all_sums more d firsts.now others.now) }
{
    for first in firsts {
        append_sums(found, more + u16::from(*first), others, d, most)?;
    }
    Ok(())
}

// Appends those of one first number.
fn append_sums(
    found: &mut Vec<u8>,
    first: u16,
    others: &[u8],
    d: u8,
    most: usize,
) -> Result<(), IndexFault>
    requires room { vec_len found.old ≤ most }
    requires small { first ≤ 256 }
    ensures all { OnOk result (found.new.items ≡ found.old.items ++ sums_behind first d others.now) }
    ensures few { OnOk result (vec_len found.new ≤ most) }
    ensures many { IsErrOf result IndexFault.TooMany → most < length found.old.items + length (sums_behind first d others.now) }
{
    for other in others {
        let sum = first + u16::from(*other);
        if sum <= u16::from(d) {
            append_within(found, sum as u8, most)?;
        }
    }
    Ok(())
}

// Appends the number.
fn append_within(found: &mut Vec<u8>, n: u8, most: usize) -> Result<(), IndexFault>
    requires { vec_len found.old ≤ most }
    ensures all { OnOk result (found.new.items ≡ found.old.items ++ n ∷ []) }
    ensures few { OnOk result (vec_len found.new ≤ most) }
    ensures many { IsErrOf result IndexFault.TooMany → most < length found.old.items + 1 }
{
    if found.len() == most {
        return Err(IndexFault::TooMany);
    }
    found.push(n)?;
    Ok(())
}
