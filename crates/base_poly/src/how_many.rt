// How many positions a context has.
ghost use Rattle.std.specs.Prelude.{◌≡◌, ◌<◌, ◌≤◌, ◌+◌, ◌-◌, length, map, ℕ, IfOk, OnOk, IfSome, IsErrOf, IsTrue};
ghost use Rattle.std.specs.List.{range_with_len};
ghost use Rattle.raml_syntax.specs.Read.{ty_of};
ghost use Rattle.base_poly.specs.Base.{total};
ghost use Rattle.base_poly.specs.Plain.{deg};
ghost use Rattle.base_poly.specs.Indices.{tuples_led, indices_up_to, tuples_up_to, index_list};
ghost use Rattle.base_poly.specs.Read.{context_of};

use crate::fault::IndexFault;
use crate::sizes::{degrees, has_one_index};
use raml_syntax::Ty;
use std::alloc::Global;

/// How many tuples of indices of these types have degree at most `d`: so many positions the context
/// has. Scalars and lists and trees of scalars take no memory.
///
/// `TooMany` where there are more than `most`.
pub fn positions(alloc: Global, types: &[Ty], d: u8, most: usize) -> Result<usize, IndexFault>
    ensures exact { IfOk result (λ n. n ≡ length (index_list (context_of types.now) d)) }
    ensures few { OnOk result (length (index_list (context_of types.now) d) ≤ most) }
    ensures many { IsErrOf result IndexFault.TooMany → most < length (index_list (context_of types.now) d) }
{
    match plain_count(types, d) {
        Some(n) => within(n, most),
        None => counted(alloc, types, d, most),
    }
}

// The number, where it is not too great.
fn within(n: usize, most: usize) -> Result<usize, IndexFault>
    ensures exact { IfOk result (λ found. found ≡ n) }
    ensures few { OnOk result (n ≤ most) }
    ensures many { IsErrOf result IndexFault.TooMany → most < n }
{
    if n > most {
        Err(IndexFault::TooMany)
    } else {
        Ok(n)
    }
}

// How many there are of any types.
fn counted(alloc: Global, types: &[Ty], d: u8, most: usize) -> Result<usize, IndexFault>
    ensures exact { IfOk result (λ n. n ≡ length (index_list (context_of types.now) d)) }
    ensures few { OnOk result (length (index_list (context_of types.now) d) ≤ most) }
    ensures many { IsErrOf result IndexFault.TooMany → most < length (index_list (context_of types.now) d) }
{
    let found = degrees(alloc, types, d, most)?;
    Ok(found.len())
}

// How many there are, where each type has one index or is a list or tree of such.
#[cycle(plain_count)]
fn plain_count(types: &[Ty], d: u8) -> Option<usize>
    ensures { IfSome result (λ n. n ≡ length (tuples_up_to (context_of types.now) d)) }
{
    match types {
        [] => Some(1),
        [first, rest @ ..] => behind_first(first, rest, d),
    }
}

#[cycle(plain_count)]
fn behind_first(first: &Ty, rest: &[Ty], d: u8) -> Option<usize>
    ensures { IfSome result (λ n. n ≡ length (tuples_led (tuples_up_to (context_of rest.now)) d (indices_up_to (ty_of first.now) d))) }
{
    if has_one_index(first) {
        plain_count(rest, d)
    } else if has_lengths(first) {
        behind_lengths(rest, d)
    } else {
        None
    }
}

// Whether it has one index of each length, which is its degree, and no others.
fn has_lengths(ty: &Ty) -> bool
    ensures { IsTrue result → (g : ℕ) → map deg (indices_up_to (ty_of ty.now) g) ≡ range_with_len 0 (1 + g) }
{
    match ty {
        Ty::List(element) | Ty::Tree(element) => has_one_index(element),
        _ => false,
    }
}

#[cycle(plain_count)]
fn behind_lengths(rest: &[Ty], d: u8) -> Option<usize>
    ensures { IfSome result (λ n. n ≡ total (λ g. length (tuples_up_to (context_of rest.now) (d - g))) (range_with_len 0 (1 + d))) }
{
    let mut sum: usize = 0;
    for g in 0..u16::from(d) + 1 {
        match added(sum, rest, (u16::from(d) - g) as u8) {
            Some(more) => sum = more,
            None => return None,
        }
    }
    Some(sum)
}

// The sum with so many more.
#[cycle(plain_count)]
fn added(sum: usize, rest: &[Ty], d: u8) -> Option<usize>
    ensures { IfSome result (λ n. n ≡ sum + length (tuples_up_to (context_of rest.now) d)) }
{
    match plain_count(rest, d) {
        Some(n) => sum.checked_add(n),
        None => None,
    }
}
