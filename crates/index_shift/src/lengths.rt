// Lists whose elements have one index, of degree 0: they have one index of each length, and its degree
// is the length. So nothing has to be looked up to tell how they are carried.
ghost use Rattle.std.specs.Prelude.{◌≡◌, ◌<◌, map, IfOk};
ghost use Rattle.std.specs.List.{range_with_len};
ghost use Rattle.raml_syntax.specs.Read.{ty_of};
ghost use Rattle.index_shift.specs.Lengths.{has_one, has_lengths, length_target, opened_at, left_at};
ghost use Rattle.index_shift.specs.Read.{middle_of, middles_of};

use crate::lift::{Middle, Target};
use raml_syntax::Ty;
use std::alloc::{AllocError, Global};

/// Whether it is the type of such lists.
pub fn has_lengths(ty: &Ty) -> bool
    ensures { result ≡ has_lengths (ty_of ty.now) }
{
    match ty {
        Ty::List(element) => has_one(element),
        Ty::Int | Ty::Bool | Ty::Pair(..) | Ty::Tree(_) | Ty::Opt(_) => false,
    }
}

// Whether the type has one index.
fn has_one(ty: &Ty) -> bool
    ensures { result ≡ has_one (ty_of ty.now) }
{
    match ty {
        Ty::Int | Ty::Bool => true,
        Ty::Pair(..) | Ty::List(_) | Ty::Tree(_) | Ty::Opt(_) => false,
    }
}

/// The lengths below one.
pub fn lengths(alloc: Global, end: u8) -> Result<Vec<u8>, AllocError>
    ensures { IfOk result (λ found. found.items ≡ range_with_len 0 end) }
{
    let mut found = Vec::with_capacity(alloc, usize::from(end))?;
    for n in 0..end {
        found.push(n)?;
    }
    Ok(found)
}

// The index of a length, which stands at it, also behind an index of the element.
fn target(n: u8) -> Target
    ensures { result ≡ length_target n }
{
    Target {
        place: u32::from(n),
        degree: n,
        times: 1,
    }
}

// To what the index of a length is carried where the list is taken apart.
fn opened_at(alloc: Global, n: u8) -> Result<Middle, AllocError>
    ensures { IfOk result (λ middle. middle_of middle ≡ opened_at n) }
{
    let targets = if n > 0 {
        vec![in alloc; target(n - 1), target(n)]?
    } else {
        vec![in alloc; target(0)]?
    };
    Ok(Middle { degree: n, targets })
}

// To what it is carried where the list leaves.
fn left_at(alloc: Global, n: u8) -> Result<Middle, AllocError>
    ensures { IfOk result (λ middle. middle_of middle ≡ left_at n) }
{
    let targets = if n > 0 {
        Vec::new(alloc)
    } else {
        vec![in alloc; target(0)]?
    };
    Ok(Middle { degree: n, targets })
}

/// To what the indices of the lengths below one are carried where the list is taken apart.
pub fn opened(alloc: Global, end: u8) -> Result<Vec<Middle>, AllocError>
    ensures { IfOk result (λ found. middles_of found.items ≡ map opened_at (range_with_len 0 end)) }
{
    let mut found = Vec::with_capacity(alloc, usize::from(end))?;
    for n in 0..end {
        found.push(opened_at(alloc, n)?)?;
    }
    Ok(found)
}

/// To what they are carried where the list leaves.
pub fn left(alloc: Global, end: u8) -> Result<Vec<Middle>, AllocError>
    ensures { IfOk result (λ found. middles_of found.items ≡ map left_at (range_with_len 0 end)) }
{
    let mut found = Vec::with_capacity(alloc, usize::from(end))?;
    for n in 0..end {
        found.push(left_at(alloc, n)?)?;
    }
    Ok(found)
}
