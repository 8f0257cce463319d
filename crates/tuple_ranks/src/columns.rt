// How many tuples stand behind each variable of a context.
ghost use Rattle.std.specs.Prelude.{◌≡◌, ◌<◌, ◌≤◌, ◌+◌, ℕ, [], ◌∷◌, map, slice_index_or, IfOk, OnOk, IsErrOf};
ghost use Rattle.raml_syntax.specs.Read.{ty_of};
ghost use Rattle.base_poly.specs.Base.{total};
ghost use Rattle.base_poly.specs.Indices.{tuples_up_to};
ghost use Rattle.base_poly.specs.Plain.{degrees};
ghost use Rattle.index_shift.specs.Tables.{fits, listed};
ghost use Rattle.tuple_ranks.specs.Columns.{count, columns};
ghost use Rattle.tuple_ranks.specs.Read.{lists_of};
ghost use Rattle.tuple_ranks.specs.Spots.{IsLarge, AreLarge};

use base_poly::{IndexFault, degrees};
use raml_syntax::Ty;
use smallvec::SmallVec;
use std::alloc::{AllocError, Global};
use std::marker::Model;
use std::slice;

/// The most indices that a context may have.
pub const MOST: u16 = 2000;

/// Of a variable the degrees of its indices, component by component, and for each degree how many
/// tuples of the variables behind it have it.
#[derive(Drop)]
pub struct Column<'s> {
    pub sizes: &'s [u8],
    pub behind: SmallVec<u16, 8>,
}

impl<'s> Model for Column<'s> {
    ghost use Rattle.tuple_ranks.specs.Columns.{Column};

    ghost Value = { Column };

    ghost view = { λ c. record { sizes = c.sizes.now; behind = c.behind.items } };
}

/// The variables of a context, and for each degree how many tuples have it.
#[derive(Drop)]
pub struct Columns<'s> {
    pub columns: Vec<Column<'s>>,
    pub counts: SmallVec<u16, 8>,
}

/// The columns of a context whose types' indices have these degrees, component by component.
///
/// `TooMany` where it has more than 2000 indices of degree at most `d`.
#[cycle(columns_of)]
pub fn columns_of<'s>(alloc: Global, sizes: &[&'s [u8]], d: u8) -> Result<Columns<'s>, IndexFault>
    ensures columns { IfOk result (λ made. made.columns.items ≡ columns d (lists_of sizes.now)) }
    ensures counts { IfOk result (λ made. made.counts.items ≡ listed (count (lists_of sizes.now)) 0 (1 + d)) }
    ensures many { IsErrOf result IndexFault.TooMany → AreLarge (lists_of sizes.now) d }
{
    match sizes {
        [] => Ok(none(alloc, d)?),
        [first, rest @ ..] => with_first(alloc, *first, rest, d),
    }
}

// Those of a variable and of those behind it.
#[cycle(columns_of)]
fn with_first<'s>(
    alloc: Global,
    first: &'s [u8],
    rest: &[&'s [u8]],
    d: u8,
) -> Result<Columns<'s>, IndexFault>
    ensures columns { IfOk result (λ made. made.columns.items ≡ columns d (first.now ∷ lists_of rest.now)) }
    ensures counts { IfOk result (λ made. made.counts.items ≡ listed (count (first.now ∷ lists_of rest.now)) 0 (1 + d)) }
    ensures many { IsErrOf result IndexFault.TooMany → AreLarge (first.now ∷ lists_of rest.now) d }
{
    let behind = columns_of(alloc, rest, d)?;
    let counts = totals(alloc, behind.counts.as_slice(), first, d)?;
    let column = Column {
        sizes: first,
        behind: behind.counts,
    };
    Ok(Columns {
        columns: led(column, behind.columns)?,
        counts,
    })
}

// The column before the others.
fn led<'s>(column: Column<'s>, others: Vec<Column<'s>>) -> Result<Vec<Column<'s>>, AllocError>
    ensures { IfOk result (λ columns. columns.items ≡ column.entry ∷ others.entry.items) }
{
    let mut columns = others;
    columns.insert(0, column)?;
    Ok(columns)
}

// No variable: the one tuple has degree 0.
fn none<'s>(alloc: Global, d: u8) -> Result<Columns<'s>, AllocError>
    ensures columns { IfOk result (λ made. made.columns.items ≡ columns d []) }
    ensures counts { IfOk result (λ made. made.counts.items ≡ listed (count []) 0 (1 + d)) }
{
    let mut counts = SmallVec::new(alloc);
    for g in 0..u16::from(d) + 1 {
        counts.push(alone(g))?;
    }
    Ok(Columns {
        columns: Vec::new(alloc),
        counts,
    })
}

// How many tuples without an index have the degree.
#[tactic(auto, using(crate::proofs::Made::none_higher))]
fn alone(g: u16) -> u16
    ensures { result ≡ count [] g }
{
    if g > 0 { 0 } else { 1 }
}

/// The degrees of the indices of the type, component by component.
pub fn sizes_of(alloc: Global, ty: &Ty, d: u8) -> Result<Vec<u8>, IndexFault>
    ensures all { IfOk result (λ found. found.items ≡ map degrees (tuples_up_to (ty_of ty.now ∷ []) d)) }
    ensures many { IsErrOf result IndexFault.TooMany → IsLarge (ty_of ty.now ∷ []) d }
{
    degrees(alloc, slice::from_ref(ty), d, usize::from(MOST))
}

// For each degree how many tuples begin with one of these indices, where the numbers tell how many
// tuples behind have a degree.
fn totals(
    alloc: Global,
    numbers: &[u16],
    degrees: &[u8],
    d: u8,
) -> Result<SmallVec<u16, 8>, IndexFault>
    ensures all { IfOk result
        (λ found. found.items ≡ listed (λ g. total (fits (λ r. slice_index_or numbers.now r 0) g) degrees.now) 0 (1 + d)) }
    ensures many { IsErrOf result IndexFault.TooMany → (g : ℕ) × (g ≤ d)
        × (2000 < total (fits (λ r. slice_index_or numbers.now r 0) g) degrees.now) }
{
    let mut found = SmallVec::new(alloc);
    for g in 0..u16::from(d) + 1 {
        found.push(total(numbers, g, degrees)?)?;
    }
    Ok(found)
}

// How many of exactly the degree `g`.
fn total(numbers: &[u16], g: u16, degrees: &[u8]) -> Result<u16, IndexFault>
    ensures all { IfOk result (λ all. all ≡ total (fits (λ r. slice_index_or numbers.now r 0) g) degrees.now) }
    ensures many { IsErrOf result IndexFault.TooMany → 2000 < total (fits (λ r. slice_index_or numbers.now r 0) g) degrees.now }
{
    let mut sum = 0;
    for p in degrees {
        sum = more(sum, fitting(numbers, g, u16::from(*p)))?;
    }
    Ok(sum)
}

/// The number for what is left of `g` behind `p`.
pub fn fitting(numbers: &[u16], g: u16, p: u16) -> u16
    ensures { result ≡ fits (λ r. slice_index_or numbers.now r 0) g p }
{
    if g < p {
        0
    } else {
        number_at(numbers, (g - p) as usize)
    }
}

/// The number at the place, 0 past the end.
pub fn number_at(numbers: &[u16], place: usize) -> u16
    ensures { result ≡ slice_index_or numbers.now place 0 }
{
    match numbers.get(place) {
        Some(number) => *number,
        None => 0,
    }
}

/// The sum, where it is not too great.
pub fn more(sum: u16, n: u16) -> Result<u16, IndexFault>
    ensures exact { IfOk result (λ all. all ≡ sum + n) }
    ensures few { OnOk result (sum + n ≤ 2000) }
    ensures many { IsErrOf result IndexFault.TooMany → 2000 < sum + n }
{
    match sum.checked_add(n) {
        Some(all) if all <= MOST => Ok(all),
        _ => Err(IndexFault::TooMany),
    }
}
