// Tables of how many tuples there are.
ghost use Rattle.std.specs.Prelude.{◌≡◌, ◌<◌, ◌≤◌, ◌+◌, ◌++◌, ℕ, List, map, length, slice_index_or, IfOk, OnOk, IsErrOf};
ghost use Rattle.raml_syntax.specs.Tree.{Type'};
ghost use Rattle.base_poly.specs.Indices.{index_list};
ghost use Rattle.base_poly.specs.Base.{total};
ghost use Rattle.index_shift.specs.Read.{counts_of, items_of};
ghost use Rattle.index_shift.specs.Tables.{how_many, fits, sums, listed, lows, AreTables, AreDegrees};

use crate::fault::MapFault;
use crate::lift::{Counts, number_at};
use smallvec::SmallVec;
use std::alloc::Global;

/// What is known of a context, from the degrees of the tuples before a place, of the new types and
/// behind the place.
///
/// `TooMany` where the context has more than `most` indices.
pub fn counts<'s>(
    alloc: Global,
    before: &'s [u8],
    new: &[u8],
    after: &[u8],
    d: u8,
    most: u16,
) -> Result<Counts<'s>, MapFault>
    ensures tables { IfOk result (λ counts. AreTables before.now new.now after.now d (counts_of counts)) }
    ensures few { OnOk result ((As Ts Bs : List Type') → AreDegrees As Ts Bs d before.now new.now after.now →
        length (index_list (As ++ (Ts ++ Bs)) d) ≤ most) }
    ensures many { IsErrOf result MapFault.TooMany → (As Ts Bs : List Type') → AreDegrees As Ts Bs d before.now new.now after.now →
        most < length (index_list (As ++ (Ts ++ Bs)) d) }
{
    let after = tally(alloc, after, d, most)?;
    let inner = rows(alloc, after.as_slice(), new, d, most)?;
    let first = running(alloc, inner.1.as_slice(), before, d, most)?;
    Ok(Counts {
        before,
        after,
        first,
        second: inner.0,
    })
}

// How often each degree stands in the list.
fn tally(alloc: Global, degrees: &[u8], d: u8, most: u16) -> Result<SmallVec<u16, 8>, MapFault>
    ensures all { IfOk result (λ found. found.items ≡ listed (λ r. how_many r degrees.now) 0 (1 + d)) }
    ensures many { IsErrOf result MapFault.TooMany → (r : ℕ) × (r ≤ d) × (most < how_many r degrees.now) }
{
    let mut found = SmallVec::new(alloc);
    for r in 0..u16::from(d) + 1 {
        found.push(count(degrees, r, most)?)?;
    }
    Ok(found)
}

// How often the degree stands in the list.
fn count(degrees: &[u8], r: u16, most: u16) -> Result<u16, MapFault>
    ensures all { IfOk result (λ n. n ≡ how_many r degrees.now) }
    ensures many { IsErrOf result MapFault.TooMany → most < how_many r degrees.now }
{
    let mut n = 0;
    for g in degrees {
        if u16::from(*g) == r {
            n = more(n, 1, most)?;
        }
    }
    Ok(n)
}

// For each degree a row of sums, and its total.
fn rows(
    alloc: Global,
    numbers: &[u16],
    degrees: &[u8],
    d: u8,
    most: u16,
) -> Result<(Vec<SmallVec<u16, 8>>, SmallVec<u16, 8>), MapFault>
    ensures table { IfOk result
        (λ found. map items_of found.0.items ≡ listed (λ g. sums (fits (λ r. slice_index_or numbers.now r 0) g) 0 degrees.now) 0 (1 + d)) }
    ensures totals { IfOk result
        (λ found. found.1.items ≡ listed (λ g. total (fits (λ r. slice_index_or numbers.now r 0) g) degrees.now) 0 (1 + d)) }
    ensures many { IsErrOf result MapFault.TooMany → (g : ℕ) × (g ≤ d)
        × (most < total (fits (λ r. slice_index_or numbers.now r 0) g) degrees.now) }
{
    let mut table = Vec::with_capacity(alloc, usize::from(d) + 1)?;
    let mut totals = SmallVec::new(alloc);
    for g in 0..u16::from(d) + 1 {
        let found = sums(alloc, numbers, g, degrees, 0, most)?;
        table.push(found.0)?;
        totals.push(found.1)?;
    }
    Ok((table, totals))
}

// For each degree a row of sums, from the total of those before it on.
fn running(
    alloc: Global,
    numbers: &[u16],
    degrees: &[u8],
    d: u8,
    most: u16,
) -> Result<Vec<SmallVec<u16, 8>>, MapFault>
    ensures table { IfOk result (λ found. map items_of found.items
        ≡ listed (λ h. sums (fits (λ r. slice_index_or numbers.now r 0) h)
        (lows (λ r. slice_index_or numbers.now r 0) degrees.now h) degrees.now) 0 (1 + d)) }
    ensures few { OnOk result (lows (λ r. slice_index_or numbers.now r 0) degrees.now (1 + d) ≤ most) }
    ensures many { IsErrOf result MapFault.TooMany → (h : ℕ) × (h ≤ d)
        × (most < lows (λ r. slice_index_or numbers.now r 0) degrees.now (1 + h)) }
{
    let mut table = Vec::with_capacity(alloc, usize::from(d) + 1)?;
    let mut low = 0;
    for h in 0..u16::from(d) + 1 {
        let found = sums(alloc, numbers, h, degrees, low, most)?;
        table.push(found.0)?;
        low = found.1;
    }
    Ok(table)
}

// For each degree the sum of what comes before it, from a start on, and the sum of all.
fn sums(
    alloc: Global,
    numbers: &[u16],
    h: u16,
    degrees: &[u8],
    start: u16,
    most: u16,
) -> Result<(SmallVec<u16, 8>, u16), MapFault>
    requires { start ≤ most }
    ensures row { IfOk result (λ found. found.0.items ≡ sums (fits (λ r. slice_index_or numbers.now r 0) h) start degrees.now) }
    ensures all { IfOk result (λ found. found.1 ≡ start + total (fits (λ r. slice_index_or numbers.now r 0) h) degrees.now) }
    ensures few { IfOk result (λ found. found.1 ≤ most) }
    ensures many { IsErrOf result MapFault.TooMany → most < start + total (fits (λ r. slice_index_or numbers.now r 0) h) degrees.now }
{
    let mut row = SmallVec::with_capacity(alloc, degrees.len())?;
    let mut sum = start;
    for p in degrees {
        row.push(sum)?;
        sum = more(sum, fitting(numbers, h, u16::from(*p)), most)?;
    }
    Ok((row, sum))
}

// The number for what is left of `h` behind `p`.
fn fitting(numbers: &[u16], h: u16, p: u16) -> u16
    ensures { result ≡ fits (λ r. slice_index_or numbers.now r 0) h p }
{
    if h < p {
        0
    } else {
        number_at(numbers, (h - p) as usize)
    }
}

// The sum, where it is not too great.
fn more(sum: u16, n: u16, most: u16) -> Result<u16, MapFault>
    ensures exact { IfOk result (λ all. all ≡ sum + n) }
    ensures few { OnOk result (sum + n ≤ most) }
    ensures many { IsErrOf result MapFault.TooMany → most < sum + n }
{
    match sum.checked_add(n) {
        Some(all) if all <= most => Ok(all),
        _ => Err(MapFault::TooMany),
    }
}
