// Maps of contexts from numbers.
ghost use Rattle.std.specs.Prelude.{◌≡◌, ◌++◌, suc, fold, map, slice_index_or, IfOk, OnOk};
ghost use Rattle.index_shift.specs.Lift.{place_of, entry_of, one_row, rows, of_middle, begun, of_before, lifted};
ghost use Rattle.index_shift.specs.Read.{counts_of, middle_of, middles_of, table_at};

use crate::entry::Entry;
use smallvec::SmallVec;
use std::alloc::{AllocError, Global};

/// To what a tuple is carried: a tuple of the new types by its place, component by component, its
/// degree, and how often it counts.
#[derive(Clone, Copy)]
pub struct Target {
    pub place: u32,
    pub degree: u8,
    pub times: u64,
}

/// A tuple of the types that leave: its degree, and to what it is carried.
#[derive(Drop)]
pub struct Middle {
    pub degree: u8,
    pub targets: Vec<Target>,
}

/// What is known of the new context.
#[derive(Drop)]
pub struct Counts<'s> {
    /// The degrees of the tuples before the place, component by component.
    pub before: &'s [u8],
    /// For each degree, how many tuples behind the place have it.
    pub after: SmallVec<u16, 8>,
    /// For each degree, at which position the tuples of this degree begin that begin as the k-th
    /// before the place.
    pub first: Vec<SmallVec<u16, 8>>,
    /// For each degree, how many tuples are before the m-th of the new types, together with those
    /// behind it.
    pub second: Vec<SmallVec<u16, 8>>,
}

/// The map of a context from that of the types that change.
pub fn lift(
    alloc: Global,
    counts: &Counts<'_>,
    middles: &[Middle],
    d: u8,
) -> Result<Vec<Entry>, AllocError>
    ensures { IfOk result (λ found. found.items ≡ lifted (counts_of counts.now) (middles_of middles.now) d) }
{
    let mut found = Vec::new(alloc);
    let mut from = 0;
    for g in 0..u16::from(d) + 1 {
        append_degree(&mut found, &mut from, counts, g, middles)?;
    }
    Ok(found)
}

// Appends the entries of all tuples of degree `g`.
fn append_degree(
    found: &mut Vec<Entry>,
    from: &mut u32,
    counts: &Counts<'_>,
    g: u16,
    middles: &[Middle],
) -> Result<(), AllocError>
    ensures { OnOk result ((found.new.items, from.new)
        ≡ of_before (counts_of counts.now) (middles_of middles.now) g 0 (counts_of counts.now).before (found.old.items, from.old)) }
{
    for (k, p) in counts.before.iter().enumerate() {
        append_begun(found, from, counts, g, u16::from(*p), k, middles)?;
    }
    Ok(())
}

// Appends those of the tuples that begin as the k-th before the place, which has degree `p`.
fn append_begun(
    found: &mut Vec<Entry>,
    from: &mut u32,
    counts: &Counts<'_>,
    g: u16,
    p: u16,
    k: usize,
    middles: &[Middle],
) -> Result<(), AllocError>
    ensures { OnOk result ((found.new.items, from.new)
        ≡ begun (counts_of counts.now) (middles_of middles.now) g k p (found.old.items, from.old)) }
{
    if g < p {
        Ok(())
    } else {
        append_middles(found, from, counts, g - p, p, k, middles)
    }
}

// Appends those of all middles, where so much of the degree is left.
fn append_middles(
    found: &mut Vec<Entry>,
    from: &mut u32,
    counts: &Counts<'_>,
    left: u16,
    p: u16,
    k: usize,
    middles: &[Middle],
) -> Result<(), AllocError>
    ensures { OnOk result ((found.new.items, from.new)
        ≡ fold (of_middle (counts_of counts.now) left p k) (found.old.items, from.old) (middles_of middles.now)) }
{
    for middle in middles {
        append_middle(found, from, counts, left, p, k, middle)?;
    }
    Ok(())
}

// Appends those of this middle, where its degree is not too high.
fn append_middle(
    found: &mut Vec<Entry>,
    from: &mut u32,
    counts: &Counts<'_>,
    left: u16,
    p: u16,
    k: usize,
    middle: &Middle,
) -> Result<(), AllocError>
    ensures { OnOk result ((found.new.items, from.new)
        ≡ of_middle (counts_of counts.now) left p k (found.old.items, from.old) (middle_of middle.now)) }
{
    let degree = u16::from(middle.degree);
    if left < degree {
        Ok(())
    } else {
        append_rows(found, from, counts, p, k, left - degree, &middle.targets)
    }
}

// Appends those of the tuples of degree `r` behind.
fn append_rows(
    found: &mut Vec<Entry>,
    from: &mut u32,
    counts: &Counts<'_>,
    p: u16,
    k: usize,
    r: u16,
    targets: &[Target],
) -> Result<(), AllocError>
    ensures { OnOk result ((found.new.items, from.new)
        ≡ rows (one_row (counts_of counts.now) p k r targets.now) 0 ((counts_of counts.now).after r) (found.old.items, from.old)) }
{
    for y in 0..number_at(counts.after.as_slice(), r as usize) {
        append_row(found, *from, counts, p, k, r, y, targets)?;
        *from = next(*from)?;
    }
    Ok(())
}

// Appends an entry for each target.
fn append_row(
    found: &mut Vec<Entry>,
    from: u32,
    counts: &Counts<'_>,
    p: u16,
    k: usize,
    r: u16,
    y: u16,
    targets: &[Target],
) -> Result<(), AllocError>
    ensures { OnOk result (found.new.items ≡ found.old.items ++ map (entry_of (counts_of counts.now) p k r from y) targets.now) }
{
    for target in targets {
        let to = place_of(counts, p, k, r, y, *target);
        found.push(Entry {
            from,
            to,
            times: target.times,
        })?;
    }
    Ok(())
}

// The position of the target before the y-th tuple of degree `r`.
fn place_of(counts: &Counts<'_>, p: u16, k: usize, r: u16, y: u16, target: Target) -> u32
    ensures { result ≡ place_of (counts_of counts.now) p k r y target }
{
    let inner = u32::from(target.degree) + u32::from(r);
    let first = table_at(&counts.first, (u32::from(p) + inner) as usize, k);
    let second = table_at(&counts.second, inner as usize, target.place as usize);
    u32::from(first) + (u32::from(second) + u32::from(y))
}

// The number in the row and the column, 0 past the end.
fn table_at(table: &[SmallVec<u16, 8>], row: usize, column: usize) -> u16
    ensures { result ≡ table_at table.now row column }
{
    match table.get(row) {
        Some(numbers) => number_at(numbers.as_slice(), column),
        None => 0,
    }
}

/// The number at the place, 0 past the end.
pub fn number_at(numbers: &[u16], place: usize) -> u16
    ensures { result ≡ slice_index_or numbers.now place 0 }
{
    match numbers.get(place) {
        Some(number) => *number,
        None => 0,
    }
}

// The next position. Past 32 bits memory is wanting.
fn next(from: u32) -> Result<u32, AllocError>
    ensures { IfOk result (λ next. next ≡ suc from) }
{
    match from.checked_add(1) {
        Some(next) => Ok(next),
        None => Err(AllocError),
    }
}
