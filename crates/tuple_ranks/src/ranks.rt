// Positions of tuples from their numbers.
ghost use Rattle.std.specs.Prelude.{◌≡◌, ◌<◌, ◌≤◌, ◌+◌, ℕ, Some, min, slice_get, slice_index_or, IfOk, OnOk, IsErrOf};
ghost use Rattle.base_poly.specs.Base.{total};
ghost use Rattle.index_shift.specs.Tables.{fits, listed};
ghost use Rattle.tuple_ranks.specs.Columns.{below, table_by, up_to, standing, led_by, stands, place, degree_at};
ghost use Rattle.tuple_ranks.specs.Read.{lists_of};
ghost use Rattle.tuple_ranks.specs.Slots.{picked};
ghost use Rattle.tuple_ranks.specs.Spots.{AreSmall, AreLarge};

use crate::columns::{Column, columns_of, fitting, more, number_at};
use crate::slots::Slot;
use base_poly::IndexFault;
use smallvec::SmallVec;
use std::alloc::{AllocError, Global};
use std::marker::Model;

/// What is known of a context, to find the positions of its tuples.
#[derive(Drop)]
pub struct Ranks<'s> {
    pub degree: u8,
    pub columns: Vec<Column<'s>>,
    /// For each degree, and one more, how many tuples have a lower one.
    pub starts: SmallVec<u16, 8>,
}

impl<'s> Model for Ranks<'s> {
    ghost use Rattle.tuple_ranks.specs.Columns.{Table};

    ghost Value = { Table };

    ghost view = { λ r. record {
      degree = r.degree;
      columns = r.columns.items;
      starts = r.starts.items;
    } };
}

impl<'s> Ranks<'s> {
    /// Those of types whose indices have these degrees, component by component.
    ///
    /// `TooMany` where the context has more than 2000 indices of degree at most `d`.
    pub fn new(alloc: Global, sizes: &[&'s [u8]], d: u8) -> Result<Ranks<'s>, IndexFault>
        ensures is { IfOk result (λ ranks. ranks ≡ table_by (lists_of sizes.now) d) }
        ensures few { OnOk result (AreSmall (lists_of sizes.now) d) }
        ensures many { IsErrOf result IndexFault.TooMany → AreLarge (lists_of sizes.now) d }
    {
        let made = columns_of(alloc, sizes, d)?;
        let starts = starts(alloc, made.counts.as_slice(), d)?;
        Ok(Ranks {
            degree: d,
            columns: made.columns,
            starts,
        })
    }

    /// How many tuples there are up to a degree.
    pub fn up_to(&self, degree: u8) -> usize
        ensures { result ≡ up_to self.now degree }
    {
        usize::from(number_at(self.starts.as_slice(), 1 + usize::from(degree)))
    }

    /// The same for each degree from 0 on.
    pub fn counts(&self, alloc: Global) -> Result<Vec<usize>, AllocError>
        ensures { IfOk result (λ found. found.items ≡ listed (up_to self.now) 0 (1 + self.now.degree)) }
    {
        let mut found = Vec::with_capacity(alloc, usize::from(self.degree) + 1)?;
        for g in 0..u16::from(self.degree) + 1 {
            found.push(self.up_to(g as u8))?;
        }
        Ok(found)
    }

    /// The position of the tuple that the slots pick of these numbers; the number of all tuples where
    /// it has none.
    pub fn place(&self, slots: &[Slot], numbers: &[usize]) -> usize
        ensures { result ≡ place self.now (picked slots.now numbers.now) }
    {
        match stands(self.degree, &self.columns, slots, numbers) {
            Some((degree, before)) => {
                usize::from(number_at(self.starts.as_slice(), usize::from(degree)))
                    + usize::from(before)
            }
            None => self.up_to(self.degree),
        }
    }

    /// The degree of the tuple that the slots pick of these numbers; 0 where there is none.
    pub fn degree_at(&self, slots: &[Slot], numbers: &[usize]) -> u8
        ensures { result ≡ degree_at self.now (picked slots.now numbers.now) }
    {
        match stands(self.degree, &self.columns, slots, numbers) {
            Some((degree, _)) => degree,
            None => 0,
        }
    }
}

// For each degree, and one more, how many tuples have a lower one.
fn starts(alloc: Global, counts: &[u16], d: u8) -> Result<SmallVec<u16, 8>, IndexFault>
    ensures starts { IfOk result (λ found. found.items ≡ listed (below (λ g. slice_index_or counts.now g 0)) 0 (2 + d)) }
    ensures few { OnOk result (below (λ g. slice_index_or counts.now g 0) (1 + d) ≤ 2000) }
    ensures many { IsErrOf result IndexFault.TooMany → (g : ℕ) × (g ≤ d) × (2000 < below (λ g. slice_index_or counts.now g 0) (1 + g)) }
{
    let mut found = SmallVec::new(alloc);
    let mut low = 0;
    for g in 0..u16::from(d) + 1 {
        found.push(low)?;
        low = more(low, number_at(counts, usize::from(g)))?;
    }
    found.push(low)?;
    Ok(found)
}

// The degree of the tuple, and how many of this degree are before it, from its last index on.
fn stands(d: u8, columns: &[Column<'_>], slots: &[Slot], numbers: &[usize]) -> Option<(u8, u16)>
    ensures { result ≡ stands d columns.now (picked slots.now numbers.now) }
{
    if columns.len() != slots.len() {
        return None;
    }
    let mut state = (0, 0);
    let mut at = columns.len();
    while at > 0 {
        at -= 1;
        match led_by(d, &columns[at], slots[at].number(numbers), state) {
            Some(next) => state = next,
            None => return None,
        }
    }
    Some(state)
}

// The same with an index of the variable before the others.
fn led_by(d: u8, column: &Column<'_>, number: usize, behind: (u8, u16)) -> Option<(u8, u16)>
    ensures { result ≡ led_by d column.now number (slice_get column.now.sizes number) (Some behind) }
{
    match column.sizes.get(number) {
        Some(size) => {
            let degree = u16::from(*size) + u16::from(behind.0);
            let before = before(column.behind.as_slice(), degree, &column.sizes[..number]);
            standing(d, degree, u64::from(before) + u64::from(behind.1))
        }
        None => None,
    }
}

// How many tuples of exactly the degree `g` begin with one of these indices, where the numbers tell
// how many tuples behind have a degree. Where they are too many for a place, they may be more.
fn before(numbers: &[u16], g: u16, degrees: &[u8]) -> u32
    ensures { result ≡ min (total (fits (λ r. slice_index_or numbers.now r 0) g) degrees.now) 4294967295 }
{
    let mut sum: u32 = 0;
    for p in degrees {
        sum = sum.saturating_add(u32::from(fitting(numbers, g, u16::from(*p))));
    }
    sum
}

// A degree and a number that are not too great.
fn standing(d: u8, degree: u16, before: u64) -> Option<(u8, u16)>
    ensures { result ≡ standing d degree before }
{
    if u16::from(d) < degree {
        None
    } else if before < 65536 {
        Some((degree as u8, before as u16))
    } else {
        None
    }
}
