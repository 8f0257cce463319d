//! A row of any fractions.

ghost use Rattle.std.specs.Prelude.{◌≡◌, ◌≢◌, ◌<◌, ◌<ℤ◌, ◌^◌, ◌++◌, [], ℕ, pos, neg_ℤ, IfOk, IfErr, OnOk, OnErr, MatchOption};
ghost use Rattle.frac128.specs.Values.{numerator, denominator, IsQuotient};
ghost use Rattle.frac128.specs.Nought.{nought};
ghost use Rattle.simplex_rows.specs.Entries.{Entries, at, columns_of, IsNextColumn, IsSparse, EndsBefore, Adds, IsLess, LessLeaves};
ghost use Rattle.simplex_rows.specs.Entries.{QuotientLeaves};
ghost use Rattle.simplex_rows.specs.Merging.{put, Merges, MergeLeaves};
ghost use Rattle.simplex_rows.specs.Sweeping.{AddsWhole, IsSwept, SweepLeaves};

use crate::fault::RowFault;
use crate::numbers::{divide, is_one, less};
use crate::rest::Rest;
use frac128::Frac;
use std::alloc::{AllocError, Global};
use std::marker::Model;
use std::mem;

/// Up to so many fractions are put one by one, and more in one piece.
const FEW: usize = 3;

/// Up to so many columns are looked through one by one, and more are searched.
const SHORT: usize = 8;

/// A row of fractions. It keeps those that are not 0, each behind its column, in order of column.
#[derive(Debug, Drop)]
pub(crate) struct WideRow {
    entries: Vec<(u32, Frac)>,
}

impl Model for WideRow {
    ghost Value = { Entries };

    ghost view = { λ r. r.entries.items };

    ghost invariant = { λ r. IsSparse r.entries.items };
}

impl WideRow {
    /// The row in which each fraction is 0.
    pub(crate) fn new(alloc: Global) -> WideRow
        ensures { result ≡ [] }
    {
        WideRow {
            entries: Vec::new(alloc),
        }
    }

    /// The row in which each fraction is 0, with room for so many that are not.
    pub(crate) fn with_capacity(alloc: Global, capacity: usize) -> Result<WideRow, AllocError>
        ensures { IfOk result (λ row. row ≡ []) }
    {
        Ok(WideRow {
            entries: Vec::with_capacity(alloc, capacity)?,
        })
    }

    /// The fractions that are not 0, each behind its column, in order of column.
    pub(crate) fn entries(&self) -> &[(u32, Frac)]
        ensures all { result.now ≡ self.now }
        ensures sparse { IsSparse self.now }
    {
        &self.entries
    }

    /// The fraction at a column.
    pub(crate) fn at(&self, column: u32) -> Frac
        ensures num { numerator result ≡ numerator (at column self.now) }
        ensures den { denominator result ≡ denominator (at column self.now) }
    {
        if self.entries.len() <= SHORT {
            look_through(&self.entries, column)
        } else {
            self.search(column)
        }
    }

    /// The fraction at a column of a long row.
    fn search(&self, column: u32) -> Frac
        ensures num { numerator result ≡ numerator (at column self.now) }
        ensures den { denominator result ≡ denominator (at column self.now) }
    {
        match self.entries.binary_search_by_key(&column, |entry| entry.0) {
            Ok(place) => self.entries[place].1,
            Err(_) => Frac::zero(),
        }
    }

    /// The first column from `from` on at which the fraction is not 0.
    pub(crate) fn next_column(&self, from: u32) -> Option<u32>
        ensures { IsNextColumn from self.now result }
    {
        let place = self.entries.partition_point(|entry| entry.0 < from);
        if place < self.entries.len() {
            Some(self.entries[place].0)
        } else {
            None
        }
    }

    /// Makes `all` the columns at which the fraction is not 0, in order.
    pub(crate) fn columns(&self, all: &mut Vec<u32>) -> Result<(), AllocError>
        ensures columns { OnOk result (all.new.items ≡ columns_of self.now) }
        ensures sparse { IsSparse self.now }
    {
        all.clear();
        for entry in &self.entries {
            all.push(entry.0)?;
        }
        Ok(())
    }

    /// The fraction at `column` over that at `by`, or None where it leaves the range.
    pub(crate) fn ratio(&self, column: u32, by: u32) -> Option<Frac>
        requires { pos 0 <ℤ numerator (at by self.now) }
        ensures { MatchOption result (QuotientLeaves (at column self.now) (at by self.now))
            (IsQuotient (at column self.now) (at by self.now)) }
    {
        self.at(column).div(&self.at(by))
    }

    /// Adds a whole number at a column after the others, unless it is `-2^127`, which no fraction is.
    pub(crate) fn push_whole(&mut self, column: u32, n: i128) -> Result<(), RowFault>
        requires { EndsBefore column self.old }
        ensures added { OnOk result (AddsWhole column n self.old self.new) }
        ensures before { (c : ℕ) → column < c → OnOk result (EndsBefore c self.new) }
        ensures leaves { (c : ℕ) → result ≡ Err (RowFault.Leaves c) → (c ≡ column) × (n ≡ neg_ℤ (pos (2 ^ 127))) }
    {
        match Frac::whole(n) {
            Some(number) => match self.push(column, number) {
                Ok(()) => Ok(()),
                Err(_) => Err(RowFault::NoMemory),
            },
            None => Err(RowFault::Leaves { column }),
        }
    }

    /// Adds a fraction at a column after the others.
    pub(crate) fn push(&mut self, column: u32, number: Frac) -> Result<(), AllocError>
        requires { EndsBefore column self.old }
        ensures added { OnOk result (Adds column number self.old self.new) }
        ensures before { (c : ℕ) → column < c → OnOk result (EndsBefore c self.new) }
        ensures kept { OnErr result (self.new ≡ self.old) }
    {
        self.put(column, number)
    }

    /// Each fraction over `by`, or a column at which the quotient leaves the range. Takes no memory.
    pub(crate) fn over(self, by: &Frac) -> Result<WideRow, u32>
        requires { numerator by.now ≢ pos 0 }
        ensures each { IfOk result (λ r. (c : ℕ) → IsQuotient (at c self) by.now (at c r)) }
        ensures leaves { (c : ℕ) → result ≡ Err c → QuotientLeaves (at c self) by.now }
    {
        if is_one(by) {
            return Ok(self);
        }
        let WideRow { mut entries } = self;
        match divide(&mut entries, by) {
            Ok(()) => Ok(WideRow { entries }),
            Err(column) => Err(column),
        }
    }

    /// Each fraction over that at a column, or a column at which the quotient leaves the range. Takes no memory.
    pub(crate) fn over_its(self, column: u32) -> Result<WideRow, RowFault>
        requires { pos 0 <ℤ numerator (at column self) }
        ensures each { IfOk result (λ r. (c : ℕ) → IsQuotient (at c self) (at column self) (at c r)) }
        ensures leaves { (c : ℕ) → result ≡ Err (RowFault.Leaves c) → QuotientLeaves (at c self) (at column self) }
    {
        let number = self.at(column);
        match self.over(&number) {
            Ok(row) => Ok(row),
            Err(column) => Err(RowFault::Leaves { column }),
        }
    }

    /// Takes the row's fraction at a column times the lead from it. A row that has none there stays untouched.
    pub(crate) fn sweep(
        &mut self,
        column: u32,
        lead: &WideRow,
        spare: &mut WideRow,
    ) -> Result<(), RowFault>
        ensures swept { OnOk result (IsSwept column lead.now self.old self.new) }
        ensures leaves { (c : ℕ) → result ≡ Err (RowFault.Leaves c) → SweepLeaves column c lead.now self.old }
        ensures touched { (c : ℕ) → result ≡ Err (RowFault.Leaves c) → numerator (at column self.old) ≢ pos 0 }
    {
        let times = self.at(column);
        if times.num() == 0 {
            return Ok(());
        }
        self.subtract(&times, lead, spare)
    }

    /// Takes `times` times the lead from the row. The new row is made in `spare`, whose memory it takes;
    /// `spare` gets the memory of the old one.
    pub(crate) fn subtract(
        &mut self,
        times: &Frac,
        lead: &WideRow,
        spare: &mut WideRow,
    ) -> Result<(), RowFault>
        ensures each { OnOk result ((c : ℕ) → IsLess (at c self.old) times.now (at c lead.now) (at c self.new)) }
        ensures leaves { (c : ℕ) → result ≡ Err (RowFault.Leaves c) → LessLeaves (at c self.old) times.now (at c lead.now) }
        ensures kept { OnErr result (self.new ≡ self.old) }
    {
        spare.clear();
        spare.entries.reserve(self.entries.len())?;
        spare.put_difference(self.rest(), times, lead.rest())?;
        mem::swap(self, spare);
        Ok(())
    }

    /// The whole row, for a walk.
    fn rest(&self) -> Rest<'_>
        ensures all { result ≡ self.now }
        ensures sparse { IsSparse self.now }
    {
        Rest::new(&self.entries)
    }

    /// Lets go of all fractions, and keeps the memory.
    fn clear(&mut self)
        ensures { self.new ≡ [] }
    {
        self.entries.clear();
    }

    /// Puts a fraction after the others, unless it is 0.
    fn put(&mut self, column: u32, number: Frac) -> Result<(), AllocError>
        requires { EndsBefore column self.old }
        ensures added { OnOk result (self.new ≡ self.old ++ put column number []) }
        ensures kept { OnErr result (self.new ≡ self.old) }
    {
        if number.num() == 0 {
            return Ok(());
        }
        self.entries.push((column, number))?;
        Ok(())
    }

    /// Puts what is left of another row after the others.
    #[inline(always)]
    fn put_all(&mut self, rest: Rest<'_>) -> Result<(), AllocError>
        requires { IsSparse (self.old ++ rest) }
        ensures added { OnOk result (self.new ≡ self.old ++ rest.entry) }
    {
        let count = rest.entries().len();
        if count == 0 {
            Ok(())
        } else if count <= FEW {
            self.put_each(rest)
        } else {
            self.put_slices(rest)
        }
    }

    /// The same one by one, which is quicker for a few.
    #[inline(never)]
    fn put_each(&mut self, rest: Rest<'_>) -> Result<(), AllocError>
        requires { IsSparse (self.old ++ rest) }
        ensures added { OnOk result (self.new ≡ self.old ++ rest.entry) }
    {
        let mut rest = rest;
        while let Some((column, number)) = rest.take_first() {
            self.put(column, number)?;
        }
        Ok(())
    }

    /// The same in one piece, which is quicker for many.
    #[inline(never)]
    fn put_slices(&mut self, rest: Rest<'_>) -> Result<(), AllocError>
        requires { IsSparse (self.old ++ rest) }
        ensures added { OnOk result (self.new ≡ self.old ++ rest.entry) }
    {
        self.entries.extend_from_slice(rest.entries())
    }

    /// Puts a row less `times` times a lead, column by column.
    fn put_difference(
        &mut self,
        row: Rest<'_>,
        times: &Frac,
        lead: Rest<'_>,
    ) -> Result<(), RowFault>
        requires empty { self.old ≡ [] }
        requires row { IsSparse row }
        requires lead { IsSparse lead }
        ensures merged { OnOk result (Merges times.now row.entry lead.entry self.new) }
        ensures leaves { (c : ℕ) → result ≡ Err (RowFault.Leaves c) → MergeLeaves times.now row.entry lead.entry c }
    {
        let mut row = row;
        let mut lead = lead;
        while let Some((column, q)) = lead.take_first() {
            self.put_all(row.take_before(column))?;
            let x = row.take(column);
            match less(&x, times, &q) {
                Some(number) => self.put(column, number)?,
                None => return Err(RowFault::Leaves { column }),
            }
        }
        self.put_all(row)?;
        Ok(())
    }
}

/// The fraction at a column, which is looked for from the first on.
fn look_through(entries: &[(u32, Frac)], column: u32) -> Frac
    ensures num { numerator result ≡ numerator (at column entries.now) }
    ensures den { denominator result ≡ denominator (at column entries.now) }
{
    for entry in entries {
        if entry.0 == column {
            return entry.1;
        }
    }
    Frac::zero()
}
