//! A row.

ghost use Rattle.std.specs.Prelude.{◌≡◌, ◌≢◌, ◌<◌, ◌<ℤ◌, ◌^◌, [], ℕ, pos, neg_ℤ, IfOk, OnOk, MatchOption, true, false};
ghost use Rattle.std.specs.Ordering.{int_cmp};
ghost use Rattle.frac128.specs.Values.{numerator, denominator, IsQuotient};
ghost use Rattle.simplex_rows.specs.Entries.{Entries, at, columns_of, IsNextColumn, IsSparse, EndsBefore, QuotientLeaves};
ghost use Rattle.simplex_rows.specs.Forms.{entries_of};
ghost use Rattle.simplex_rows.specs.Sweeping.{AddsWhole, IsSwept, SweepLeaves, SameFractions};

use crate::fault::RowFault;
use crate::few::FewRow;
use crate::narrow::narrowed;
use crate::scratch::RowScratch;
use crate::short::ShortNumbers;
use crate::wide::WideRow;
use frac128::Frac;
use std::alloc::{AllocError, Global};
use std::cmp::Ordering;
use std::marker::Model;

/// The fractions of a row.
#[derive(Debug, Drop)]
pub(crate) enum Numbers {
    /// Whole numbers of 63 bits over one denominator, in which nothing ever leaves the range.
    Short(ShortNumbers),
    /// Any fractions.
    Wide(WideRow),
}

/// A row of fractions. It keeps those that are not 0, each behind its column, in order of column; and of many of
/// few bits one number for each column.
#[derive(Debug, Drop)]
pub struct FracRow {
    alloc: Global,
    numbers: Numbers,
}

impl Model for FracRow {
    ghost Value = { Entries };

    ghost view = { λ r. entries_of r.numbers };
}

impl FracRow {
    /// The row in which each fraction is 0.
    pub fn new(alloc: Global) -> FracRow
        ensures { result ≡ [] }
    {
        FracRow {
            alloc,
            numbers: Numbers::Short(ShortNumbers::Few(FewRow::new(alloc))),
        }
    }

    /// The row in which each fraction is 0, with room for so many that are not.
    pub fn with_capacity(alloc: Global, capacity: usize) -> Result<FracRow, AllocError>
        ensures { IfOk result (λ row. row ≡ []) }
    {
        let row = FewRow::with_capacity(alloc, capacity)?;
        Ok(FracRow {
            alloc,
            numbers: Numbers::Short(ShortNumbers::Few(row)),
        })
    }

    /// How many numbers it keeps.
    pub fn kept(&self) -> usize {
        match &self.numbers {
            Numbers::Short(row) => row.kept(),
            Numbers::Wide(row) => row.entries().len(),
        }
    }

    /// Makes `all` the columns at which the fraction is not 0, in order.
    pub fn columns(&self, all: &mut Vec<u32>) -> Result<(), AllocError>
        ensures columns { OnOk result (all.new.items ≡ columns_of self.now) }
        ensures sparse { IsSparse self.now }
    {
        match &self.numbers {
            Numbers::Short(row) => row.columns(all),
            Numbers::Wide(row) => row.columns(all),
        }
    }

    /// The fraction at a column.
    pub fn at(&self, column: u32) -> Frac
        ensures num { numerator result ≡ numerator (at column self.now) }
        ensures den { denominator result ≡ denominator (at column self.now) }
    {
        match &self.numbers {
            Numbers::Short(row) => row.at(column),
            Numbers::Wide(row) => row.at(column),
        }
    }

    /// How the fraction at a column compares with 0.
    pub fn sign_at(&self, column: u32) -> Ordering
        ensures { result ≡ int_cmp (numerator (at column self.now)) (pos 0) }
    {
        match &self.numbers {
            Numbers::Short(row) => row.sign_at(column),
            Numbers::Wide(row) => row.at(column).num().cmp(&0),
        }
    }

    /// The fraction at `column` over that at `by`, or None where it leaves the range.
    pub fn ratio(&self, column: u32, by: u32) -> Option<Frac>
        requires { pos 0 <ℤ numerator (at by self.now) }
        ensures { MatchOption result (QuotientLeaves (at column self.now) (at by self.now))
            (IsQuotient (at column self.now) (at by self.now)) }
    {
        match &self.numbers {
            Numbers::Short(row) => Some(row.ratio(column, by)),
            Numbers::Wide(row) => row.ratio(column, by),
        }
    }

    /// The first column from `from` on at which the fraction is not 0.
    pub fn next_column(&self, from: u32) -> Option<u32>
        ensures { IsNextColumn from self.now result }
    {
        match &self.numbers {
            Numbers::Short(row) => row.next_column(from),
            Numbers::Wide(row) => row.next_column(from),
        }
    }

    /// Adds a whole number at a column after the others, unless it is `-2^127`, which no fraction is. A 0 stores
    /// nothing.
    pub fn push_whole(&mut self, column: u32, n: i128) -> Result<(), RowFault>
        requires { EndsBefore column self.old }
        ensures added { OnOk result (AddsWhole column n self.old self.new) }
        ensures before { (c : ℕ) → column < c → OnOk result (EndsBefore c self.new) }
        ensures leaves { (c : ℕ) → result ≡ Err (RowFault.Leaves c) → (c ≡ column) × (n ≡ neg_ℤ (pos (2 ^ 127))) }
    {
        if n == 0 {
            return Ok(());
        }
        if let Numbers::Short(row) = &mut self.numbers {
            if row.push_whole(column, n)? {
                return Ok(());
            }
        }
        self.push_fraction(column, n)
    }

    /// Adds it among fractions.
    fn push_fraction(&mut self, column: u32, n: i128) -> Result<(), RowFault>
        requires { EndsBefore column self.old }
        ensures added { OnOk result (AddsWhole column n self.old self.new) }
        ensures before { (c : ℕ) → column < c → OnOk result (EndsBefore c self.new) }
        ensures leaves { (c : ℕ) → result ≡ Err (RowFault.Leaves c) → (c ≡ column) × (n ≡ neg_ℤ (pos (2 ^ 127))) }
    {
        match &mut self.numbers {
            Numbers::Short(row) => {
                let mut wide = row.widened(self.alloc)?;
                wide.push_whole(column, n)?;
                self.numbers = Numbers::Wide(wide);
                Ok(())
            }
            Numbers::Wide(row) => row.push_whole(column, n),
        }
    }

    /// Each fraction over that at a column, as a list; or a column at which the quotient leaves the range.
    pub fn over_its(self, column: u32) -> Result<FracRow, RowFault>
        requires { pos 0 <ℤ numerator (at column self) }
        ensures each { IfOk result (λ r. (c : ℕ) → IsQuotient (at c self) (at column self) (at c r)) }
        ensures leaves { (c : ℕ) → result ≡ Err (RowFault.Leaves c) → QuotientLeaves (at c self) (at column self) }
    {
        let FracRow { alloc, numbers } = self;
        match numbers {
            Numbers::Short(row) => {
                let row = row.over_its(alloc, column)?;
                Ok(FracRow {
                    alloc,
                    numbers: Numbers::Short(ShortNumbers::Few(row)),
                })
            }
            Numbers::Wide(row) => {
                let row = row.over_its(column)?;
                let mut row = FracRow {
                    alloc,
                    numbers: Numbers::Wide(row),
                };
                row.narrow()?;
                Ok(row)
            }
        }
    }

    /// Takes the row's fraction at a column times the lead from it, unless that is 0. Where the row then has more than
    /// `most` short numbers, it keeps a place for each column from then on.
    pub fn sweep(
        &mut self,
        column: u32,
        lead: &FracRow,
        most: usize,
        scratch: &mut RowScratch,
    ) -> Result<(), RowFault>
        ensures swept { OnOk result (IsSwept column lead.now self.old self.new) }
        ensures leaves { (c : ℕ) → result ≡ Err (RowFault.Leaves c) → SweepLeaves column c lead.now self.old }
        ensures touched { (c : ℕ) → result ≡ Err (RowFault.Leaves c) → numerator (at column self.old) ≢ pos 0 }
    {
        if self.sweep_short(column, lead, most, scratch)? {
            return Ok(());
        }
        self.sweep_fractions(column, lead, scratch)?;
        self.narrow()?;
        Ok(())
    }

    /// Does that and says so where the row and the lead are short, the lead is a list, and all stays short.
    fn sweep_short(
        &mut self,
        column: u32,
        lead: &FracRow,
        most: usize,
        scratch: &mut RowScratch,
    ) -> Result<bool, AllocError>
        ensures swept { result ≡ Ok true → IsSwept column lead.now self.old self.new }
        ensures kept { result ≡ Ok false → SameFractions self.old self.new }
    {
        let Numbers::Short(lead) = &lead.numbers else {
            return Ok(false);
        };
        let Some(lead) = lead.list() else {
            return Ok(false);
        };
        match &mut self.numbers {
            Numbers::Short(row) => row.sweep(self.alloc, column, lead, most, &mut scratch.short),
            Numbers::Wide(_) => Ok(false),
        }
    }

    /// Takes the row's fraction at a column times the lead from it, as fractions.
    fn sweep_fractions(
        &mut self,
        column: u32,
        lead: &FracRow,
        scratch: &mut RowScratch,
    ) -> Result<(), RowFault>
        ensures swept { OnOk result (IsSwept column lead.now self.old self.new) }
        ensures leaves { (c : ℕ) → result ≡ Err (RowFault.Leaves c) → SweepLeaves column c lead.now self.old }
        ensures touched { (c : ℕ) → result ≡ Err (RowFault.Leaves c) → numerator (at column self.old) ≢ pos 0 }
    {
        match &lead.numbers {
            Numbers::Short(lead) => {
                let lead = lead.widened(self.alloc)?;
                self.sweep_wide(column, &lead, scratch)
            }
            Numbers::Wide(lead) => self.sweep_wide(column, lead, scratch),
        }
    }

    /// Takes the row's fraction at a column times a lead of any fractions from it.
    fn sweep_wide(
        &mut self,
        column: u32,
        lead: &WideRow,
        scratch: &mut RowScratch,
    ) -> Result<(), RowFault>
        ensures swept { OnOk result (IsSwept column lead.now self.old self.new) }
        ensures leaves { (c : ℕ) → result ≡ Err (RowFault.Leaves c) → SweepLeaves column c lead.now self.old }
        ensures touched { (c : ℕ) → result ≡ Err (RowFault.Leaves c) → numerator (at column self.old) ≢ pos 0 }
    {
        match &mut self.numbers {
            Numbers::Short(row) => {
                let mut wide = row.widened(self.alloc)?;
                wide.sweep(column, lead, &mut scratch.wide)?;
                self.numbers = Numbers::Wide(wide);
                Ok(())
            }
            Numbers::Wide(row) => row.sweep(column, lead, &mut scratch.wide),
        }
    }

    /// Keeps whole numbers of 63 bits over one denominator where all fractions are such.
    fn narrow(&mut self) -> Result<(), AllocError>
        ensures { OnOk result (SameFractions self.old self.new) }
    {
        let Numbers::Wide(row) = &self.numbers else {
            return Ok(());
        };
        if let Some(row) = narrowed(self.alloc, row)? {
            self.numbers = Numbers::Short(ShortNumbers::Few(row));
        }
        Ok(())
    }
}
