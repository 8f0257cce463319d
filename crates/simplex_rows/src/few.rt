//! A row of few whole numbers over one denominator.

ghost use Rattle.std.specs.Prelude.{◌≡◌, ◌≢◌, ◌<◌, ◌++◌, ◌^◌, [], length, map, ℕ, pos, ◌<ℤ◌, ◌≤ℤ◌, ◌+ℤ◌, ◌*ℤ◌, unsigned_abs, IfOk, OnOk};
ghost use Rattle.simplex_rows.specs.ShortRows.{ShortRow, IsShort, whole_at, put_whole, WholesEndBefore, IsNextWhole, IsCombined};
ghost use Rattle.simplex_rows.specs.ShortRows.{SameValues, fractions_of};
ghost use Rattle.simplex_rows.specs.Entries.{at};
ghost use Rattle.frac128.specs.Values.{numerator, IsQuotient};

use crate::dividing::over;
use crate::few_dividing::{common_divisor, divide_each, greatest};
use crate::few_merging::put_combined;
use std::alloc::{AllocError, Global};
use std::marker::Model;
use std::mem;

/// Up to so many columns are looked through one by one, and more are searched.
const SHORT: usize = 8;

/// Whole numbers of 63 bits that are not 0, each behind its column, in order of column, and the denominator of all.
#[derive(Debug, Drop)]
pub(crate) struct FewRow {
    entries: Vec<(u32, i64)>,
    den: i64,
    /// No number is greater, without its sign, and the denominator is not.
    bound: i64,
}

impl Model for FewRow {
    ghost Value = { ShortRow };

    ghost view = { λ r. record { numbers = r.entries.items; den = r.den; bound = r.bound } };

    ghost invariant = { λ r. IsShort (record { numbers = r.entries.items; den = r.den; bound = r.bound }) };
}

impl FewRow {
    /// The row in which each number is 0.
    pub(crate) fn new(alloc: Global) -> FewRow
        ensures { result ≡ record { numbers = []; den = pos 1; bound = pos 1 } }
    {
        FewRow {
            entries: Vec::new(alloc),
            den: 1,
            bound: 1,
        }
    }

    /// The row in which each number is 0, with room for so many that are not.
    pub(crate) fn with_capacity(alloc: Global, capacity: usize) -> Result<FewRow, AllocError>
        ensures { IfOk result (λ row. row ≡ record { numbers = []; den = pos 1; bound = pos 1 }) }
    {
        Ok(FewRow {
            entries: Vec::with_capacity(alloc, capacity)?,
            den: 1,
            bound: 1,
        })
    }

    /// The row of these numbers, each behind its column, over a denominator.
    pub(crate) fn from_parts(entries: Vec<(u32, i64)>, den: i64, bound: i64) -> FewRow
        requires { IsShort (record { numbers = entries.items; den = den; bound = bound }) }
        ensures parts { result ≡ record { numbers = entries.items; den = den; bound = bound } }
        ensures short { IsShort result }
    {
        FewRow {
            entries,
            den,
            bound,
        }
    }

    /// How many numbers are not 0.
    pub(crate) fn len(&self) -> usize
        ensures count { result ≡ length self.now.numbers }
        ensures short { IsShort self.now }
    {
        self.entries.len()
    }

    /// The denominator of all numbers.
    pub(crate) fn den(&self) -> i64
        ensures den { result ≡ self.now.den }
        ensures short { IsShort self.now }
    {
        self.den
    }

    /// What no number is above, without its sign, and the denominator is not.
    pub(crate) fn bound(&self) -> i64
        ensures value { result ≡ self.now.bound }
        ensures short { IsShort self.now }
    {
        self.bound
    }

    /// The numbers that are not 0, each behind its column, in order of column.
    pub(crate) fn entries(&self) -> &[(u32, i64)]
        ensures all { result.now ≡ self.now.numbers }
        ensures short { IsShort self.now }
    {
        &self.entries
    }

    /// The number at a column.
    pub(crate) fn number_at(&self, column: u32) -> i64
        ensures value { result ≡ whole_at column self.now.numbers }
        ensures short { IsShort self.now }
    {
        if self.entries.len() <= SHORT {
            look_through(&self.entries, column)
        } else {
            self.search(column)
        }
    }

    /// The number at a column of a long row.
    fn search(&self, column: u32) -> i64
        ensures { result ≡ whole_at column self.now.numbers }
    {
        match self.entries.binary_search_by_key(&column, |entry| entry.0) {
            Ok(place) => self.entries[place].1,
            Err(_) => 0,
        }
    }

    /// The first column from `from` on at which the number is not 0.
    pub(crate) fn next_column(&self, from: u32) -> Option<u32>
        ensures next { IsNextWhole from self.now.numbers result }
        ensures short { IsShort self.now }
    {
        let place = self.entries.partition_point(|entry| entry.0 < from);
        if place < self.entries.len() {
            Some(self.entries[place].0)
        } else {
            None
        }
    }

    /// Makes `all` the columns at which the number is not 0, in order.
    pub(crate) fn columns(&self, all: &mut Vec<u32>) -> Result<(), AllocError>
        ensures columns { OnOk result (all.new.items ≡ map (λ e. e.0) self.now.numbers) }
        ensures short { IsShort self.now }
    {
        all.clear();
        for entry in &self.entries {
            all.push(entry.0)?;
        }
        Ok(())
    }

    /// Adds a number at a column after the others, to a row whose denominator is 1. A 0 stores nothing.
    pub(crate) fn push(&mut self, column: u32, n: i64) -> Result<(), AllocError>
        requires before { WholesEndBefore column self.old.numbers }
        requires fits { pos (unsigned_abs n) <ℤ pos (2 ^ 63) }
        ensures added { OnOk result (self.new.numbers ≡ self.old.numbers ++ put_whole column n []) }
        ensures den { self.new.den ≡ self.old.den }
        ensures before { (c : ℕ) → column < c → OnOk result (WholesEndBefore c self.new.numbers) }
    {
        if n == 0 {
            return Ok(());
        }
        self.entries.push((column, n))?;
        self.bound = self.bound.max(n.abs());
        Ok(())
    }

    /// Makes the row `p` times itself less `q` times the lead. The new numbers are made in `spare`, whose
    /// memory the row takes; `spare` gets that of the old ones. Nothing is tested: by the bounds all fits.
    pub(crate) fn combine(
        &mut self,
        p: i64,
        q: i64,
        lead: &FewRow,
        bound: i64,
        spare: &mut Vec<(u32, i64)>,
    ) -> Result<(), AllocError>
        requires positive { pos 0 <ℤ p }
        requires fits { (p *ℤ self.old.bound +ℤ pos (unsigned_abs q) *ℤ lead.now.bound) ≤ℤ bound }
        ensures combined { OnOk result (IsCombined p q lead.now.numbers self.old.numbers self.new.numbers) }
        ensures den { OnOk result (self.new.den ≡ p *ℤ self.old.den) }
        ensures bound { OnOk result (self.new.bound ≡ bound) }
        ensures short { OnOk result (IsShort self.new) }
    {
        spare.clear();
        spare.reserve(self.entries.len())?;
        put_combined(spare, p, &self.entries, q, &lead.entries)?;
        mem::swap(&mut self.entries, spare);
        self.den *= p;
        self.bound = bound;
        Ok(())
    }

    /// Divides the numbers and the denominator by what they all have in common, and makes the bound the least.
    pub(crate) fn tighten(&mut self)
        ensures same { SameValues self.old self.new }
        ensures columns { map (λ e. e.0) self.new.numbers ≡ map (λ e. e.0) self.old.numbers }
        ensures short { IsShort self.new }
    {
        self.reduce();
        self.bound = greatest(self.den, &self.entries);
    }

    /// Divides the numbers and the denominator by what they all have in common.
    fn reduce(&mut self)
        ensures same { SameValues self.old self.new }
        ensures columns { map (λ e. e.0) self.new.numbers ≡ map (λ e. e.0) self.old.numbers }
    {
        let common = common_divisor(self.den, &self.entries);
        if common == 1 {
            return;
        }
        divide_each(&mut self.entries, common);
        self.den = over(self.den, common);
    }

    /// The row over its number at a column, which is positive. No number changes but by what they have in common.
    pub(crate) fn over_its(self, column: u32) -> FewRow
        requires { pos 0 <ℤ numerator (at column (fractions_of self)) }
        ensures { (c : ℕ) → IsQuotient (at c (fractions_of self)) (at column (fractions_of self)) (at c (fractions_of result)) }
    {
        let mut row = self;
        row.den = row.number_at(column);
        row.tighten();
        row
    }
}

/// The number at a column, which is looked for from the first on.
fn look_through(entries: &[(u32, i64)], column: u32) -> i64
    ensures { result ≡ whole_at column entries.now }
{
    for entry in entries {
        if entry.0 == column {
            return entry.1;
        }
    }
    0
}
