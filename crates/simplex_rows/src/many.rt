//! A row of many whole numbers over one denominator.

ghost use Rattle.std.specs.Prelude.{◌≡◌, ◌≤◌, ◌^◌, length, map, ℕ, pos, ◌<ℤ◌, ◌≤ℤ◌, ◌+ℤ◌, ◌*ℤ◌, unsigned_abs, IfOk, OnOk};
ghost use Rattle.simplex_rows.specs.ShortRows.{ShortRow, IsShort, whole_at, listed_from, IsNextWhole, IsCombined, SameValues};

use crate::dividing::over;
use crate::few::FewRow;
use crate::places::{common_divisor, divide, greatest, lessen, list_numbers, multiply, reach};
use std::alloc::{AllocError, Global};
use std::marker::Model;

/// Whole numbers of 63 bits, each in the place of its column, and the denominator of all.
#[derive(Debug, Drop)]
pub(crate) struct ManyRow {
    numbers: Vec<i64>,
    den: i64,
    /// No number is greater, without its sign, and the denominator is not.
    bound: i64,
}

impl Model for ManyRow {
    ghost Value = { ShortRow };

    ghost view = { λ r. record { numbers = listed_from 0 r.numbers.items; den = r.den; bound = r.bound } };

    ghost invariant = { λ r. IsShort
        (record { numbers = listed_from 0 r.numbers.items; den = r.den; bound = r.bound }) × (length r.numbers.items ≤ 2 ^ 32) };
}

impl ManyRow {
    /// The numbers of a list, each in the place of its column.
    pub(crate) fn from_few(alloc: Global, few: &FewRow) -> Result<ManyRow, AllocError>
        ensures same { IfOk result
            (λ row. ((c : ℕ) → whole_at c row.numbers ≡ whole_at c few.now.numbers)
            × (row.den ≡ few.now.den) × (row.bound ≡ few.now.bound)) }
        ensures short { IfOk result (λ row. IsShort row) }
    {
        let mut numbers = Vec::new(alloc);
        reach(&mut numbers, few.entries())?;
        // All are 0 so far, and each less -1 times its own is its own.
        lessen(&mut numbers, -1, few.entries());
        Ok(ManyRow {
            numbers,
            den: few.den(),
            bound: few.bound(),
        })
    }

    /// How many places it has.
    pub(crate) fn places(&self) -> usize {
        self.numbers.len()
    }

    /// What each number is over.
    pub(crate) fn den(&self) -> i64
        ensures value { result ≡ self.now.den }
        ensures short { IsShort self.now }
    {
        self.den
    }

    /// What no number exceeds, without its sign, nor the denominator.
    pub(crate) fn bound(&self) -> i64
        ensures value { result ≡ self.now.bound }
        ensures short { IsShort self.now }
    {
        self.bound
    }

    /// The number at a column, which is 0 past the last place.
    pub(crate) fn number_at(&self, column: u32) -> i64
        ensures value { result ≡ whole_at column self.now.numbers }
        ensures short { IsShort self.now }
    {
        match self.numbers.get(column as usize) {
            Some(number) => *number,
            None => 0,
        }
    }

    /// The first column from `from` on at which the number is not 0.
    pub(crate) fn next_column(&self, from: u32) -> Option<u32>
        ensures next { IsNextWhole from self.now.numbers result }
        ensures short { IsShort self.now }
    {
        for place in from as usize..self.numbers.len() {
            if self.numbers[place] != 0 {
                return Some(place as u32);
            }
        }
        None
    }

    /// Makes `all` the columns at which the number is not 0, in order.
    pub(crate) fn columns(&self, all: &mut Vec<u32>) -> Result<(), AllocError>
        ensures columns { OnOk result (all.new.items ≡ map (λ e. e.0) self.now.numbers) }
        ensures short { IsShort self.now }
    {
        all.clear();
        for place in 0..self.numbers.len() {
            if self.numbers[place] != 0 {
                all.push(place as u32)?;
            }
        }
        Ok(())
    }

    /// The numbers that are not 0 as a list, each behind its column.
    pub(crate) fn listed(&self, alloc: Global) -> Result<FewRow, AllocError>
        ensures { IfOk result (λ row. row ≡ self.now) }
    {
        let entries = list_numbers(alloc, &self.numbers)?;
        Ok(FewRow::from_parts(entries, self.den, self.bound))
    }

    /// Divides the numbers and the denominator by what they all have in common, and makes the bound the least.
    pub(crate) fn tighten(&mut self)
        ensures same { SameValues self.old self.new }
    {
        self.reduce();
        self.bound = greatest(self.den, &self.numbers);
    }

    /// Divides the numbers and the denominator by what they all have in common.
    fn reduce(&mut self)
        ensures same { SameValues self.old self.new }
    {
        let common = common_divisor(self.den, &self.numbers);
        if common == 1 {
            return;
        }
        divide(&mut self.numbers, common);
        self.den = over(self.den, common);
    }

    /// Makes the row `p` times itself less `q` times the lead, in place. Nothing is tested: by the bounds all fits.
    /// Where the lead has columns past the row's places, the row gets places for them first, which alone may want memory.
    pub(crate) fn combine(
        &mut self,
        p: i64,
        q: i64,
        lead: &FewRow,
        bound: i64,
    ) -> Result<(), AllocError>
        requires positive { pos 0 <ℤ p }
        requires fits { (p *ℤ self.old.bound +ℤ pos (unsigned_abs q) *ℤ lead.now.bound) ≤ℤ bound }
        ensures combined { OnOk result (IsCombined p q lead.now.numbers self.old.numbers self.new.numbers) }
        ensures den { OnOk result (self.new.den ≡ p *ℤ self.old.den) }
        ensures bound { OnOk result (self.new.bound ≡ bound) }
        ensures short { OnOk result (IsShort self.new) }
    {
        reach(&mut self.numbers, lead.entries())?;
        multiply(&mut self.numbers, p);
        lessen(&mut self.numbers, q, lead.entries());
        self.den = p * self.den;
        self.bound = bound;
        Ok(())
    }
}
