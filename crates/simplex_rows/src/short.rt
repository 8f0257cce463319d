//! A row of whole numbers over one denominator, as a list or in the places of their columns.

ghost use Rattle.std.specs.Prelude.{◌≡◌, ◌<◌, ℕ, pos, ◌<ℤ◌, ◌≤ℤ◌, ◌+ℤ◌, ◌*ℤ◌, unsigned_abs, IfOk, IfSome, OnOk, true, false};
ghost use Rattle.std.specs.Ordering.{int_cmp};
ghost use Rattle.frac128.specs.Values.{numerator, IsQuotient};
ghost use Rattle.simplex_rows.specs.Entries.{at, columns_of, IsNextColumn, IsSparse, EndsBefore};
ghost use Rattle.simplex_rows.specs.ShortRows.{IsShort, whole_at, IsCombined, SameValues, fractions_of};
ghost use Rattle.simplex_rows.specs.Sharing.{Shares};
ghost use Rattle.simplex_rows.specs.Forms.{row_of};
ghost use Rattle.simplex_rows.specs.Sweeping.{SameFractions, SameParts, AddsWhole, IsSwept};

use crate::factors::{Factors, find_factors};
use crate::few::FewRow;
use crate::many::ManyRow;
use crate::wide::WideRow;
use frac128::Frac;
use std::alloc::{AllocError, Global};
use std::cmp::Ordering;

/// The greatest number of 63 bits.
const SHORT: i128 = 0x7fff_ffff_ffff_ffff;

/// Whole numbers of 63 bits over one denominator.
#[derive(Debug, Drop)]
pub(crate) enum ShortNumbers {
    /// Those that are not 0, each behind its column.
    Few(FewRow),
    /// Each in the place of its column.
    Many(ManyRow),
}

impl ShortNumbers {
    /// How many numbers are kept.
    pub(crate) fn kept(&self) -> usize {
        match self {
            ShortNumbers::Few(row) => row.len(),
            ShortNumbers::Many(row) => row.places(),
        }
    }

    /// The denominator, which is positive.
    pub(crate) fn den(&self) -> i64
        ensures value { result ≡ (row_of self.now).den }
        ensures short { IsShort (row_of self.now) }
    {
        match self {
            ShortNumbers::Few(row) => row.den(),
            ShortNumbers::Many(row) => row.den(),
        }
    }

    /// What no number, without its sign, is above.
    fn bound(&self) -> i64
        ensures value { result ≡ (row_of self.now).bound }
        ensures short { IsShort (row_of self.now) }
    {
        match self {
            ShortNumbers::Few(row) => row.bound(),
            ShortNumbers::Many(row) => row.bound(),
        }
    }

    /// The number at a column.
    pub(crate) fn number_at(&self, column: u32) -> i64
        ensures value { result ≡ whole_at column (row_of self.now).numbers }
        ensures short { IsShort (row_of self.now) }
    {
        match self {
            ShortNumbers::Few(row) => row.number_at(column),
            ShortNumbers::Many(row) => row.number_at(column),
        }
    }

    /// How the number at a column compares with 0.
    pub(crate) fn sign_at(&self, column: u32) -> Ordering
        ensures { result ≡ int_cmp (numerator (at column (fractions_of (row_of self.now)))) (pos 0) }
    {
        self.number_at(column).cmp(&0)
    }

    /// The fraction at a column.
    pub(crate) fn at(&self, column: u32) -> Frac
        ensures { SameParts (at column (fractions_of (row_of self.now))) result }
    {
        Frac::short(self.number_at(column), self.den())
    }

    /// The fraction at `column` over that at `by`, in which the denominator goes out.
    pub(crate) fn ratio(&self, column: u32, by: u32) -> Frac
        requires { pos 0 <ℤ numerator (at by (fractions_of (row_of self.now))) }
        ensures { IsQuotient (at column (fractions_of (row_of self.now))) (at by (fractions_of (row_of self.now))) result }
    {
        Frac::short(self.number_at(column), self.number_at(by))
    }

    /// The first column from `from` on at which the fraction is not 0.
    pub(crate) fn next_column(&self, from: u32) -> Option<u32>
        ensures { IsNextColumn from (fractions_of (row_of self.now)) result }
    {
        match self {
            ShortNumbers::Few(row) => row.next_column(from),
            ShortNumbers::Many(row) => row.next_column(from),
        }
    }

    /// Makes `all` the columns at which the number is not 0, in order.
    pub(crate) fn columns(&self, all: &mut Vec<u32>) -> Result<(), AllocError>
        ensures columns { OnOk result (all.new.items ≡ columns_of (fractions_of (row_of self.now))) }
        ensures sparse { IsSparse (fractions_of (row_of self.now)) }
    {
        match self {
            ShortNumbers::Few(row) => row.columns(all),
            ShortNumbers::Many(row) => row.columns(all),
        }
    }

    /// Adds a whole number at a column after the others, and says so, where it is short and the denominator is 1.
    pub(crate) fn push_whole(&mut self, column: u32, n: i128) -> Result<bool, AllocError>
        requires { EndsBefore column (fractions_of (row_of self.old)) }
        ensures added { result ≡ Ok true → AddsWhole column n (fractions_of (row_of self.old)) (fractions_of (row_of self.new)) }
        ensures before { (c : ℕ) → column < c → result ≡ Ok true → EndsBefore c (fractions_of (row_of self.new)) }
        ensures kept { result ≡ Ok false → row_of self.new ≡ row_of self.old }
    {
        let ShortNumbers::Few(row) = self else {
            return Ok(false);
        };
        if row.den() != 1 || n < -SHORT || SHORT < n {
            return Ok(false);
        }
        row.push(column, n as i64)?;
        Ok(true)
    }

    /// The list, if it is one.
    pub(crate) fn list(&self) -> Option<&FewRow>
        ensures { IfSome result (λ row. row.now ≡ row_of self.now) }
    {
        match self {
            ShortNumbers::Few(row) => Some(row),
            ShortNumbers::Many(_) => None,
        }
    }

    /// The same as a list.
    fn listed(self, alloc: Global) -> Result<FewRow, AllocError>
        ensures { IfOk result (λ row. row ≡ row_of self) }
    {
        match self {
            ShortNumbers::Few(row) => Ok(row),
            ShortNumbers::Many(row) => row.listed(alloc),
        }
    }

    /// Each fraction over that at a column, as a list.
    pub(crate) fn over_its(self, alloc: Global, column: u32) -> Result<FewRow, AllocError>
        requires { pos 0 <ℤ numerator (at column (fractions_of (row_of self))) }
        ensures { IfOk result (λ row. (c : ℕ) →
            IsQuotient (at c (fractions_of (row_of self))) (at column (fractions_of (row_of self))) (at c (fractions_of row))) }
    {
        let listed = self.listed(alloc)?;
        Ok(listed.over_its(column))
    }

    /// The same as fractions.
    pub(crate) fn widened(&self, alloc: Global) -> Result<WideRow, AllocError>
        ensures same { IfOk result (λ wide. SameFractions (fractions_of (row_of self.now)) wide) }
        ensures ends { (c : ℕ) → EndsBefore c (fractions_of (row_of self.now)) → IfOk result (λ wide. EndsBefore c wide) }
    {
        match self {
            ShortNumbers::Few(row) => widened(alloc, row),
            ShortNumbers::Many(row) => {
                let listed = row.listed(alloc)?;
                widened(alloc, &listed)
            }
        }
    }

    /// Brings all to lower terms, and the bound to the least.
    fn tighten(&mut self)
        ensures { SameValues (row_of self.old) (row_of self.new) }
    {
        match self {
            ShortNumbers::Few(row) => row.tighten(),
            ShortNumbers::Many(row) => row.tighten(),
        }
    }

    /// The factors for this row, of which a number is taken, and a lead, unless a number may pass 63 bits.
    fn factors(&self, number: i64, lead: &FewRow) -> Option<Factors>
        ensures shares { IfSome result (λ f. Shares number lead.now.den f.own f.times) }
        ensures short { IsShort (row_of self.now) }
        ensures lead { IsShort lead.now }
        ensures bound { IfSome result (λ f. (f.own *ℤ (row_of self.now).bound +ℤ pos (unsigned_abs f.times) *ℤ lead.now.bound) ≤ℤ f.bound) }
    {
        find_factors(number, self.bound(), lead.den(), lead.bound())
    }

    /// Makes the row `own` times itself less `times` times the lead.
    fn combine(
        &mut self,
        factors: Factors,
        lead: &FewRow,
        spare: &mut Vec<(u32, i64)>,
    ) -> Result<(), AllocError>
        requires positive { pos 0 <ℤ factors.own }
        requires fits { (factors.own *ℤ (row_of self.old).bound +ℤ pos (unsigned_abs factors.times) *ℤ lead.now.bound) ≤ℤ factors.bound }
        ensures combined { OnOk result
            (IsCombined factors.own factors.times lead.now.numbers (row_of self.old).numbers (row_of self.new).numbers) }
        ensures den { OnOk result ((row_of self.new).den ≡ factors.own *ℤ (row_of self.old).den) }
        ensures short { OnOk result (IsShort (row_of self.new)) }
    {
        let Factors { own, times, bound } = factors;
        match self {
            ShortNumbers::Few(row) => row.combine(own, times, lead, bound, spare),
            ShortNumbers::Many(row) => row.combine(own, times, lead, bound),
        }
    }

    /// Keeps a place for each column where there are more than `most` numbers.
    fn spread(&mut self, alloc: Global, most: usize) -> Result<(), AllocError>
        requires { IsShort (row_of self.old) }
        ensures numbers { OnOk result ((c : ℕ) → whole_at c (row_of self.new).numbers ≡ whole_at c (row_of self.old).numbers) }
        ensures den { OnOk result ((row_of self.new).den ≡ (row_of self.old).den) }
        ensures short { OnOk result (IsShort (row_of self.new)) }
    {
        let many = match self {
            ShortNumbers::Few(row) => {
                if row.len() <= most {
                    return Ok(());
                }
                ManyRow::from_few(alloc, row)?
            }
            ShortNumbers::Many(_) => return Ok(()),
        };
        *self = ShortNumbers::Many(many);
        Ok(())
    }

    /// Makes the row `own` times itself less `times` times the lead. Where it then has more than `most` numbers, it
    /// keeps a place for each column from then on.
    fn combine_and_spread(
        &mut self,
        alloc: Global,
        factors: Factors,
        lead: &FewRow,
        most: usize,
        spare: &mut Vec<(u32, i64)>,
    ) -> Result<(), AllocError>
        requires positive { pos 0 <ℤ factors.own }
        requires fits { (factors.own *ℤ (row_of self.old).bound +ℤ pos (unsigned_abs factors.times) *ℤ lead.now.bound) ≤ℤ factors.bound }
        ensures combined { OnOk result
            (IsCombined factors.own factors.times lead.now.numbers (row_of self.old).numbers (row_of self.new).numbers) }
        ensures den { OnOk result ((row_of self.new).den ≡ factors.own *ℤ (row_of self.old).den) }
        ensures short { OnOk result (IsShort (row_of self.new)) }
    {
        self.combine(factors, lead, spare)?;
        self.spread(alloc, most)
    }

    /// Takes the row's number at a column times the lead from it, and says so; or leaves it as it is where a number
    /// may pass 63 bits, also when all is brought to lower terms.
    pub(crate) fn sweep(
        &mut self,
        alloc: Global,
        column: u32,
        lead: &FewRow,
        most: usize,
        spare: &mut Vec<(u32, i64)>,
    ) -> Result<bool, AllocError>
        ensures swept { result ≡ Ok true →
            IsSwept column (fractions_of lead.now) (fractions_of (row_of self.old)) (fractions_of (row_of self.new)) }
        ensures kept { result ≡ Ok false → SameFractions (fractions_of (row_of self.old)) (fractions_of (row_of self.new)) }
    {
        let number = self.number_at(column);
        if number == 0 {
            return Ok(true);
        }
        if let Some(factors) = self.factors(number, lead) {
            self.combine_and_spread(alloc, factors, lead, most, spare)?;
            return Ok(true);
        }
        self.tighten();
        match self.factors(self.number_at(column), lead) {
            Some(factors) => {
                self.combine_and_spread(alloc, factors, lead, most, spare)?;
                Ok(true)
            }
            None => Ok(false),
        }
    }
}

/// A list of whole numbers over one denominator as fractions.
fn widened(alloc: Global, row: &FewRow) -> Result<WideRow, AllocError>
    ensures same { IfOk result (λ wide. SameFractions (fractions_of row.now) wide) }
    ensures ends { (c : ℕ) → EndsBefore c (fractions_of row.now) → IfOk result (λ wide. EndsBefore c wide) }
{
    let den = row.den();
    let entries = row.entries();
    let mut wide = WideRow::with_capacity(alloc, entries.len())?;
    for (column, number) in entries {
        wide.push(*column, Frac::short(*number, den))?;
    }
    Ok(wide)
}
