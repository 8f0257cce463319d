//! The total of the positive terms, and that of the negative ones.

ghost use Rattle.std.specs.Prelude.{IsTrue, FitsSigned, ◌<◌, ◌^◌, ◌*ℤ◌, ◌≤ℤ◌, pos, unsigned_abs};
ghost use Rattle.std.specs.Int.{w128};
ghost use Rattle.std.specs.Option.{SomeIff};

use linear_rows::Row;

/// The greatest number of 63 bits.
const SHORT: i128 = 0x7fff_ffff_ffff_ffff;

/// Whether a number, without its sign, has 63 bits or fewer. Nearly all do.
fn is_short(n: i128) -> bool
    ensures { IsTrue result → unsigned_abs n < 2 ^ 63 }
{
    -SHORT <= n && n <= SHORT
}

/// The product, where it fits. That of short numbers does, and needs no test.
fn product(a: i128, b: i128) -> Option<i128>
    ensures { SomeIff result (FitsSigned w128 (a *ℤ b)) (a *ℤ b) }
{
    if is_short(a) && is_short(b) {
        Some(a * b)
    } else {
        a.checked_mul(b)
    }
}

/// Both totals.
#[derive(Clone, Copy)]
pub(crate) struct Totals {
    positive: i128,
    negative: i128,
    ghost at_least: { pos 0 ≤ℤ positive },
    ghost at_most: { negative ≤ℤ pos 0 },
}

impl Totals {
    ghost use Rattle.std.specs.Prelude.{◌≡◌, ◌≤◌, ◌+ℤ◌, ◌*ℤ◌, pos, map, length, ◌∷◌, [], neg_ℤ};
    ghost use Rattle.raml_num.specs.Sums.{NoneNegative};
    ghost use Rattle.farkas_check.specs.Checks.{column};
    ghost use Rattle.farkas_check.specs.Totals.{products};
    ghost use Rattle.farkas_check.specs.Sides.{MovedBy, IsTotals, sparse_products, AllInside};

    pub(crate) fn zero() -> Totals
        ensures { IsTotals [] (Some result) }
    {
        Totals {
            positive: 0,
            negative: 0,
        }
    }

    /// The sum of both, which always fits.
    pub(crate) fn sum(self) -> i128
        ensures { result ≡ self.positive +ℤ self.negative }
    {
        self.positive + self.negative
    }

    /// With the product of two numbers, where the totals fit.
    pub(crate) fn with(self, a: i128, b: i128) -> Option<Totals>
        ensures { MovedBy self ((a *ℤ b) ∷ []) result }
    {
        if a == 0 || b == 0 {
            return Some(self);
        }
        let product = product(a, b)?;
        if product < 0 {
            let negative = self.negative.checked_add(product)?;
            Some(Totals {
                positive: self.positive,
                negative,
            })
        } else {
            let positive = self.positive.checked_add(product)?;
            Some(Totals {
                positive,
                negative: self.negative,
            })
        }
    }

    /// With the products of `y` and the right sides.
    pub(crate) fn with_right_sides(self, y: &[i128], rows: &[Row]) -> Option<Totals>
        requires { length y.now ≡ length rows.now }
        ensures { MovedBy self (products y.now (map (λ row. row.right) rows.now)) result }
    {
        let mut totals = self;
        for i in 0..rows.len() {
            totals = totals.with(y[i], rows[i].right())?;
        }
        Some(totals)
    }

    /// With the products of `y` and an unknown's numbers in the rows.
    pub(crate) fn with_column(self, y: &[i128], rows: &[Row], unknown: u32) -> Option<Totals>
        requires { length y.now ≡ length rows.now }
        ensures { MovedBy self (products y.now (column unknown rows.now)) result }
    {
        let mut totals = self;
        for i in 0..rows.len() {
            totals = totals.with(y[i], rows[i].coefficient(unknown))?;
        }
        Some(totals)
    }

    /// With the products of the terms of a row and `x`.
    pub(crate) fn with_terms(self, terms: &[(u32, i128)], x: &[i128]) -> Option<Totals>
        requires { AllInside terms.now (length x.now) }
        ensures { MovedBy self (sparse_products terms.now x.now) result }
    {
        let mut totals = self;
        for term in terms {
            totals = totals.with(term.1, x[term.0 as usize])?;
        }
        Some(totals)
    }

    /// Less the products of the weights and `x`, of which no number is negative.
    pub(crate) fn without(self, weights: &[i128], x: &[i128]) -> Option<Totals>
        requires one_each { length weights.now ≡ length x.now }
        requires natural { NoneNegative x.now }
        ensures { MovedBy self (map neg_ℤ (products weights.now x.now)) result }
    {
        let mut totals = self;
        for i in 0..weights.len() {
            totals = totals.with(weights[i], -x[i])?;
        }
        Some(totals)
    }
}
