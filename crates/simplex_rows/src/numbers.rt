//! Fractions, one by one.

ghost use Rattle.std.specs.Prelude.{IsTrue, ◌≡◌, ◌≢◌, ◌<◌, ◌^◌, pos, unsigned_abs, MatchOption, OnOk, IfErr};
ghost use Rattle.frac128.specs.Values.{numerator, denominator};
ghost use Rattle.simplex_rows.specs.Entries.{at, IsSparse, IsLess, LessLeaves, QuotientLeaves};
ghost use Rattle.simplex_rows.specs.Dividing.{AreQuotients};

use frac128::Frac;

/// The greatest number of 63 bits.
const SHORT: i128 = 0x7fff_ffff_ffff_ffff;

/// Whether a fraction is a whole number that has, without its sign, 63 bits or fewer. Nearly all are.
fn is_short(x: &Frac) -> bool
    ensures whole { IsTrue result → denominator x.now ≡ 1 }
    ensures short { IsTrue result → unsigned_abs (numerator x.now) < 2 ^ 63 }
{
    x.den() == 1 && -SHORT <= x.num() && x.num() <= SHORT
}

/// `x` less `times` times `q`, or None where the product or the difference leaves the range.
#[inline(always)]
pub fn less(x: &Frac, times: &Frac, q: &Frac) -> Option<Frac>
    ensures { MatchOption result (LessLeaves x.now times.now q.now) (IsLess x.now times.now q.now) }
{
    if is_short(x) && is_short(times) && is_short(q) {
        Frac::whole(x.num() - times.num() * q.num())
    } else {
        any_less(x, times, q)
    }
}

/// The same for all fractions.
#[inline(never)]
fn any_less(x: &Frac, times: &Frac, q: &Frac) -> Option<Frac>
    ensures { MatchOption result (LessLeaves x.now times.now q.now) (IsLess x.now times.now q.now) }
{
    let product = times.mul(q)?;
    x.sub(&product)
}

/// Whether a fraction is 1.
pub(crate) fn is_one(x: &Frac) -> bool
    ensures num { IsTrue result → numerator x.now ≡ pos 1 }
    ensures den { IsTrue result → denominator x.now ≡ 1 }
{
    x.num() == 1 && x.den() == 1
}

/// Divides each number by `by`, or gives a column at which the quotient leaves the range.
pub(crate) fn divide(entries: &mut [(u32, Frac)], by: &Frac) -> Result<(), u32>
    requires divisor { numerator by.now ≢ pos 0 }
    requires sparse { IsSparse entries.old }
    ensures divided { OnOk result (AreQuotients by.now entries.old entries.new) }
    ensures leaves { IfErr result (λ column. QuotientLeaves (at column entries.old) by.now) }
{
    for place in 0..entries.len() {
        let (column, number) = entries[place];
        match number.div(by) {
            Some(quotient) => entries[place] = (column, quotient),
            None => return Err(column),
        }
    }
    Ok(())
}
