//! Fractions brought back to whole numbers of 63 bits over one denominator.

ghost use Rattle.std.specs.Prelude.{◌≡◌, ◌/◌, ◌^◌, ◌-◌, pos, ◌<ℤ◌, ◌≤ℤ◌, ◌*ℤ◌, unsigned_abs, IfOk, IfSome};
ghost use Rattle.frac128.specs.Values.{numerator, denominator};
ghost use Rattle.simplex_rows.specs.Narrowing.{DenominatorsDivide, numerators_over};
ghost use Rattle.simplex_rows.specs.ShortRows.{AreWithin, fractions_of};
ghost use Rattle.simplex_rows.specs.Sweeping.{SameFractions};
ghost use Prim.Native.Nat.{◌∣◌};

use crate::dividing::{common_with, over};
use crate::few::FewRow;
use crate::few_dividing::greatest;
use crate::wide::WideRow;
use frac128::Frac;
use std::alloc::{AllocError, Global};

/// The greatest number of 63 bits.
const SHORT: i128 = 0x7fff_ffff_ffff_ffff;

/// The same fractions as a list of whole numbers over one denominator, unless one of them leaves 63 bits.
pub(crate) fn narrowed(alloc: Global, row: &WideRow) -> Result<Option<FewRow>, AllocError>
    ensures { IfOk result (λ made. IfSome made (λ few. SameFractions row.now (fractions_of few))) }
{
    let entries = row.entries();
    let Some(den) = common_denominator(entries) else {
        return Ok(None);
    };
    let Some(numbers) = numbers_over(alloc, entries, den)? else {
        return Ok(None);
    };
    let bound = greatest(den, &numbers);
    Ok(Some(FewRow::from_parts(numbers, den, bound)))
}

/// The least number that all denominators divide, unless it leaves 63 bits.
fn common_denominator(entries: &[(u32, Frac)]) -> Option<i64>
    ensures positive { IfSome result (λ den. pos 0 <ℤ den) }
    ensures divide { IfSome result (λ den. DenominatorsDivide (unsigned_abs den) entries.now) }
{
    let mut common = 1;
    for entry in entries {
        common = common_multiple(common, &entry.1)?;
    }
    Some(common)
}

/// The least multiple of a positive number that a fraction's denominator divides, unless it leaves 63 bits.
fn common_multiple(common: i64, number: &Frac) -> Option<i64>
    requires { pos 0 <ℤ common }
    ensures positive { IfSome result (λ multiple. pos 0 <ℤ multiple) }
    ensures common { IfSome result (λ multiple. unsigned_abs common ∣ unsigned_abs multiple) }
    ensures den { IfSome result (λ multiple. denominator number.now ∣ unsigned_abs multiple) }
{
    if number.den() == 1 {
        return Some(common);
    }
    if number.den() > SHORT {
        return None;
    }
    let den = number.den() as i64;
    over(common, common_with(den, common)).checked_mul(den)
}

/// The numerators over a number that all denominators divide, each behind its column, unless one leaves 63 bits.
fn numbers_over(
    alloc: Global,
    entries: &[(u32, Frac)],
    den: i64,
) -> Result<Option<Vec<(u32, i64)>>, AllocError>
    requires positive { pos 0 <ℤ den }
    requires divide { DenominatorsDivide (unsigned_abs den) entries.now }
    ensures value { IfOk result (λ made. IfSome made (λ numbers. numbers.items ≡ numerators_over (unsigned_abs den) entries.now)) }
    ensures short { IfOk result (λ made. IfSome made (λ numbers. AreWithin (pos (2 ^ 63 - 1)) numbers.items)) }
{
    let mut numbers = Vec::with_capacity(alloc, entries.len())?;
    for entry in entries {
        let Some(number) = numerator_over(&entry.1, den) else {
            return Ok(None);
        };
        numbers.push((entry.0, number))?;
    }
    Ok(Some(numbers))
}

/// The numerator of a fraction over a number that its denominator divides, unless it leaves 63 bits.
fn numerator_over(number: &Frac, den: i64) -> Option<i64>
    requires positive { pos 0 <ℤ den }
    requires divides { denominator number.now ∣ unsigned_abs den }
    ensures value { IfSome result (λ n. n ≡ numerator number.now *ℤ pos (unsigned_abs den / denominator number.now)) }
    ensures short { IfSome result (λ n. pos (unsigned_abs n) ≤ℤ pos (2 ^ 63 - 1)) }
{
    let num = number.num();
    if num < -SHORT || SHORT < num {
        return None;
    }
    let product = num * i128::from(times(number, den));
    if product < -SHORT || SHORT < product {
        return None;
    }
    Some(product as i64)
}

/// What a fraction's denominator, times it, is `den`.
fn times(number: &Frac, den: i64) -> i64
    requires positive { pos 0 <ℤ den }
    requires divides { denominator number.now ∣ unsigned_abs den }
    ensures { result ≡ pos (unsigned_abs den / denominator number.now) }
{
    if number.den() == 1 {
        den
    } else {
        den / number.den() as i64
    }
}
