// Numbers over one denominator.
ghost use Rattle.std.specs.Prelude.{◌≡◌, ◌<◌, ◌≤◌, ◌/◌, map, pos, ℕ, slice_index_or, MatchOption, IfOk};
ghost use Rattle.frac128.specs.Values.{denominator};
ghost use Rattle.simplex_integers.specs.Wholes.{most};
ghost use Rattle.simplex_integers.specs.Denominators.{over, all_over, NumberLeaves};
ghost use Rattle.simplex_integers.specs.Next.{IsNumber};

use crate::fault::WholeFault;
use frac128::Frac;
use std::alloc::Global;

/// The whole part of a quotient. Nearly all numbers are divided by 1, which takes no division.
fn quotient(number: u128, by: u128) -> u128
    requires { 0 < by }
    ensures { result ≡ number / by }
{
    if by == 1 { number } else { number / by }
}

/// The size of a fraction over a multiple of its denominator; none where it does not fit.
fn whole(fraction: &Frac, denominator: u128) -> Option<i128>
    ensures { MatchOption result (most ≤ over denominator fraction.now) (IsNumber (over denominator fraction.now)) }
{
    let size = fraction.num().unsigned_abs();
    if size == 0 {
        return Some(0);
    }
    let times = quotient(denominator, fraction.den().unsigned_abs());
    match times.checked_mul(size) {
        None => None,
        Some(number) => i128::try_from(number).ok(),
    }
}

/// The sizes of fractions over a common multiple of their denominators. Where one does not fit, the first
/// such is told.
pub fn wholes(alloc: Global, fractions: &[Frac], denominator: u128) -> Result<Vec<i128>, WholeFault>
    ensures all { IfOk result (λ numbers. numbers.items ≡ map pos (all_over denominator fractions.now)) }
    ensures fit { IfOk result (λ _. (entry : ℕ) → slice_index_or (all_over denominator fractions.now) entry 0 < most) }
    ensures leaves { (entry : ℕ) → result ≡ Err (WholeFault.Leaves entry) → NumberLeaves denominator fractions.now entry }
{
    let mut numbers = Vec::with_capacity(alloc, fractions.len())?;
    for entry in 0..fractions.len() {
        match whole(&fractions[entry], denominator) {
            Some(number) => numbers.push(number)?,
            None => return Err(WholeFault::Leaves { entry }),
        }
    }
    Ok(numbers)
}
