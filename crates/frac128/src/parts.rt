//! Numerators and denominators.

ghost use Rattle.std.specs.Prelude.{IsTrue, ◌≡◌, ◌<◌, ◌*◌, ◌/◌, ◌^◌, ◌*ℤ◌, ◌+ℤ◌, ◌<ℤ◌, pos, unsigned_abs, ℕ};
ghost use Rattle.std.specs.Option.{SomeIff};
ghost use Rattle.std.specs.Ordering.{MatchOrdering};
ghost use Rattle.std.specs.Int.{IsGcd};
ghost use Rattle.frac128.specs.Lowest.{InLowestTerms, TellsLowest, JoinFits};

use raml_num::{cross_cmp, gcd};
use std::cmp::Ordering;

/// The least number that is no numerator and no denominator.
const LIMIT: u128 = 0x8000_0000_0000_0000_0000_0000_0000_0000;

/// The greatest number that is divided as one of 64 bits, which is ten times as fast.
const NARROW: u128 = 0xffff_ffff_ffff_ffff;

/// The greatest number of 63 bits: a product of two such is below the limit.
const SHORT: i128 = 0x7fff_ffff_ffff_ffff;

/// The whole part of `a / b`.
pub(crate) fn quotient(a: u128, b: u128) -> u128
    requires { 0 < b }
    ensures { result ≡ a / b }
{
    if b == 1 {
        a
    } else if a <= NARROW && b <= NARROW {
        u128::from(a as u64 / b as u64)
    } else {
        a / b
    }
}

/// The product, where it is in the range.
fn product(a: u128, b: u128) -> Option<u128>
    ensures { SomeIff result (a * b < 2 ^ 127) (a * b) }
{
    let product = a.checked_mul(b)?;
    if product < LIMIT { Some(product) } else { None }
}

/// The product of a numerator and a number without a sign, where it is in the range.
fn scaled(n: i128, by: u128) -> Option<i128>
    ensures { SomeIff result (unsigned_abs n * by < 2 ^ 127) (n *ℤ pos by) }
{
    let top = product(n.unsigned_abs(), by)?;
    Some(if n < 0 { -(top as i128) } else { top as i128 })
}

/// The sum of two numerators, where it is in the range.
pub(crate) fn joined(a: i128, b: i128) -> Option<i128>
    ensures { SomeIff result (unsigned_abs (a +ℤ b) < 2 ^ 127) (a +ℤ b) }
{
    let sum = a.checked_add(b)?;
    if sum == i128::MIN { None } else { Some(sum) }
}

/// Whether a number, without its sign, has 63 bits or fewer. Nearly all do.
fn is_short(n: i128) -> bool
    ensures { IsTrue result → unsigned_abs n < 2 ^ 63 }
{
    -SHORT <= n && n <= SHORT
}

/// The product of two numerators, where it is in the range. That of short numbers is, and needs no test.
pub(crate) fn whole_product(a: i128, b: i128) -> Option<i128>
    ensures { SomeIff result (unsigned_abs (a *ℤ b) < 2 ^ 127) (a *ℤ b) }
{
    if is_short(a) && is_short(b) {
        Some(a * b)
    } else {
        tested_product(a, b)
    }
}

/// The same for all numbers.
#[inline(never)]
fn tested_product(a: i128, b: i128) -> Option<i128>
    ensures { SomeIff result (unsigned_abs (a *ℤ b) < 2 ^ 127) (a *ℤ b) }
{
    let product = a.checked_mul(b)?;
    if product == i128::MIN {
        None
    } else {
        Some(product)
    }
}

/// The lowest terms of `a/b` times `c/d`, both in lowest terms, where they are in the range.
pub(crate) fn cancelled(a: u128, b: u128, c: u128, d: u128) -> Option<(u128, u128)>
    requires first { InLowestTerms a b }
    requires second { InLowestTerms c d }
    ensures { TellsLowest (a * c) (b * d) result }
{
    let g = gcd(a, d);
    let h = gcd(c, b);
    let top = product(quotient(a, g), quotient(c, h))?;
    let bottom = product(quotient(b, h), quotient(d, g))?;
    Some((top, bottom))
}

/// The sum of `a/b` and `c/d` over the least common denominator, where `g` is the greatest common
/// divisor of `b` and `d`, and where all is in the range.
pub(crate) fn over_least(a: i128, b: u128, c: i128, d: u128, g: u128) -> Option<(i128, u128)>
    requires { 0 < g }
    ensures { SomeIff result (JoinFits a b c d g) (a *ℤ pos (d / g) +ℤ c *ℤ pos (b / g), b * (d / g)) }
{
    let by = quotient(d, g);
    let bottom = product(b, by)?;
    let left = scaled(a, by)?;
    let right = scaled(c, quotient(b, g))?;
    let sum = joined(left, right)?;
    Some((sum, bottom))
}

/// The order of `a/b` and `c/d`.
pub(crate) fn quotient_cmp(a: i128, b: u128, c: i128, d: u128) -> Ordering
    requires first { 0 < b }
    requires second { 0 < d }
    ensures { MatchOrdering result ((a *ℤ pos d) <ℤ (c *ℤ pos b)) (a *ℤ pos d ≡ c *ℤ pos b) ((c *ℤ pos b) <ℤ (a *ℤ pos d)) }
{
    if a < 0 {
        if c < 0 {
            magnitude_cmp(c.unsigned_abs(), d, a.unsigned_abs(), b)
        } else {
            Ordering::Less
        }
    } else if c < 0 {
        Ordering::Greater
    } else {
        magnitude_cmp(a.unsigned_abs(), b, c.unsigned_abs(), d)
    }
}

/// The order of `a/b` and `c/d`; numbers of 64 bits are multiplied out.
fn magnitude_cmp(a: u128, b: u128, c: u128, d: u128) -> Ordering
    requires first { 0 < b }
    requires second { 0 < d }
    ensures { MatchOrdering result (a * d < c * b) (a * d ≡ c * b) (c * b < a * d) }
{
    if a <= NARROW && b <= NARROW && c <= NARROW && d <= NARROW {
        (a * d).cmp(&(c * b))
    } else {
        cross_cmp(a, b, c, d)
    }
}
