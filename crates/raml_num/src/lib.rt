//! Exact arithmetic on whole numbers of 128 bits. No call takes memory.
#![tactic(auto)]

ghost use Rattle.std.specs.Prelude.{◌≡◌, ◌<◌, ◌*◌, FitsSigned, MatchOption};
ghost use Rattle.std.specs.Int.{IsGcd, w128};
ghost use Rattle.std.specs.Option.{SomeIff};
ghost use Rattle.std.specs.Ordering.{MatchOrdering};
ghost use Rattle.raml_num.specs.Divisors.{IsLcm, EachCommonMultipleLeaves};
ghost use Rattle.raml_num.specs.Sums.{total, NoneNegative};

use std::cmp::Ordering;

/// The greatest number that is divided as one of 64 bits, which is ten times as fast.
const NARROW: u128 = 0xffff_ffff_ffff_ffff;

/// The greatest common divisor of `a` and `b`; `gcd(0, 0)` is 0.
pub fn gcd(a: u128, b: u128) -> u128
    ensures { IsGcd a b result }
{
    let mut x = a;
    let mut y = b;
    while y != 0 {
        if x <= NARROW && y <= NARROW {
            return u128::from(gcd_narrow(x as u64, y as u64));
        }
        let rest = x % y;
        x = y;
        y = rest;
    }
    x
}

/// The greatest common divisor of two numbers of 64 bits.
fn gcd_narrow(a: u64, b: u64) -> u64
    ensures { IsGcd a b result }
{
    let mut x = a;
    let mut y = b;
    while y != 0 {
        let rest = x % y;
        x = y;
        y = rest;
    }
    x
}

/// The least common multiple of two positive numbers, or None where it does not fit 128 bits.
pub fn lcm(a: u128, b: u128) -> Option<u128>
    requires a_is_positive { 0 < a }
    requires b_is_positive { 0 < b }
    ensures { MatchOption result (EachCommonMultipleLeaves a b) (IsLcm a b) }
{
    let part = a / gcd(a, b);
    part.checked_mul(b)
}

/// The sum of numbers of which none is negative, or None where it does not fit 128 bits.
pub fn sum(terms: &[i128]) -> Option<i128>
    requires { NoneNegative terms.now }
    ensures { SomeIff result (FitsSigned w128 (total terms.now)) (total terms.now) }
{
    let mut so_far: i128 = 0;
    for term in terms {
        so_far = so_far.checked_add(*term)?;
    }
    Some(so_far)
}

/// The order of the quotients `a / b` and `c / d`, which are compared exactly.
pub fn cross_cmp(a: u128, b: u128, c: u128, d: u128) -> Ordering
    requires b_is_positive { 0 < b }
    requires d_is_positive { 0 < d }
    ensures { MatchOrdering result (a * d < c * b) (a * d ≡ c * b) (c * b < a * d) }
{
    let mut a = a;
    let mut b = b;
    let mut c = c;
    let mut d = d;
    loop {
        let first = a / b;
        let second = c / d;
        if first < second {
            return Ordering::Less;
        }
        if second < first {
            return Ordering::Greater;
        }
        let rest = a % b;
        let other_rest = c % d;
        if other_rest == 0 {
            return if rest == 0 {
                Ordering::Equal
            } else {
                Ordering::Greater
            };
        }
        if rest == 0 {
            return Ordering::Less;
        }
        // rest/b against other_rest/d is as d/other_rest against b/rest
        a = d;
        c = b;
        b = other_rest;
        d = rest;
    }
}
