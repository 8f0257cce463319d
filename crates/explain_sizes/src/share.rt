// Numbers over a denominator, kept as whole part and rest.
ghost use Rattle.std.specs.Prelude.{◌≡◌, ◌≤◌, ◌<◌, ◌+◌, ◌*◌, ◌^◌, ℕ};
ghost use Rattle.explain_sizes.specs.Shares.{IsProper, Holds};

use crate::share_type::Share;

/// The greatest whole part that is told.
const MOST: u128 = 1 << 127;

/// The share of 0 over any denominator.
pub fn nothing() -> Option<Share>
    ensures proper { (den : ℕ) → 0 < den → IsProper den result }
    ensures holds { (den : ℕ) → Holds den 0 result }
{
    Some(Share { whole: 0, rest: 0 })
}

/// The share of 1.
pub fn one(den: u128) -> Option<Share>
    requires { 0 < den }
    ensures proper { IsProper den result }
    ensures holds { Holds den 1 result }
{
    if den == 1 {
        Some(Share { whole: 1, rest: 0 })
    } else {
        Some(Share { whole: 0, rest: 1 })
    }
}

/// The sum of two numbers over the denominator.
pub fn sum(den: u128, first: Option<Share>, second: Option<Share>) -> Option<Share>
    requires den { den ≤ 2 ^ 127 }
    requires first { IsProper den first }
    requires second { IsProper den second }
    ensures proper { IsProper den result }
    ensures holds { (n m : ℕ) → Holds den n first → Holds den m second → Holds den (n + m) result }
{
    sum_of_both(den, first?, second?)
}

// The sum of two shares.
fn sum_of_both(den: u128, first: Share, second: Share) -> Option<Share>
    requires den { den ≤ 2 ^ 127 }
    requires first { first.rest < den }
    requires second { second.rest < den }
    ensures proper { IsProper den result }
    ensures holds { Holds den ((first.whole * den + first.rest) + (second.whole * den + second.rest)) result }
{
    let whole = first.whole.checked_add(second.whole)?;
    let rest = first.rest + second.rest;
    if rest < den {
        told(whole, rest)
    } else {
        told(whole.checked_add(1)?, rest - den)
    }
}

// The share, where its whole part is at most 2^127.
fn told(whole: u128, rest: u128) -> Option<Share>
    ensures proper { (den : ℕ) → rest < den → IsProper den result }
    ensures holds { (den : ℕ) → Holds den (whole * den + rest) result }
{
    if whole <= MOST {
        Some(Share { whole, rest })
    } else {
        None
    }
}

/// A number over the denominator times the other number, by its binary digits.
pub fn times(den: u128, share: Option<Share>, number: u128) -> Option<Share>
    requires positive { 0 < den }
    requires den { den ≤ 2 ^ 127 }
    requires proper { IsProper den share }
    ensures proper { IsProper den result }
    ensures holds { (n : ℕ) → Holds den n share → Holds den (n * number) result }
{
    if number == 0 {
        return nothing();
    }
    let half = times(den, share, number / 2);
    let twice = sum(den, half, half);
    if number % 2 == 0 {
        twice
    } else {
        sum(den, twice, share)
    }
}
