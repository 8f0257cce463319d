//! What divides numbers.

ghost use Rattle.std.specs.Prelude.{◌≡◌, pos, ◌<ℤ◌, ◌*ℤ◌};
ghost use Rattle.simplex_rows.specs.Multiples.{IsMultiple};

use raml_num::gcd;

/// What a positive number and another have in common.
pub(crate) fn common_with(common: i64, n: i64) -> i64
    requires { pos 0 <ℤ common }
    ensures positive { pos 0 <ℤ result }
    ensures first { IsMultiple result common }
    ensures second { IsMultiple result n }
{
    if n % common == 0 {
        return common;
    }
    gcd(
        u128::from(common.unsigned_abs()),
        u128::from(n.unsigned_abs()),
    ) as i64
}

/// A number over one that divides it. Many are 0, and need no division.
pub(crate) fn over(number: i64, by: i64) -> i64
    requires positive { pos 0 <ℤ by }
    requires multiple { IsMultiple by number }
    ensures { result *ℤ by ≡ number }
{
    if number == 0 { 0 } else { number / by }
}
