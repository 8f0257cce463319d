// Binomial coefficients as products.
ghost use Rattle.std.specs.Prelude.{◌≡◌, ◌≤◌, ◌<◌, ◌*◌, ℕ};
ghost use Rattle.base_poly.specs.Laws.{choose};

use raml_num::gcd;

/// Two numbers whose product is the number of ways to choose `few` of `count`.
pub fn choices(count: u64, few: usize) -> (u128, u128)
    requires { few ≤ 4 }
    ensures { result.0 * result.1 ≡ choose count few }
{
    if few == 0 {
        (1, 1)
    } else if few == 1 {
        (u128::from(count), 1)
    } else if few == 2 {
        (pairs(count), 1)
    } else if few == 3 {
        over(pairs(count), u128::from(count.saturating_sub(2)), 3)
    } else {
        over(pairs(count), pairs(count.saturating_sub(2)), 6)
    }
}

// The number of ways to choose 2 of so many.
fn pairs(count: u64) -> u128
    ensures { result ≡ choose count 2 }
{
    let count = u128::from(count);
    count * count.saturating_sub(1) / 2
}

// Two numbers whose product is the quotient of the product of these by the divisor, where it divides it.
fn over(first: u128, second: u128, divisor: u128) -> (u128, u128)
    requires { 0 < divisor }
    ensures { (quotient : ℕ) → quotient * divisor ≡ first * second → result.0 * result.1 ≡ quotient }
{
    let common = gcd(first, divisor);
    (first / common, second / (divisor / common))
}
