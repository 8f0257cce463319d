//! Fractions in lowest terms, of 127 bits above and below. No call takes memory.
#![tactic(auto)]

ghost use Rattle.std.specs.Prelude.{◌≡◌, ◌<◌, ◌^◌, ◌*ℤ◌, pos, unsigned_abs, ℕ};
ghost use Rattle.std.specs.Int.{IsGcd};
ghost use Rattle.frac128.specs.Lowest.{InLowestTerms, signed_by};

mod parts;

use raml_num::gcd;
use std::cmp::Ordering;
use std::fmt;

/// A fraction in lowest terms. Its numerator is from `-(2^127 - 1)` to `2^127 - 1`, its denominator
/// from 1 to `2^127 - 1`. Zero is 0/1.
#[derive(Clone, Copy, PartialEq, Eq, Hash, Debug)]
pub struct Frac {
    num: i128,
    den: u128,
    pub ghost lowest: { InLowestTerms (unsigned_abs num) den },
}

/// The numerator over 1.
fn over_one(num: i128) -> Frac
    requires { unsigned_abs num < 2 ^ 127 }
    ensures num { result.num ≡ num }
    ensures den { result.den ≡ 1 }
{
    Frac { num, den: 1 }
}

/// The fraction of this sign, numerator and denominator.
fn signed(negative: bool, top: u128, bottom: u128) -> Frac
    requires lowest { InLowestTerms top bottom }
    ensures num { result.num ≡ signed_by negative top }
    ensures den { result.den ≡ bottom }
{
    let num = if negative {
        -(top as i128)
    } else {
        top as i128
    };
    Frac { num, den: bottom }
}

/// The lowest terms of a fraction whose parts are in the range. What the numerator has in common with
/// the denominator, it has in common with `shared`, which may be much smaller.
fn reduced(num: i128, den: u128, shared: u128) -> Frac
    requires small { unsigned_abs num < 2 ^ 127 }
    requires positive { 0 < den }
    requires fits { den < 2 ^ 127 }
    requires shared { (k : ℕ) → IsGcd (unsigned_abs num) shared k → IsGcd (unsigned_abs num) den k }
    ensures { result.num *ℤ pos den ≡ num *ℤ pos result.den }
{
    if shared == 1 {
        return Frac { num, den };
    }
    let top = num.unsigned_abs();
    let divisor = gcd(top, shared);
    signed(
        num < 0,
        parts::quotient(top, divisor),
        parts::quotient(den, divisor),
    )
}

impl Frac {
    ghost use Rattle.std.specs.Prelude.{IsTrue, ◌≡◌, ◌≢◌, ◌↔◌, ℕ, ℤ, pos, neg_ℤ, unsigned_abs, IsSome, IfSome, ◌+ℤ◌, ◌*ℤ◌, ◌<ℤ◌};
    ghost use Rattle.raml_num.specs.Divisors.{IsLcm};
    ghost use Rattle.frac128.specs.Values.{numerator, denominator, IsProduct, IsQuotient, IsSum, IsDifference, SumFits, DifferenceFits};
    ghost use Rattle.frac128.specs.Values.{Tells, Fits, IsReciprocal};

    /// The number 0.
    pub fn zero() -> Frac
        ensures num { numerator result ≡ pos 0 }
        ensures den { denominator result ≡ 1 }
    {
        over_one(0)
    }

    /// The number 1.
    pub fn one() -> Frac
        ensures num { numerator result ≡ pos 1 }
        ensures den { denominator result ≡ 1 }
    {
        over_one(1)
    }

    /// The whole number `n` as a fraction, or None for `-2^127`.
    pub fn whole(n: i128) -> Option<Frac>
        ensures fits { IsSome result ↔ (unsigned_abs n < 2 ^ 127) }
        ensures num { IfSome result (λ r. numerator r ≡ n) }
        ensures den { IfSome result (λ r. denominator r ≡ 1) }
    {
        if n == i128::MIN {
            None
        } else {
            Some(over_one(n))
        }
    }

    /// `num` over `den`, which is positive, in lowest terms.
    #[inline(always)]
    pub fn short(num: i64, den: i64) -> Frac
        requires { pos 0 <ℤ den }
        ensures { numerator result *ℤ den ≡ num *ℤ pos (denominator result) }
    {
        let den = den as u128;
        reduced(i128::from(num), den, den)
    }

    /// The numerator, which has the sign.
    pub fn num(&self) -> i128
        ensures { result ≡ numerator self.now }
    {
        self.num
    }

    /// The denominator, which is positive.
    pub fn den(&self) -> i128
        ensures { result ≡ pos (denominator self.now) }
    {
        self.den as i128
    }

    /// The negative.
    pub fn neg(&self) -> Frac
        ensures num { numerator result ≡ neg_ℤ (numerator self.now) }
        ensures den { denominator result ≡ denominator self.now }
    {
        Frac {
            num: -self.num,
            den: self.den,
        }
    }

    /// The product, or None where its lowest terms leave the range.
    pub fn mul(&self, other: &Frac) -> Option<Frac>
        ensures { Tells (IsProduct self.now other.now) result }
    {
        if self.den == 1 && other.den == 1 {
            self.whole_product(other)
        } else {
            self.cancelled_product(other)
        }
    }

    /// The product of whole numbers.
    fn whole_product(&self, other: &Frac) -> Option<Frac>
        requires first { denominator self.now ≡ 1 }
        requires second { denominator other.now ≡ 1 }
        ensures { Tells (IsProduct self.now other.now) result }
    {
        let num = parts::whole_product(self.num, other.num)?;
        Some(over_one(num))
    }

    /// The product, of which each numerator is cancelled with the other denominator first.
    fn cancelled_product(&self, other: &Frac) -> Option<Frac>
        ensures { Tells (IsProduct self.now other.now) result }
    {
        let negative = (self.num < 0) != (other.num < 0);
        let (top, bottom) = parts::cancelled(
            self.num.unsigned_abs(),
            self.den,
            other.num.unsigned_abs(),
            other.den,
        )?;
        Some(signed(negative, top, bottom))
    }

    /// The quotient, or None where its lowest terms leave the range.
    pub fn div(&self, other: &Frac) -> Option<Frac>
        requires { numerator other.now ≢ pos 0 }
        ensures { Tells (IsQuotient self.now other.now) result }
    {
        if other.is_one() {
            Some(*self)
        } else {
            self.mul(&other.reciprocal())
        }
    }

    /// Whether it is 1.
    fn is_one(&self) -> bool
        ensures num { IsTrue result → numerator self.now ≡ pos 1 }
        ensures den { IsTrue result → denominator self.now ≡ 1 }
    {
        self.num == 1 && self.den == 1
    }

    /// One over the fraction, which is not 0.
    fn reciprocal(&self) -> Frac
        requires { numerator self.now ≢ pos 0 }
        ensures { IsReciprocal self.now result }
    {
        signed(self.num < 0, self.den, self.num.unsigned_abs())
    }

    /// The sum, or None where the least common denominator, one of the two numerators over it or
    /// the sum of these leaves the range.
    pub fn add(&self, other: &Frac) -> Option<Frac>
        ensures fits { (m : ℕ) → IsLcm (denominator self.now) (denominator other.now) m → (IsSome result ↔ SumFits self.now other.now m) }
        ensures value { IfSome result (IsSum self.now other.now) }
    {
        if self.den == other.den {
            self.sum_over_same(other)
        } else {
            self.sum_over_least(other)
        }
    }

    /// The sum of fractions with one denominator.
    fn sum_over_same(&self, other: &Frac) -> Option<Frac>
        requires { denominator self.now ≡ denominator other.now }
        ensures fits { IsSome result ↔ Fits (numerator self.now +ℤ numerator other.now) }
        ensures value { IfSome result (IsSum self.now other.now) }
    {
        let num = parts::joined(self.num, other.num)?;
        Some(reduced(num, self.den, self.den))
    }

    /// The sum over the least common denominator.
    fn sum_over_least(&self, other: &Frac) -> Option<Frac>
        ensures fits { (m : ℕ) → IsLcm (denominator self.now) (denominator other.now) m → (IsSome result ↔ SumFits self.now other.now m) }
        ensures value { IfSome result (IsSum self.now other.now) }
    {
        let divisor = gcd(self.den, other.den);
        let (num, den) = parts::over_least(self.num, self.den, other.num, other.den, divisor)?;
        Some(reduced(num, den, divisor))
    }

    /// The difference: the sum with the other negated, or None where that is None.
    pub fn sub(&self, other: &Frac) -> Option<Frac>
        ensures fits { (m : ℕ) → IsLcm (denominator self.now) (denominator other.now) m →
            (IsSome result ↔ DifferenceFits self.now other.now m) }
        ensures value { IfSome result (IsDifference self.now other.now) }
    {
        self.add(&other.neg())
    }
}

/// The order of the values.
impl Ord for Frac {
    ghost use Rattle.std.specs.Prelude.{◌≡◌, refl};
    ghost use Rattle.frac128.specs.Order.{order_of, order_is_total, order_matches_eq};

    ghost cmp = { order_of };

    ghost total = { order_is_total };

    ghost matches_partial_cmp = { λ x y. refl };

    ghost matches_eq = { order_matches_eq };

    fn cmp(&self, other: &Frac) -> Ordering
        ensures { result ≡ order_of self.now other.now }
    {
        if self.den == other.den {
            self.num.cmp(&other.num)
        } else {
            parts::quotient_cmp(self.num, self.den, other.num, other.den)
        }
    }
}

impl PartialOrd for Frac {
    ghost use Rattle.std.specs.Prelude.{refl};
    ghost use Rattle.std.specs.Cmp.{partial_order_from_agreeing_total};
    ghost use Rattle.std.specs.Ordering.{as_partial_cmp};
    ghost use Rattle.frac128.specs.Order.{order_of, order_is_total, order_matches_eq};

    ghost partial_cmp = { as_partial_cmp order_of };

    ghost laws = { partial_order_from_agreeing_total order_of order_is_total (λ x y. refl) order_matches_eq };

    fn partial_cmp(&self, other: &Frac) -> Option<Ordering> {
        Some(self.cmp(other))
    }
}

/// As `-3`, or `2/7` where the denominator is not 1.
impl fmt::Display for Frac {
    ghost use Rattle.std.specs.Prelude.{Some};
    ghost use Rattle.frac128.specs.Text.{text_of};

    ghost output = { λ x. Some (text_of x) };

    fn fmt<W: fmt::Write>(&self, f: &mut fmt::Formatter<W>) -> fmt::Result {
        let num = self.num;
        let den = self.den;
        if den == 1 {
            write!(f, "{num}")
        } else {
            write!(f, "{num}/{den}")
        }
    }
}
