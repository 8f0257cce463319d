// What numbers are multiplied by.
ghost use Rattle.std.specs.Prelude.{◌≡◌, ◌↔◌, IsTrue, ◌<◌, ◌<ℤ◌, ◌*ℤ◌, ℕ, ℤ, pos, unsigned_abs, FitsSigned};
ghost use Rattle.std.specs.Int.{w128};
ghost use Rattle.std.specs.Option.{SomeIff};
ghost use Rattle.simplex_integers.specs.Wholes.{most};

use std::marker::Model;

/// A positive number. Contracts see it as a natural one.
#[derive(Debug, Drop)]
pub struct Factor {
    value: i128,
}

impl Model for Factor {
    ghost use Rattle.std.specs.Prelude.{ℕ, pos, ◌<ℤ◌, unsigned_abs};

    ghost Value = { ℕ };

    ghost view = { λ factor. unsigned_abs factor.value };

    ghost invariant = { λ factor. pos 0 <ℤ factor.value };
}

impl Factor {
    /// The factor of this size.
    pub fn new(value: i128) -> Factor
        requires { pos 0 <ℤ value }
        ensures { result ≡ unsigned_abs value }
    {
        Factor { value }
    }

    /// The number.
    pub fn value(&self) -> i128
        ensures value { result ≡ pos self.now }
        ensures positive { 0 < self.now }
        ensures fits { self.now < most }
    {
        self.value
    }

    /// Whether it is 1.
    pub fn is_one(&self) -> bool
        ensures { IsTrue result ↔ (self.now ≡ 1) }
    {
        self.value.unsigned_abs() == 1
    }

    /// Its size.
    pub fn size(&self) -> u128
        ensures { result ≡ self.now }
    {
        self.value.unsigned_abs()
    }

    /// A number multiplied, or None where it does not fit.
    pub fn times(&self, number: i128) -> Option<i128>
        ensures { SomeIff result (FitsSigned w128 (pos self.now *ℤ number)) (pos self.now *ℤ number) }
    {
        self.value.checked_mul(number)
    }
}
