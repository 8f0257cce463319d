// Numbers of a certificate.
ghost use Rattle.std.specs.Prelude.{◌≡◌, IfOk, OnOk};
ghost use Rattle.rules_spec.specs.Capped.{capped};

use crate::capped::capped_product;
use crate::kind::Kind;
use std::alloc::{AllocError, Global};
use std::marker::Model;

/// A number less the prices that were taken from it. A part that would leave 128 bits stands at the
/// greatest number.
#[derive(Debug, Drop)]
pub struct Amount {
    plus: u128,
    minus: u128,
}

impl Model for Amount {
    ghost use Rattle.rules_spec.specs.Kinds as k;

    ghost Value = { k.Amount };

    ghost view = { λ a. record { plus = a.plus; minus = a.minus } };
}

impl Amount {
    /// A number from which nothing was taken.
    pub fn of(plus: u128) -> Amount
        ensures { result ≡ record { plus = plus; minus = 0 } }
    {
        Amount { plus, minus: 0 }
    }

    /// The number.
    pub fn plus(&self) -> u128
        ensures { result ≡ self.now.plus }
    {
        self.plus
    }

    /// The prices that were taken from it.
    pub fn minus(&self) -> u128
        ensures { result ≡ self.now.minus }
    {
        self.minus
    }
}

impl Kind for Amount {
    ghost kind = { capped };

    fn none(alloc: Global) -> Amount {
        Amount { plus: 0, minus: 0 }
    }

    fn number(alloc: Global, n: u32, scale: u128) -> Amount {
        Amount {
            plus: capped_product(u128::from(n), scale),
            minus: 0,
        }
    }

    fn copy(&self, alloc: Global) -> Result<Amount, AllocError> {
        Ok(Amount {
            plus: self.plus,
            minus: self.minus,
        })
    }

    fn add(&mut self, times: u64, other: &Amount) -> Result<(), AllocError> {
        let factor = u128::from(times);
        self.plus = self.plus.saturating_add(capped_product(factor, other.plus));
        self.minus = self
            .minus
            .saturating_add(capped_product(factor, other.minus));
        Ok(())
    }

    fn multiple(&self, alloc: Global, times: u128) -> Result<Amount, AllocError> {
        Ok(Amount {
            plus: capped_product(times, self.plus),
            minus: capped_product(times, self.minus),
        })
    }

    fn raise(&mut self, n: u32, scale: u128) {
        let price = capped_product(u128::from(n), scale);
        self.plus = price.saturating_add(self.plus);
        self.minus = 0u128.saturating_add(self.minus);
    }

    fn lower(&mut self, n: u32, scale: u128) {
        self.minus = self
            .minus
            .saturating_add(capped_product(u128::from(n), scale));
    }
}
