// The numbers of the generator.
ghost use Rattle.std.specs.Prelude.{◌≡◌, IfOk};
ghost use Rattle.rules_spec.specs.Capped.{cap};
ghost use Rattle.constraint_gen.specs.Sums as s;
ghost use Rattle.constraint_gen.specs.Sums.{total_of, sums, IsSum};

use crate::sum::{add_all, multiple, number_in};
use rules_walk::{Kind, capped_product};
use smallvec::SmallVec;
use std::alloc::{AllocError, Global};
use std::marker::Model;

/// A sum of unknowns, each so many times, and of a number, less the prices that were taken from it. A
/// number that would leave 128 bits stands at the greatest one. Most have one unknown or two, which need
/// no memory of their own.
#[derive(Drop)]
pub struct Form {
    terms: SmallVec<(u32, u128), 2>,
    plus: u128,
    minus: u128,
}

impl Model for Form {
    ghost use Rattle.constraint_gen.specs.Sums.{Sum, IsSum};

    ghost Value = { Sum };

    ghost view = { λ f. record { terms = f.terms.items; plus = f.plus; minus = f.minus } };

    ghost invariant = { λ f. IsSum f.terms.items };
}

impl Form {
    /// An unknown once.
    pub fn unknown(alloc: Global, unknown: u32) -> Result<Form, AllocError>
        ensures { IfOk result (λ f. f ≡ s.unknown unknown) }
    {
        let mut terms = SmallVec::new(alloc);
        terms.push((unknown, 1))?;
        Ok(Form {
            terms,
            plus: 0,
            minus: 0,
        })
    }

    /// The unknowns, ascending, and how often each is taken.
    pub fn terms(&self) -> &[(u32, u128)]
        ensures terms { result.now ≡ self.now.terms }
        ensures sum { IsSum self.now.terms }
    {
        self.terms.as_slice()
    }

    /// How often an unknown is taken.
    pub fn coefficient(&self, unknown: u32) -> u128
        ensures { result ≡ cap (total_of unknown self.now.terms) }
    {
        number_in(self.terms.as_slice(), unknown)
    }

    /// The number.
    pub fn plus(&self) -> u128
        ensures { result ≡ self.now.plus }
    {
        self.plus
    }

    /// The prices that were taken.
    pub fn minus(&self) -> u128
        ensures { result ≡ self.now.minus }
    {
        self.minus
    }
}

impl Kind for Form {
    ghost kind = { sums };

    fn none(alloc: Global) -> Form {
        Form {
            terms: SmallVec::new(alloc),
            plus: 0,
            minus: 0,
        }
    }

    fn number(alloc: Global, n: u32, scale: u128) -> Form {
        Form {
            terms: SmallVec::new(alloc),
            plus: capped_product(u128::from(n), scale),
            minus: 0,
        }
    }

    fn copy(&self, alloc: Global) -> Result<Form, AllocError> {
        Ok(Form {
            terms: SmallVec::from_slice(alloc, self.terms.as_slice())?,
            plus: self.plus,
            minus: self.minus,
        })
    }

    fn add(&mut self, times: u64, other: &Form) -> Result<(), AllocError> {
        let factor = u128::from(times);
        add_all(&mut self.terms, factor, other.terms.as_slice())?;
        self.plus = self.plus.saturating_add(capped_product(factor, other.plus));
        self.minus = self
            .minus
            .saturating_add(capped_product(factor, other.minus));
        Ok(())
    }

    fn multiple(&self, alloc: Global, times: u128) -> Result<Form, AllocError> {
        Ok(Form {
            terms: multiple(alloc, self.terms.as_slice(), times)?,
            plus: capped_product(times, self.plus),
            minus: capped_product(times, self.minus),
        })
    }

    fn raise(&mut self, n: u32, scale: u128) {
        let price = capped_product(u128::from(n), scale);
        self.plus = price.saturating_add(self.plus);
        self.minus = 0u128.saturating_add(self.minus);
    }

    fn lower(&mut self, n: u32, scale: u128) {
        self.minus = self
            .minus
            .saturating_add(capped_product(u128::from(n), scale));
    }
}
