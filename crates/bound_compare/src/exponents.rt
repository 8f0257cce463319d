// Exponents, one for each parameter.
ghost use Rattle.std.specs.Prelude.{◌≡◌, ◌∷◌, List, refl, sum, IfOk};
ghost use Rattle.std.specs.Ordering.{as_partial_cmp};
ghost use Rattle.std.specs.Str.{bytes_eq};
ghost use Rattle.std.specs.Cmp.{partial_equiv_from_equiv, partial_order_from_agreeing_total};
ghost use Rattle.std.proofs.lemmas.Cmp.{nat_list_eq_equiv};
ghost use Rattle.bound_compare.specs.Powers.{exponent_order};
ghost use Rattle.bound_compare.specs.Order.{exponents_total, tied_exponents};

use std::alloc::{AllocError, Global};
use std::cmp::Ordering;
use std::marker::Model;

/// Exponents, one for each parameter, seen by contracts as their list.
#[derive(Debug, Drop)]
pub struct Exponents {
    each: Vec<u8>,
}

impl Model for Exponents {
    ghost use Rattle.std.specs.Prelude.{ℕ, List};
    ghost use Rattle.std.specs.Coded.{coded_list, coded_ℕ};

    ghost Value = { List ℕ };

    ghost coded = { coded_list coded_ℕ };

    ghost view = { λ e. e.each.items };
}

impl Exponents {
    /// These exponents.
    pub fn new(each: Vec<u8>) -> Exponents
        ensures { result ≡ each.items }
    {
        Exponents { each }
    }

    /// The exponents one by one.
    pub fn each(&self) -> &[u8]
        ensures { result.now ≡ self.now }
    {
        &self.each
    }

    /// A copy.
    pub fn copy(&self, alloc: Global) -> Result<Exponents, AllocError>
        ensures { IfOk result (λ copy. copy ≡ self.now) }
    {
        let mut each = Vec::with_capacity(alloc, self.each.len())?;
        each.extend_from_slice(&self.each)?;
        Ok(Exponents { each })
    }

    /// The exponents with this one before them.
    pub fn with_first(&self, alloc: Global, first: u8) -> Result<Exponents, AllocError>
        ensures { IfOk result (λ led. led ≡ first ∷ self.now) }
    {
        let mut each = Vec::with_capacity(alloc, self.each.len())?;
        each.push(first)?;
        each.extend_from_slice(&self.each)?;
        Ok(Exponents { each })
    }

    // The sum of the exponents.
    fn sum(&self) -> u128
        ensures { result ≡ sum self.now }
    {
        let mut sum: u128 = 0;
        for exponent in &self.each {
            sum += u128::from(*exponent);
        }
        sum
    }

    // By their sum, and then one by one.
    fn order(&self, other: &Exponents) -> Ordering
        ensures { result ≡ exponent_order self.now other.now }
    {
        match self.sum().cmp(&other.sum()) {
            Ordering::Less => Ordering::Less,
            Ordering::Equal => self.each.cmp(&other.each),
            Ordering::Greater => Ordering::Greater,
        }
    }
}

impl PartialEq for Exponents {
    ghost eq = { bytes_eq };

    ghost laws = { partial_equiv_from_equiv nat_list_eq_equiv };

    fn eq(&self, other: &Exponents) -> bool {
        self.each == other.each
    }
}

impl Eq for Exponents {
    ghost laws = { nat_list_eq_equiv };
}

impl PartialOrd for Exponents {
    ghost partial_cmp = { as_partial_cmp exponent_order };

    ghost laws = { partial_order_from_agreeing_total exponent_order exponents_total (λ x y. refl) tied_exponents };

    fn partial_cmp(&self, other: &Exponents) -> Option<Ordering> {
        Some(self.order(other))
    }
}

impl Ord for Exponents {
    ghost cmp = { exponent_order };

    ghost total = { exponents_total };

    ghost matches_partial_cmp = { λ x y. refl };

    ghost matches_eq = { tied_exponents };

    fn cmp(&self, other: &Exponents) -> Ordering {
        self.order(other)
    }
}
