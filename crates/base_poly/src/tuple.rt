// Tuples of indices, and polynomials.
ghost use Rattle.std.specs.Prelude.{◌≡◌, ◌<◌, ◌^◌, ◌+◌, ◌∷◌, ◌++◌, List, map, length, vec_len, refl, IfOk, OnOk};
ghost use Rattle.std.specs.Ordering.{on, eq_by_cmp, as_partial_cmp};
ghost use Rattle.std.specs.Cmp.{partial_equiv_from_equiv, partial_order_from_agreeing_total};
ghost use Rattle.std.proofs.lemmas.Cmp.{on_equiv, eq_by_cmp_equiv};
ghost use Rattle.base_poly.specs.Plain.{Plain, many, degrees, capped, order, writes};
ghost use Rattle.base_poly.specs.Indices.{capped_order};
ghost use Rattle.base_poly.specs.Read.{index_of, plains_of};
ghost use Rattle.base_poly.specs.Total.{order_total, capped_total, alike_capped, writes_alike};

use crate::index::{Index, copy_all, feed_all, order_of_all};
use std::alloc::{AllocError, Global};
use std::cmp::Ordering;
use std::hash::{Hash, Hasher};
use std::marker::Model;

/// Indices, one for each variable or argument, seen by contracts as their list.
#[derive(Debug, Drop)]
pub struct Tuple {
    parts: Vec<Index>,
}

impl Model for Tuple {
    ghost use Rattle.std.specs.Prelude.{List};
    ghost use Rattle.std.specs.Coded.{coded_list};
    ghost use Rattle.base_poly.specs.Plain.{Plain};
    ghost use Rattle.base_poly.specs.Stored.{coded_plain};
    ghost use Rattle.base_poly.specs.Read.{plains_of};

    ghost Value = { List Plain };

    ghost coded = { coded_list coded_plain };

    ghost view = { λ t. plains_of t.parts.items };
}

impl Tuple {
    /// The tuple of these indices.
    pub fn new(parts: Vec<Index>) -> Tuple
        ensures { result ≡ plains_of parts.items }
    {
        Tuple { parts }
    }

    /// The indices.
    pub fn parts(&self) -> &[Index]
        ensures { plains_of result.now ≡ self.now }
    {
        &self.parts
    }

    /// The sum of the degrees of the indices.
    pub fn degree(&self) -> u32
        requires { degrees self.now < 2 ^ 32 }
        ensures { result ≡ degrees self.now }
    {
        self.capped_degree()
    }

    // The same, or 2^32 - 1 where it is greater.
    fn capped_degree(&self) -> u32
        ensures { result ≡ capped (degrees self.now) }
    {
        let mut sum: u32 = 0;
        for part in &self.parts {
            sum = sum.saturating_add(part.capped_degree());
        }
        sum
    }

    // By degree, and then component by component.
    fn order(&self, other: &Tuple) -> Ordering
        ensures { result ≡ capped_order self.now other.now }
    {
        match self.capped_degree().cmp(&other.capped_degree()) {
            Ordering::Less => Ordering::Less,
            Ordering::Equal => order_of_all(&self.parts, &other.parts),
            Ordering::Greater => Ordering::Greater,
        }
    }

    /// A copy.
    pub fn copy(&self, alloc: Global) -> Result<Tuple, AllocError>
        ensures { IfOk result (λ copy. copy ≡ self.now) }
    {
        Ok(Tuple {
            parts: copy_all(alloc, &self.parts)?,
        })
    }

    /// The tuple with this index before the others.
    pub fn with_first(&self, alloc: Global, first: &Index) -> Result<Tuple, AllocError>
        ensures { IfOk result (λ led. led ≡ index_of first.now ∷ self.now) }
    {
        let mut parts = Vec::with_capacity(alloc, self.parts.len() + 1)?;
        parts.push(first.copy(alloc)?)?;
        for part in &self.parts {
            parts.push(part.copy(alloc)?)?;
        }
        Ok(Tuple { parts })
    }

    /// The index of a list or tree with these indices as its entries.
    pub fn into_list(self) -> Index
        ensures { index_of result ≡ many self }
    {
        Index::List(self.parts)
    }
}

// Appends the index before each of the tuples.
pub fn append_with_head(
    alloc: Global,
    found: &mut Vec<Tuple>,
    first: &Index,
    rests: &[Tuple],
) -> Result<(), AllocError>
    ensures all { OnOk result (found.new.items ≡ found.old.items ++ map (λ r. index_of first.now ∷ r) rests.now) }
    ensures len { OnOk result (vec_len found.new ≡ vec_len found.old + length rests.now) }
{
    for rest in rests {
        found.push(rest.with_first(alloc, first)?)?;
    }
    Ok(())
}

impl PartialEq for Tuple {
    ghost eq = { on many (eq_by_cmp order) };

    ghost laws = { partial_equiv_from_equiv (on_equiv many (eq_by_cmp_equiv order_total)) };

    fn eq(&self, other: &Tuple) -> bool {
        match order_of_all(&self.parts, &other.parts) {
            Ordering::Equal => true,
            Ordering::Less | Ordering::Greater => false,
        }
    }
}

impl Eq for Tuple {
    ghost laws = { on_equiv many (eq_by_cmp_equiv order_total) };
}

impl PartialOrd for Tuple {
    ghost partial_cmp = { as_partial_cmp capped_order };

    ghost laws = { partial_order_from_agreeing_total capped_order capped_total (λ x y. refl) alike_capped };

    fn partial_cmp(&self, other: &Tuple) -> Option<Ordering> {
        Some(self.order(other))
    }
}

impl Ord for Tuple {
    ghost cmp = { capped_order };

    ghost total = { capped_total };

    ghost matches_partial_cmp = { λ x y. refl };

    ghost matches_eq = { alike_capped };

    fn cmp(&self, other: &Tuple) -> Ordering {
        self.order(other)
    }
}

impl Hash for Tuple {
    ghost hash_input = { λ t. writes (many t) };

    ghost respects_eq = { λ x y. writes_alike (many x) (many y) };

    fn hash<H: Hasher>(&self, state: &mut H) {
        feed_all(&self.parts, state);
    }
}

/// A polynomial in base polynomials: the sum of its coefficients times the base polynomials of its
/// tuples, over a denominator.
#[derive(Debug, Drop)]
pub struct Poly {
    pub den: i128,
    pub terms: Vec<(Tuple, i128)>,
}
