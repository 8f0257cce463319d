// Sums of unknowns: terms by ascending unknown, each an unknown and how often it is taken.
ghost use Rattle.std.specs.Prelude.{◌≡◌, length, IsTrue, IfOk, IfErr, OnOk};
ghost use Rattle.rules_spec.specs.Capped.{cap};
ghost use Rattle.constraint_gen.specs.Sums.{total_of, put, put_all, scaled, IsSum, IsAt, IsGapFor};

use rules_walk::capped_product;
use smallvec::SmallVec;
use std::alloc::{AllocError, Global};

// Where the term of an unknown is, or where it would go.
fn search(terms: &[(u32, u128)], unknown: u32) -> Result<usize, usize>
    requires sum { IsSum terms.now }
    ensures found { IfOk result (IsAt terms.now unknown) }
    ensures absent { IfErr result (IsGapFor terms.now unknown) }
{
    terms.binary_search_by_key(&unknown, |term| term.0)
}

/// How often an unknown is taken.
pub fn number_in(terms: &[(u32, u128)], unknown: u32) -> u128
    requires sum { IsSum terms.now }
    ensures { result ≡ cap (total_of unknown terms.now) }
{
    match search(terms, unknown) {
        Ok(place) => terms[place].1,
        Err(_) => 0,
    }
}

// Whether all terms are of lesser unknowns.
fn ends_before(terms: &[(u32, u128)], unknown: u32) -> bool
    requires sum { IsSum terms.now }
    ensures { IsTrue result → IsGapFor terms.now unknown (length terms.now) }
{
    let count = terms.len();
    count == 0 || terms[count - 1].0 < unknown
}

// An unknown is taken so many times more.
fn add_term(
    terms: &mut SmallVec<(u32, u128), 2>,
    unknown: u32,
    times: u128,
) -> Result<(), AllocError>
    requires sum { IsSum terms.old.items }
    ensures sum { IsSum terms.new.items }
    ensures put { OnOk result (terms.new.items ≡ put unknown times terms.old.items) }
{
    match search(terms.as_slice(), unknown) {
        Ok(place) => {
            let terms = terms.as_mut_slice();
            let number = terms[place].1.saturating_add(times);
            terms[place] = (unknown, number);
            Ok(())
        }
        Err(place) => {
            terms.insert(place, (unknown, times))?;
            Ok(())
        }
    }
}

// The same, where most unknowns are greater than all before.
fn append_term(
    terms: &mut SmallVec<(u32, u128), 2>,
    unknown: u32,
    times: u128,
) -> Result<(), AllocError>
    requires sum { IsSum terms.old.items }
    ensures sum { IsSum terms.new.items }
    ensures put { OnOk result (terms.new.items ≡ put unknown times terms.old.items) }
{
    if !ends_before(terms.as_slice(), unknown) {
        return add_term(terms, unknown, times);
    }
    terms.push((unknown, times))?;
    Ok(())
}

/// A multiple of all terms of another sum is added.
pub fn add_all(
    terms: &mut SmallVec<(u32, u128), 2>,
    factor: u128,
    others: &[(u32, u128)],
) -> Result<(), AllocError>
    requires sum { IsSum terms.old.items }
    ensures sum { IsSum terms.new.items }
    ensures put { OnOk result (terms.new.items ≡ put_all (scaled factor others.now) terms.old.items) }
{
    for other in others {
        append_term(terms, other.0, capped_product(factor, other.1))?;
    }
    Ok(())
}

/// Each term so many times.
pub fn multiple(
    alloc: Global,
    terms: &[(u32, u128)],
    factor: u128,
) -> Result<SmallVec<(u32, u128), 2>, AllocError>
    requires sum { IsSum terms.now }
    ensures sum { IfOk result (λ made. IsSum made.items) }
    ensures scaled { IfOk result (λ made. made.items ≡ scaled factor terms.now) }
{
    let mut made = SmallVec::with_capacity(alloc, terms.len())?;
    for term in terms {
        made.push((term.0, capped_product(factor, term.1)))?;
    }
    Ok(made)
}
