// Products of indices.
ghost use Rattle.std.specs.Prelude.{◌≡◌, ◌<◌, ◌≤◌, ◌+◌, ◌*◌, ◌∷◌, [], ◌++◌, ◌^◌, All, map, flat_map, length, vec_len, IfOk, OnOk, ℕ};
ghost use Rattle.raml_syntax.specs.Tree.{Type'};
ghost use Rattle.raml_syntax.specs.Value.{Value};
ghost use Rattle.base_poly.specs.Plain.{Pair, Then, OneEntry, many, deg};
ghost use Rattle.base_poly.specs.Indices.{IsIndex};
ghost use Rattle.base_poly.specs.Base.{base};
ghost use Rattle.base_poly.specs.Product.{product};
ghost use Rattle.base_poly.specs.Count.{counts_of, count_at, count_one, tallied, counted_worth, IsTerm};
ghost use Rattle.base_poly.specs.Read.{index_of, plains_of};

use crate::index::{Index, copy_all};
use crate::list::{append_options, as_lists, pair};
use crate::tuple::{Tuple, append_with_head};
use indexmap::IndexMap;
use std::alloc::{AllocError, Global};

/// The product of two indices of one type, each of degree at most 4.
///
/// At every value the product of the two base polynomials is the sum of those in the map, each times
/// its number.
pub fn multiply(
    alloc: Global,
    left: &Index,
    right: &Index,
) -> Result<IndexMap<Index, u64>, AllocError>
    requires one_type { (A : Type') × IsIndex (index_of left.now) A × IsIndex (index_of right.now) A }
    requires low { (deg (index_of left.now) ≤ 4) × (deg (index_of right.now) ≤ 4) }
    ensures worth { IfOk result (λ found. (v : Value) → base (index_of left.now) v * base (index_of right.now) v
        ≡ counted_worth v (counts_of found.entries)) }
    ensures tallied { IfOk result (λ found. counts_of found.entries ≡ tallied (product (index_of left.now) (index_of right.now))) }
    ensures terms { IfOk result (λ found. All (IsTerm (index_of left.now) (index_of right.now)) (counts_of found.entries)) }
{
    let terms = product(alloc, left, right)?;
    tally(alloc, &terms)
}

// How often each index stands in the list.
#[tactic(auto, using(crate::proofs::Counted::count_within, crate::proofs::Counted::one_more_number,))]
fn tally(alloc: Global, terms: &[Index]) -> Result<IndexMap<Index, u64>, AllocError>
    requires { length terms.now < 2 ^ 32 }
    ensures { IfOk result (λ found. counts_of found.entries ≡ tallied (plains_of terms.now)) }
{
    let mut found = IndexMap::new(alloc);
    for term in terms {
        count_one(&mut found, term.copy(alloc)?)?;
    }
    Ok(found)
}

// Counts the index once more.
fn count_one(found: &mut IndexMap<Index, u64>, index: Index) -> Result<(), AllocError>
    requires { count_at (index_of index) (counts_of found.old.entries) < 2 ^ 32 }
    ensures { OnOk result (counts_of found.new.entries ≡ count_one (counts_of found.old.entries) (index_of index)) }
{
    let before = count_at(found, &index);
    found.insert(index, before + 1)?;
    Ok(())
}

// The number of the index, 0 where it has none.
#[tactic(auto, using(crate::proofs::Counted::looked_up))]
fn count_at(found: &IndexMap<Index, u64>, index: &Index) -> u64
    ensures { result ≡ count_at (index_of index.now) (counts_of found.now.entries) }
{
    match found.get(index) {
        Some(number) => *number,
        None => 0,
    }
}

// The indices whose base polynomials add up to the product, each as often as it counts.
#[cycle(product)]
fn product(alloc: Global, left: &Index, right: &Index) -> Result<Vec<Index>, AllocError>
    ensures { IfOk result (λ found. plains_of found.items ≡ product (index_of left.now) (index_of right.now)) }
{
    match left {
        Index::Unit => Ok(vec![in alloc; Index::Unit]?),
        Index::Pair(first, second) => match right {
            Index::Pair(other, another) => {
                let heads = product(alloc, first, other)?;
                let tails = product(alloc, second, another)?;
                pairs(alloc, &heads, &tails)
            }
            Index::Unit | Index::List(_) | Index::Opt(_) => Ok(Vec::new(alloc)),
        },
        Index::List(entries) => match right {
            Index::List(others) => {
                let found = lists_product(alloc, entries, others)?;
                as_lists(alloc, found)
            }
            Index::Unit | Index::Pair(..) | Index::Opt(_) => Ok(Vec::new(alloc)),
        },
        Index::Opt(None) => match right {
            Index::Opt(_) => Ok(vec![in alloc; right.copy(alloc)?]?),
            Index::Unit | Index::Pair(..) | Index::List(_) => Ok(Vec::new(alloc)),
        },
        Index::Opt(Some(entry)) => match right {
            Index::Opt(None) => Ok(vec![in alloc; left.copy(alloc)?]?),
            Index::Opt(Some(other)) => {
                let mut found = Vec::new(alloc);
                append_options(alloc, &mut found, product(alloc, entry, other)?)?;
                Ok(found)
            }
            Index::Unit | Index::Pair(..) | Index::List(_) => Ok(Vec::new(alloc)),
        },
    }
}

// The pairs of each first with each second.
fn pairs(alloc: Global, firsts: &[Index], seconds: &[Index]) -> Result<Vec<Index>, AllocError>
    ensures { IfOk result (λ found. plains_of found.items ≡ flat_map
        (λ h. map (λ k. Pair h k) (plains_of seconds.now)) (plains_of firsts.now)) }
{
    let mut found = Vec::new(alloc);
    for first in firsts {
        pair_all(alloc, &mut found, first, seconds)?;
    }
    Ok(found)
}

// Appends the pairs of the first with each second.
fn pair_all(
    alloc: Global,
    found: &mut Vec<Index>,
    first: &Index,
    seconds: &[Index],
) -> Result<(), AllocError>
    ensures { OnOk result (plains_of found.new.items ≡ plains_of found.old.items ++ map
        (λ k. Pair (index_of first.now) k) (plains_of seconds.now)) }
{
    for second in seconds {
        found.push(pair(alloc, first, second.copy(alloc)?)?)?;
    }
    Ok(())
}

// The products of two list indices with these entries.
#[cycle(product)]
fn lists_product(alloc: Global, left: &[Index], right: &[Index]) -> Result<Vec<Tuple>, AllocError>
    ensures { IfOk result (λ found. map many found.items ≡ product (many (plains_of left.now)) (many (plains_of right.now))) }
{
    match left {
        [] => Ok(vec![in alloc; Tuple::new(copy_all(alloc, right)?)]?),
        [first, rest @ ..] => led_product(alloc, first, rest, right),
    }
}

// The products of the list index with this first entry and this rest.
#[cycle(product)]
fn led_product(
    alloc: Global,
    first: &Index,
    rest: &[Index],
    right: &[Index],
) -> Result<Vec<Tuple>, AllocError>
    ensures { IfOk result (λ found. map many found.items
        ≡ product (Then (index_of first.now) (many (plains_of rest.now))) (many (plains_of right.now))) }
{
    match right {
        [] => {
            let tuple = Tuple::new(copy_all(alloc, rest)?).with_first(alloc, first)?;
            Ok(vec![in alloc; tuple]?)
        }
        [other, others @ ..] => {
            let mine = lists_product(alloc, rest, right)?;
            mixed_product(alloc, first, rest, &mine, other, others)
        }
    }
}

// The products of two list indices with these first entries and rests, where the first's alone may
// stand before each of `mine`.
#[cycle(product)]
fn mixed_product(
    alloc: Global,
    first: &Index,
    rest: &[Index],
    mine: &[Tuple],
    other: &Index,
    others: &[Index],
) -> Result<Vec<Tuple>, AllocError>
    ensures { IfOk result (λ found. map many found.items ≡ map (λ k. Then (index_of first.now) k) (map many mine.now)
        ++ (map (λ k. Then (index_of other.now) k)
        (product (Then (index_of first.now) (many (plains_of rest.now))) (many (plains_of others.now)))
        ++ flat_map (λ h. map (λ k. Then h k)
        (product (many (plains_of rest.now)) (many (plains_of others.now)))) (product (index_of first.now) (index_of other.now)))) }
{
    let theirs = led_product(alloc, first, rest, others)?;
    let heads = product(alloc, first, other)?;
    let tails = lists_product(alloc, rest, others)?;
    let mut found = Vec::new(alloc);
    append_with_head(alloc, &mut found, first, mine)?;
    append_with_head(alloc, &mut found, other, &theirs)?;
    append_with_heads(alloc, &mut found, &heads, &tails)?;
    Ok(found)
}

// Appends each of the firsts before each of the tuples.
fn append_with_heads(
    alloc: Global,
    found: &mut Vec<Tuple>,
    firsts: &[Index],
    tuples: &[Tuple],
) -> Result<(), AllocError>
    ensures { OnOk result (found.new.items ≡ found.old.items ++ flat_map (λ h. map (λ r. h ∷ r) tuples.now) (plains_of firsts.now)) }
{
    for first in firsts {
        append_with_head(alloc, found, first, tuples)?;
    }
    Ok(())
}
