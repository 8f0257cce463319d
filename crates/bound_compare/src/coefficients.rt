// Two polynomials compared by their coefficients.
ghost use Rattle.std.specs.Prelude.{◌≡◌, ◌≢◌, ◌≤◌, ◌*◌, map, length, nat_le, IfSome};
ghost use Rattle.std.specs.Bool.{Decides};
ghost use Rattle.std.specs.Option.{option_map};
ghost use Rattle.std.specs.List.{IsDistinct};
ghost use Rattle.base_poly.specs.Plain.{alike};
ghost use Rattle.base_poly.specs.Poly.{magnitudes, IsPoly};
ghost use Rattle.bound_compare.specs.Compare.{sum_of, term_at, AtMost, Stands};
ghost use Rattle.bound_compare.specs.Tests.{relation_of, all_at_most, relation_between};

use crate::relation::Relation;
use base_poly::{Poly, Tuple};
use raml_num::cross_cmp;
use std::cmp::Ordering;

/// How the coefficients of the first stand to those of the second, as exact fractions: a tuple without
/// a term has the coefficient 0.
///
/// Takes no memory, and linear time where both have their terms in one order.
pub fn compare(first: &Poly, second: &Poly) -> Relation
    requires first { IsPoly first.now }
    requires second { IsPoly second.now }
    ensures stands { Stands result (sum_of first.now) (sum_of second.now) }
    ensures found { result ≡ relation_between (sum_of first.now) (sum_of second.now) }
{
    let at_most = is_at_most(first, second);
    let at_least = is_at_most(second, first);
    relation_of(at_most, at_least)
}

// The relation by whether each coefficient is at most the other's, and at least.
fn relation_of(at_most: bool, at_least: bool) -> Relation
    ensures { result ≡ relation_of at_most at_least }
{
    if at_most {
        if at_least {
            Relation::Equal
        } else {
            Relation::Below
        }
    } else if at_least {
        Relation::Above
    } else {
        Relation::Mixed
    }
}

// Whether each coefficient is at most that of the second.
fn is_at_most(first: &Poly, second: &Poly) -> bool
    requires first { IsPoly first.now }
    requires second { IsPoly second.now }
    ensures { Decides result (AtMost (sum_of first.now) (sum_of second.now)) }
{
    let den = first.den.unsigned_abs();
    let other_den = second.den.unsigned_abs();
    are_at_most(&first.terms, den, &second.terms, other_den)
}

// The same of terms over denominators. A tuple is first looked for behind the one before.
fn are_at_most(
    terms: &[(Tuple, i128)],
    den: u128,
    others: &[(Tuple, i128)],
    other_den: u128,
) -> bool
    requires den { den ≢ 0 }
    requires other_den { other_den ≢ 0 }
    requires distinct { IsDistinct alike (map (λ t. t.0) others.now) }
    ensures { result ≡ all_at_most (magnitudes terms.now) den (magnitudes others.now) other_den }
{
    let mut from = 0;
    for (tuple, number) in terms {
        let number = number.unsigned_abs();
        if number != 0 {
            match find(others, from, tuple) {
                None => return false,
                Some((place, other)) => {
                    if !quotient_at_most(number, den, other, other_den) {
                        return false;
                    }
                    from = place;
                }
            }
        }
    }
    true
}

// Whether `a / b` is at most `c / d`.
fn quotient_at_most(a: u128, b: u128, c: u128, d: u128) -> bool
    requires b { b ≢ 0 }
    requires d { d ≢ 0 }
    ensures { result ≡ nat_le (a * d) (c * b) }
{
    match cross_cmp(a, b, c, d) {
        Ordering::Less | Ordering::Equal => true,
        Ordering::Greater => false,
    }
}

// The number in the tuple's term, and the place behind it.
#[tactic(auto, using(crate::proofs::Numbers::found_later, crate::proofs::Numbers::found_early))]
fn find(terms: &[(Tuple, i128)], from: usize, tuple: &Tuple) -> Option<(usize, u128)>
    requires from { from ≤ length terms.now }
    requires distinct { IsDistinct alike (map (λ t. t.0) terms.now) }
    ensures found { option_map (λ f. f.1) result ≡ term_at tuple.now (magnitudes terms.now) }
    ensures place { IfSome result (λ f. f.0 ≤ length terms.now) }
{
    match first_place(&terms[from..], tuple) {
        Some((place, number)) => Some((from + place, number)),
        None => first_place(&terms[..from], tuple),
    }
}

// The same, from the first term on.
fn first_place(terms: &[(Tuple, i128)], tuple: &Tuple) -> Option<(usize, u128)>
    ensures found { option_map (λ f. f.1) result ≡ term_at tuple.now (magnitudes terms.now) }
    ensures place { IfSome result (λ f. f.0 ≤ length terms.now) }
{
    let mut place = 0;
    for (other, number) in terms {
        place += 1;
        if tuple == other {
            return Some((place, number.unsigned_abs()));
        }
    }
    None
}
