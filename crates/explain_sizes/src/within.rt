// The greatest size that a bound allows.
ghost use Rattle.std.specs.Prelude.{◌≡◌, ◌≤◌, ◌<◌, ◌+◌, ◌^◌, nat_le, true, false, IfOk};
ghost use Rattle.base_poly.specs.Poly.{IsPoly};
ghost use Rattle.poly_point.specs.Point.{AreLow};
ghost use Rattle.explain_sizes.specs.Open.{is_kept, KeepsWithin};
ghost use Rattle.explain_sizes.specs.Read.{all_open};

use crate::open_size::{OpenSize, fill_all};
use crate::value::value_at;
use base_poly::Poly;
use std::alloc::{AllocError, Global};

/// The greatest size: it has ten digits.
const GREATEST: u64 = 9_999_999_999;

/// At which numbers in the open places a bound is still at most some number.
#[derive(Clone, Copy, Debug, PartialEq, Eq)]
pub enum Within {
    /// At each number of at most ten digits.
    Any,
    /// At those up to this one, and at no greater one.
    UpTo(u64),
    /// At none, not even at 0.
    Never,
}

/// At which numbers in the open places the whole part of the polynomial's value is at most `most`.
pub fn greatest_within(
    alloc: Global,
    poly: &Poly,
    sizes: &[OpenSize],
    most: u128,
) -> Result<Within, AllocError>
    requires poly { IsPoly poly.now }
    requires low { AreLow poly.now }
    requires most { most ≤ 2 ^ 127 }
    ensures { IfOk result (λ within. KeepsWithin poly.now (all_open sizes.now) most within) }
{
    if is_kept(alloc, poly, sizes, most, GREATEST)? {
        Ok(Within::Any)
    } else if is_kept(alloc, poly, sizes, most, 0)? {
        Ok(Within::UpTo(greatest_kept(alloc, poly, sizes, most)?))
    } else {
        Ok(Within::Never)
    }
}

// The last number at which it is kept, between 0, where it is, and the greatest, where it is not.
fn greatest_kept(
    alloc: Global,
    poly: &Poly,
    sizes: &[OpenSize],
    most: u128,
) -> Result<u64, AllocError>
    requires poly { IsPoly poly.now }
    requires low { AreLow poly.now }
    requires most { most ≤ 2 ^ 127 }
    requires first { is_kept poly.now (all_open sizes.now) most 0 ≡ true }
    requires last { is_kept poly.now (all_open sizes.now) most 9999999999 ≡ false }
    ensures below { IfOk result (λ n. n + 1 < 10 ^ 10) }
    ensures kept { IfOk result (λ n. is_kept poly.now (all_open sizes.now) most n ≡ true) }
    ensures left { IfOk result (λ n. is_kept poly.now (all_open sizes.now) most (n + 1) ≡ false) }
{
    let mut kept = 0;
    let mut left = GREATEST;
    while left - kept > 1 {
        let middle = kept + (left - kept) / 2;
        if is_kept(alloc, poly, sizes, most, middle)? {
            kept = middle;
        } else {
            left = middle;
        }
    }
    Ok(kept)
}

// Whether the value is at most `most` with this number at each open place.
fn is_kept(
    alloc: Global,
    poly: &Poly,
    sizes: &[OpenSize],
    most: u128,
    number: u64,
) -> Result<bool, AllocError>
    requires poly { IsPoly poly.now }
    requires low { AreLow poly.now }
    requires most { most ≤ 2 ^ 127 }
    ensures { IfOk result (λ kept. kept ≡ is_kept poly.now (all_open sizes.now) most number) }
{
    let filled = fill_all(alloc, sizes, number)?;
    match value_at(poly, &filled) {
        None => Ok(false),
        Some(value) => Ok(value <= most),
    }
}
