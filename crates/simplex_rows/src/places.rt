//! Whole numbers that stand in the places of their columns.

ghost use Rattle.std.specs.Prelude.{◌≡◌, ◌≤◌, ◌^◌, length, pos, ◌<ℤ◌, ◌≤ℤ◌, IfOk, OnOk};
ghost use Rattle.simplex_rows.specs.ShortRows.{AscendsFrom, WholesEndBefore, listed_from};
ghost use Rattle.simplex_rows.specs.Placed.{AreOf63Bits, StayWithin, ProductsFit, DifferencesFit, AreMultiplied, AreDivided, AreLessened};
ghost use Rattle.simplex_rows.specs.Placed.{AreKept};
ghost use Rattle.simplex_rows.specs.Multiples.{IsMultiple, AreMultiples};

use crate::dividing::{common_with, over};
use std::alloc::{AllocError, Global};

/// So many places reach to the last column.
fn places_for(entries: &[(u32, i64)]) -> usize
    requires { AscendsFrom 0 entries.now }
    ensures ends { WholesEndBefore result entries.now }
    ensures most { result ≤ 2 ^ 32 }
{
    match entries.last() {
        Some(entry) => entry.0 as usize + 1,
        None => 0,
    }
}

/// Gives places to all columns of a list, with 0 in those that are new.
pub(crate) fn reach(numbers: &mut Vec<i64>, entries: &[(u32, i64)]) -> Result<(), AllocError>
    requires ascends { AscendsFrom 0 entries.now }
    requires most { length numbers.old.items ≤ 2 ^ 32 }
    ensures kept { AreKept numbers.old.items numbers.new.items }
    ensures ends { OnOk result (WholesEndBefore (length numbers.new.items) entries.now) }
    ensures most { length numbers.new.items ≤ 2 ^ 32 }
{
    let places = places_for(entries);
    if numbers.len() < places {
        numbers.resize(places, 0)?;
    }
    Ok(())
}

/// Multiplies each number by `p`, which often is 1.
pub(crate) fn multiply(numbers: &mut [i64], p: i64)
    requires { ProductsFit p numbers.old }
    ensures { AreMultiplied p numbers.old numbers.new }
{
    if p == 1 {
        return;
    }
    for place in 0..numbers.len() {
        numbers[place] = p * numbers[place];
    }
}

/// Takes `q` times a list from the numbers, each number of the list in the place of its column.
pub(crate) fn lessen(numbers: &mut [i64], q: i64, lead: &[(u32, i64)])
    requires ascends { AscendsFrom 0 lead.now }
    requires ends { WholesEndBefore (length numbers.old) lead.now }
    requires fit { DifferencesFit q lead.now numbers.old }
    ensures { AreLessened q lead.now numbers.old numbers.new }
{
    for entry in lead {
        let place = entry.0 as usize;
        numbers[place] = numbers[place] - q * entry.1;
    }
}

/// Divides each number by `by`, which divides all.
pub(crate) fn divide(numbers: &mut [i64], by: i64)
    requires positive { pos 0 <ℤ by }
    requires multiples { AreMultiples by numbers.old }
    ensures { AreDivided by numbers.old numbers.new }
{
    for place in 0..numbers.len() {
        numbers[place] = over(numbers[place], by);
    }
}

/// What divides a positive number and all of a list.
pub(crate) fn common_divisor(first: i64, numbers: &[i64]) -> i64
    requires { pos 0 <ℤ first }
    ensures positive { pos 0 <ℤ result }
    ensures first { IsMultiple result first }
    ensures multiples { AreMultiples result numbers.now }
{
    let mut common = first;
    for number in numbers {
        if common == 1 {
            return common;
        }
        common = common_with(common, *number);
    }
    common
}

/// The greatest of a positive number and all of a list, without their signs.
pub(crate) fn greatest(first: i64, numbers: &[i64]) -> i64
    requires positive { pos 0 <ℤ first }
    requires short { AreOf63Bits numbers.now }
    ensures first { first ≤ℤ result }
    ensures within { StayWithin result numbers.now }
{
    let mut most = first;
    for number in numbers {
        most = most.max(number.abs());
    }
    most
}

/// The numbers that are not 0, each behind its column.
pub(crate) fn list_numbers(alloc: Global, numbers: &[i64]) -> Result<Vec<(u32, i64)>, AllocError>
    requires { length numbers.now ≤ 2 ^ 32 }
    ensures { IfOk result (λ all. all.items ≡ listed_from 0 numbers.now) }
{
    let mut all = Vec::new(alloc);
    for place in 0..numbers.len() {
        let number = numbers[place];
        if number != 0 {
            all.push((place as u32, number))?;
        }
    }
    Ok(all)
}
