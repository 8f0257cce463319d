// The row of a condition.
ghost use Rattle.std.specs.Prelude.{◌≡◌, ◌<◌, ◌+◌, ◌-ℤ◌, ℕ, [], pos, nat_lt, true, false, not, ◌&&◌, length, IsTrue, IfOk, IfSome, IfNone};
ghost use Rattle.std.specs.Prelude.{IsOkAnd, SomeIff};
ghost use Rattle.std.specs.List.{list_all};
ghost use Rattle.annot_types.specs.System.{is_kept};
ghost use Rattle.rules_spec.specs.Capped.{cap};
ghost use Rattle.rules_spec.specs.Solving.{row_of};
ghost use Rattle.rules_spec.specs.CappedRows.{fits, within};
ghost use Rattle.linear_rows.specs.Terms.{coefficient};
ghost use Rattle.constraint_gen.specs.Sums.{total_of, StartsFrom, first_number, behind};
ghost use Rattle.constraint_gen.specs.Heard.{pair, surplus, wanted, IsDone, Settles, Leaves};

use crate::form::Form;
use linear_rows::{Row, RowFault};
use std::alloc::{AllocError, Global};

// What the condition asks for beside its unknowns, and so is added on the right side of its row.
fn asked(left: &Form, right: &Form) -> u128
    ensures { result ≡ cap (right.now.plus + left.now.minus) }
{
    right.plus().saturating_add(left.minus())
}

// What it has beside them, and so is subtracted there.
fn held(left: &Form, right: &Form) -> u128
    ensures { result ≡ cap (left.now.plus + right.now.minus) }
{
    left.plus().saturating_add(right.minus())
}

// Whether the sum takes each of the unknowns at least as often as these terms.
fn covers(unknowns: u32, left: &Form, terms: &[(u32, u128)]) -> bool
    ensures { result ≡ list_all (λ t. not (nat_lt t.0 unknowns && nat_lt (cap (total_of t.0 left.now.terms)) t.1)) terms.now }
{
    for term in terms {
        if term.0 < unknowns && left.coefficient(term.0) < term.1 {
            return false;
        }
    }
    true
}

/// Whether the row says something: it has a negative coefficient, or a positive right side.
pub fn is_kept(unknowns: u32, left: &Form, right: &Form) -> bool
    ensures { result ≡ is_kept (row_of unknowns (pair left.now right.now)) }
{
    asked(left, right) > held(left, right) || !covers(unknowns, left, right.terms())
}

// What the first has more than the second; none where it does not fit 128 bits.
fn difference(first: u128, second: u128) -> Option<i128>
    ensures { SomeIff result (fits (pos first -ℤ pos second) ≡ true) (pos first -ℤ pos second) }
{
    first.checked_signed_diff(second)
}

// The least unknown of two sums of unknowns; none where they have no terms.
fn least(first: &[(u32, u128)], second: &[(u32, u128)]) -> Option<u32>
    ensures first { IfSome result (λ u. StartsFrom u first.now) }
    ensures second { IfSome result (λ u. StartsFrom u second.now) }
    ensures some { IfSome result (λ u. length (behind u first.now) + length (behind u second.now) < length first.now + length second.now) }
    ensures none { IfNone result ((first.now ≡ []) × (second.now ≡ [])) }
{
    match first {
        [] => match second {
            [] => None,
            [term, ..] => Some(term.0),
        },
        [term, ..] => match second {
            [] => Some(term.0),
            [other, ..] => Some(if other.0 < term.0 { other.0 } else { term.0 }),
        },
    }
}

// How often the first term takes the unknown, and the terms behind it.
fn split(terms: &[(u32, u128)], unknown: u32) -> (u128, &[(u32, u128)])
    ensures number { result.0 ≡ first_number unknown terms.now }
    ensures rest { result.1.now ≡ behind unknown terms.now }
{
    match terms {
        [term, rest @ ..] if term.0 == unknown => (term.1, rest),
        _ => (0, terms),
    }
}

// The coefficient of an unknown is added to the row, which has none of it. Whether it fits.
fn settle(
    row: &mut Row,
    unknowns: u32,
    unknown: u32,
    first: u128,
    second: u128,
) -> Result<bool, AllocError>
    requires absent { coefficient unknown row.old.terms ≡ pos 0 }
    ensures settles { IsOkAnd result IsTrue → Settles unknown (surplus unknowns unknown first second) row.old.terms row.new.terms }
    ensures leaves { IsOkAnd result (λ ok. ok ≡ false) → fits (surplus unknowns unknown first second) ≡ false }
    ensures right { row.new.right ≡ row.old.right }
{
    if unknown >= unknowns {
        return Ok(true);
    }
    match difference(first, second) {
        Some(number) => match row.add(unknown, number) {
            Ok(()) => Ok(true),
            Err(RowFault::NoMemory) => Err(AllocError),
            // the row has no such unknown yet
            Err(RowFault::LeavesRow) => unreachable!(),
        },
        None => Ok(false),
    }
}

// Those of all unknowns are, in order. Whether all fit.
fn settle_all(row: &mut Row, unknowns: u32, left: &Form, right: &Form) -> Result<bool, AllocError>
    requires none { row.old.terms ≡ [] }
    ensures done { IsOkAnd result IsTrue → (u : ℕ) → IsDone (wanted unknowns left.now right.now) row.new.terms u }
    ensures leaves { IsOkAnd result (λ ok. ok ≡ false) → Leaves (wanted unknowns left.now right.now) }
    ensures right { row.new.right ≡ row.old.right }
{
    let mut first = left.terms();
    let mut second = right.terms();
    while let Some(unknown) = least(first, second) {
        let (added, later) = split(first, unknown);
        let (taken, rest) = split(second, unknown);
        if !settle(row, unknowns, unknown, added, taken)? {
            return Ok(false);
        }
        first = later;
        second = rest;
    }
    Ok(true)
}

/// The row; none where it leaves 128 bits.
pub fn row_of(
    alloc: Global,
    unknowns: u32,
    left: &Form,
    right: &Form,
) -> Result<Option<Row>, AllocError>
    ensures { IfOk result (λ made. made ≡ within (row_of unknowns (pair left.now right.now))) }
{
    let Some(right_side) = difference(asked(left, right), held(left, right)) else {
        return Ok(None);
    };
    let mut row = Row::new(alloc);
    // it has the right side 0
    row.add_right(right_side).unwrap();
    if !settle_all(&mut row, unknowns, left, right)? {
        return Ok(None);
    }
    Ok(Some(row))
}
