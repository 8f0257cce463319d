//! Two rows of few whole numbers, walked together.

ghost use Rattle.std.specs.Prelude.{◌≡◌, ◌≢◌, ◌<◌, ◌≤◌, ◌+◌, ◌++◌, ◌^◌, [], length, pos, ◌<ℤ◌, ◌-ℤ◌, ◌*ℤ◌, unsigned_abs, OnOk};
ghost use Rattle.std.specs.List.{AllWithin, HoldsAt};
ghost use Rattle.simplex_rows.specs.ShortRows.{AscendsFrom, put_whole, IsCombined};
ghost use Rattle.simplex_rows.specs.Combining.{times, TimesFit, first_at, after, CanCombine};

use std::alloc::AllocError;

/// Up to so many numbers are put one by one, and more in one piece.
const FEW: usize = 3;

/// Puts `p` times a row less `q` times a lead, column by column.
pub(crate) fn put_combined(
    made: &mut Vec<(u32, i64)>,
    p: i64,
    row: &[(u32, i64)],
    q: i64,
    lead: &[(u32, i64)],
) -> Result<(), AllocError>
    requires empty { made.old.items ≡ [] }
    requires fits { CanCombine p q row.now lead.now }
    ensures combined { OnOk result (IsCombined p q lead.now row.now made.new.items) }
    ensures ascends { OnOk result (AscendsFrom 0 made.new.items) }
{
    let mut row = row;
    for entry in lead {
        let column = entry.0;
        let (before, rest) = row.split_at(count_before(row, column));
        put_times(made, p, before)?;
        let (number, later) = take(rest, column);
        put(made, column, difference(p, number, q, entry.1))?;
        row = later;
    }
    put_times(made, p, row)
}

/// Puts `p` times each number after what is there.
#[inline(always)]
fn put_times(made: &mut Vec<(u32, i64)>, p: i64, numbers: &[(u32, i64)]) -> Result<(), AllocError>
    requires { TimesFit p numbers.now }
    ensures { OnOk result (made.new.items ≡ made.old.items ++ times p numbers.now) }
{
    if p == 1 && numbers.len() > FEW {
        made.extend_from_slice(numbers)
    } else {
        put_each_times(made, p, numbers)
    }
}

/// The same one by one.
fn put_each_times(
    made: &mut Vec<(u32, i64)>,
    p: i64,
    numbers: &[(u32, i64)],
) -> Result<(), AllocError>
    requires { TimesFit p numbers.now }
    ensures { OnOk result (made.new.items ≡ made.old.items ++ times p numbers.now) }
{
    for entry in numbers {
        made.push((entry.0, p * entry.1))?;
    }
    Ok(())
}

/// Puts a number after what is there, unless it is 0.
fn put(made: &mut Vec<(u32, i64)>, column: u32, n: i64) -> Result<(), AllocError>
    ensures { OnOk result (made.new.items ≡ made.old.items ++ put_whole column n []) }
{
    if n != 0 {
        made.push((column, n))?;
    }
    Ok(())
}

/// `p` times a number less `q` times another, of which no part leaves the range.
fn difference(p: i64, number: i64, q: i64, other: i64) -> i64
    requires { (unsigned_abs (p *ℤ number) + unsigned_abs (q *ℤ other)) < 2 ^ 63 }
    ensures { result ≡ p *ℤ number -ℤ q *ℤ other }
{
    p * number - q * other
}

/// The first number where it is in the column, or 0, and the numbers after it.
fn take(numbers: &[(u32, i64)], column: u32) -> (i64, &[(u32, i64)])
    ensures number { result.0 ≡ first_at column numbers.now }
    ensures later { result.1.now ≡ after column numbers.now }
{
    if let Some((first, later)) = numbers.split_first() {
        if first.0 == column {
            return (first.1, later);
        }
    }
    (0, numbers)
}

/// How many columns come before one, of columns that ascend.
fn count_before(numbers: &[(u32, i64)], column: u32) -> usize
    ensures bound { result ≤ length numbers.now }
    ensures before { AllWithin (λ entry. entry.0 < column) numbers.now 0 result }
    ensures next { result < length numbers.now → HoldsAt (λ entry. column ≤ entry.0) numbers.now result }
{
    numbers
        .iter()
        .position(|entry| entry.0 >= column)
        .unwrap_or(numbers.len())
}
