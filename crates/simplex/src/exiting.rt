//! The row that exits the basis.

ghost use Rattle.std.specs.Prelude.{◌≡◌, ◌<◌, ◌≤◌, ℕ, length, IfOk, OnOk};
ghost use Rattle.frac128.specs.declared.Frac.{Frac};
ghost use Rattle.frac128.specs.Nought.{nought};
ghost use Rattle.simplex_rows.specs.Entries.{at};
ghost use Rattle.simplex.specs.Among.{Among};
ghost use Rattle.simplex.specs.Standing.{entries_at, AreTouching};
ghost use Rattle.simplex.specs.Ties.{IsBounding, AreBounding, AreTied, RatioLeaves, Keeps, ratio_order, IsExiting, SearchLeaves};
ghost use Rattle.simplex.specs.Ties.{columns_to};

use crate::fault::Fault;
use frac128::Frac;
use simplex_rows::FracRow;
use std::alloc::{AllocError, Global};
use std::cmp::Ordering;

/// Makes `all` the rows with a positive number at column `entering`, of those that have one there.
pub(crate) fn bounding(
    rows: &[FracRow],
    entering: u32,
    touching: &[usize],
    all: &mut Vec<usize>,
) -> Result<(), AllocError>
    requires { AreTouching entering rows.now touching.now }
    ensures { OnOk result (AreBounding entering rows.now all.new.items) }
{
    all.clear();
    for row in touching {
        if rows[*row].sign_at(entering) == Ordering::Greater {
            all.push(*row)?;
        }
    }
    Ok(())
}

/// How a ratio compares with the least so far. Where there is none so far, it is less.
fn order_to(none: bool, ratio: &Frac, least: &Frac) -> Ordering
    ensures { result ≡ ratio_order none ratio.now least.now }
{
    if none {
        Ordering::Less
    } else {
        ratio.cmp(least)
    }
}

/// Brings a row to those that are tied for the least ratio.
fn keep(tied: &mut Vec<usize>, least: &mut Frac, row: usize, ratio: Frac) -> Result<(), AllocError>
    ensures { OnOk result (Keeps tied.old.items least.old row ratio tied.new.items least.new) }
{
    match order_to(tied.is_empty(), &ratio, least) {
        Ordering::Less => {
            tied.clear();
            tied.push(row)?;
            *least = ratio;
        }
        Ordering::Equal => tied.push(row)?,
        Ordering::Greater => {}
    }
    Ok(())
}

/// Of these rows, those with the least ratio of the number at `column` to that at `entering`.
fn ties(
    alloc: Global,
    rows: &[FracRow],
    entering: u32,
    column: u32,
    among: &[usize],
) -> Result<Vec<usize>, Fault>
    requires { (i : ℕ) → Among i among.now → IsBounding entering rows.now i }
    ensures tied { IfOk result (λ is. (least : Frac) × AreTied entering column rows.now among.now is.items least) }
    ensures leaves { (i c : ℕ) → result ≡ Err (Fault.Leaves i c) → RatioLeaves entering column rows.now among.now i c }
{
    let mut tied = Vec::new(alloc);
    let mut least = Frac::zero();
    for row in among {
        match rows[*row].ratio(column, entering) {
            Some(ratio) => keep(&mut tied, &mut least, *row, ratio)?,
            None => return Err(Fault::Leaves { row: *row, column }),
        }
    }
    Ok(tied)
}

/// The row that exits the basis for column `entering`, of those that bound it. They are compared by their
/// ratios at column `right`, and where these tie at the columns from `slack` on, until one is left.
pub(crate) fn exiting(
    alloc: Global,
    rows: &[FracRow],
    entering: u32,
    slack: u32,
    right: u32,
    all: &[usize],
) -> Result<usize, Fault>
    requires order { slack ≤ right }
    requires bounding { AreBounding entering rows.now all.now }
    requires some { 0 < length all.now }
    ensures row { IfOk result (IsExiting (columns_to right slack right) entering rows.now) }
    ensures leaves { (i c : ℕ) → result ≡ Err (Fault.Leaves i c) → SearchLeaves (columns_to right slack right) entering rows.now i c }
{
    if all.len() == 1 {
        alone(rows, entering, slack, right, all)
    } else {
        narrowed(alloc, rows, entering, slack, right, all)
    }
}

/// The one row that bounds column `entering`, of which only the ratio at column `right` is looked at.
fn alone(
    rows: &[FracRow],
    entering: u32,
    slack: u32,
    right: u32,
    all: &[usize],
) -> Result<usize, Fault>
    requires order { slack ≤ right }
    requires bounding { AreBounding entering rows.now all.now }
    requires one { length all.now ≡ 1 }
    ensures row { IfOk result (IsExiting (columns_to right slack right) entering rows.now) }
    ensures leaves { (i c : ℕ) → result ≡ Err (Fault.Leaves i c) → SearchLeaves (columns_to right slack right) entering rows.now i c }
{
    let row = all[0];
    match rows[row].ratio(right, entering) {
        Some(_) => Ok(row),
        None => Err(Fault::Leaves { row, column: right }),
    }
}

/// The row that is left of these, which are all that bound column `entering`.
fn narrowed(
    alloc: Global,
    rows: &[FracRow],
    entering: u32,
    slack: u32,
    right: u32,
    all: &[usize],
) -> Result<usize, Fault>
    requires order { slack ≤ right }
    requires bounding { AreBounding entering rows.now all.now }
    requires some { 0 < length all.now }
    ensures row { IfOk result (IsExiting (columns_to right slack right) entering rows.now) }
    ensures leaves { (i c : ℕ) → result ≡ Err (Fault.Leaves i c) → SearchLeaves (columns_to right slack right) entering rows.now i c }
{
    let mut tied = ties(alloc, rows, entering, right, all)?;
    let mut column = next_column(rows, &tied, slack, right);
    while tied.len() > 1 && column < right {
        tied = ties(alloc, rows, entering, column, &tied)?;
        column = next_column(rows, &tied, column + 1, right);
    }
    Ok(tied[0])
}

/// The first column from `from` on, and before `right`, at which one of these rows has a number, or `right`.
fn next_column(rows: &[FracRow], among: &[usize], from: u32, right: u32) -> u32
    requires inside { (i : ℕ) → Among i among.now → i < length rows.now }
    requires order { from ≤ right }
    ensures after { from ≤ result }
    ensures before { result ≤ right }
    ensures none { (i k : ℕ) → Among i among.now → from ≤ k → k < result → at k (entries_at rows.now i) ≡ nought }
{
    let mut least = right;
    for row in among {
        if let Some(column) = rows[*row].next_column(from) {
            least = least.min(column);
        }
    }
    least
}
