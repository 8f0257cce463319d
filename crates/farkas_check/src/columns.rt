//! The totals of columns: of one, and of all in one walk over the rows.

ghost use Rattle.std.specs.Prelude.{◌≡◌, ◌<◌, ◌<ℤ◌, ◌∷◌, ◌++◌, [], ℕ, ℤ, List, pos, neg_ℤ, ◌*ℤ◌, length, slice_index_or, IfOk};
ghost use Rattle.linear_rows.specs.Systems.{IsSystem, IsBelow, AllBelow};
ghost use Rattle.farkas_check.specs.Checks.{column};
ghost use Rattle.farkas_check.specs.Totals.{products};
ghost use Rattle.farkas_check.specs.Sides.{IsTotals, IsMoved, AreTotals, RowAdded};

use crate::totals::Totals;
use linear_rows::{Row, System};
use std::alloc::{AllocError, Global};

/// With the product of two numbers.
fn moved(totals: Option<Totals>, a: i128, b: i128) -> Option<Totals>
    ensures { IsMoved totals (a *ℤ b) result }
{
    totals?.with(a, b)
}

/// Adds the products of `y` and the row's numbers, where `y` is not 0.
fn add_row(totals: &mut [Option<Totals>], y: i128, row: &Row)
    requires { IsBelow (length totals.old) row.now }
    ensures { RowAdded y row.now totals.old totals.new }
{
    if y == 0 {
        return;
    }
    for term in row.terms() {
        let unknown = term.0 as usize;
        totals[unknown] = moved(totals[unknown], y, term.1);
    }
}

/// Adds the products of `y` and each column.
fn add_rows(totals: &mut [Option<Totals>], y: &[i128], rows: &[Row])
    requires one_each { length y.now ≡ length rows.now }
    requires below { AllBelow (length totals.old) rows.now }
    ensures { (n : ℕ) (terms : ℕ → List ℤ) → AreTotals n terms totals.old → AreTotals n
        (λ u. terms u ++ products y.now (column u rows.now)) totals.new }
{
    for i in 0..rows.len() {
        add_row(totals, y[i], &rows[i]);
    }
}

/// `count` times the totals of no terms.
fn zero_totals(alloc: Global, count: usize) -> Result<Vec<Option<Totals>>, AllocError>
    ensures { IfOk result (λ totals. AreTotals count (λ _. []) totals.items) }
{
    let mut totals = Vec::with_capacity(alloc, count)?;
    for _ in 0..count {
        totals.push(Some(Totals::zero()))?;
    }
    Ok(totals)
}

/// The totals of `y A`.
pub(crate) fn column_totals(
    alloc: Global,
    system: &System,
    y: &[i128],
) -> Result<Vec<Option<Totals>>, AllocError>
    requires { length y.now ≡ length system.now.rows }
    ensures { IfOk result (λ totals. AreTotals system.now.unknowns (λ u. products y.now (column u system.now.rows)) totals.items) }
{
    let mut totals = zero_totals(alloc, system.unknowns() as usize)?;
    add_rows(&mut totals, y, system.rows());
    Ok(totals)
}

/// The total of a weight, `scale` times less.
fn weight_total(weight: i128, scale: i128) -> Option<Totals>
    requires { pos 0 <ℤ scale }
    ensures { IsTotals (neg_ℤ (scale *ℤ weight) ∷ []) result }
{
    Totals::zero().with(-scale, weight)
}

/// The total of `y` and one column.
pub(crate) fn column_total(system: &System, y: &[i128], unknown: u32) -> Option<Totals>
    requires { length y.now ≡ length system.now.rows }
    ensures { IsTotals (products y.now (column unknown system.now.rows)) result }
{
    Totals::zero().with_column(y, system.rows(), unknown)
}

/// The total of `y` and one column, less `scale` times its weight.
pub(crate) fn dual_total(system: &System, y: &[i128], scale: i128, unknown: u32) -> Option<Totals>
    requires one_each { length y.now ≡ length system.now.rows }
    requires positive { pos 0 <ℤ scale }
    requires inside { unknown < system.now.unknowns }
    ensures { IsTotals (neg_ℤ
        (scale *ℤ slice_index_or system.now.weights unknown (pos 0)) ∷ products y.now (column unknown system.now.rows)) result }
{
    let weights = system.weights();
    let weight = weight_total(weights[unknown as usize], scale)?;
    weight.with_column(y, system.rows(), unknown)
}

/// The totals of the weights, `scale` times less.
fn weight_totals(
    alloc: Global,
    weights: &[i128],
    scale: i128,
) -> Result<Vec<Option<Totals>>, AllocError>
    requires { pos 0 <ℤ scale }
    ensures { IfOk result (λ totals. AreTotals (length weights.now)
        (λ u. neg_ℤ (scale *ℤ slice_index_or weights.now u (pos 0)) ∷ []) totals.items) }
{
    let mut totals = Vec::with_capacity(alloc, weights.len())?;
    for weight in weights {
        totals.push(weight_total(*weight, scale))?;
    }
    Ok(totals)
}

/// The totals of `y A` less `scale` times the weights.
pub(crate) fn dual_totals(
    alloc: Global,
    system: &System,
    y: &[i128],
    scale: i128,
) -> Result<Vec<Option<Totals>>, AllocError>
    requires one_each { length y.now ≡ length system.now.rows }
    requires positive { pos 0 <ℤ scale }
    ensures totals { IfOk result
        (λ totals. AreTotals system.now.unknowns
        (λ u. neg_ℤ (scale *ℤ slice_index_or system.now.weights u (pos 0)) ∷ products y.now (column u system.now.rows)) totals.items) }
    ensures sound { IsSystem system.now }
{
    let mut totals = weight_totals(alloc, system.weights(), scale)?;
    add_rows(&mut totals, y, system.rows());
    Ok(totals)
}
