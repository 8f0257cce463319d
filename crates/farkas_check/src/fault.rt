//! The first check of a list that does not pass.

ghost use Rattle.std.specs.Prelude.{◌≡◌, ◌<ℤ◌, ◌↔◌, IsTrue, pos, length, ℤ, ℕ, List, map, neg_ℤ, ◌*ℤ◌, ◌∷◌, ◌++◌, IfOk};
ghost use Rattle.raml_num.specs.Sums.{NoneNegative};
ghost use Rattle.linear_rows.specs.Systems.{IsBelow, IsSystem, numbers_from, right_sides};
ghost use Rattle.farkas_check.specs.Checks.{Meets, Demand, Check, refuting_columns, solving_row, solving_rows, dual_columns, equal_sums};
ghost use Rattle.farkas_check.specs.Checks.{refuting, proving_least};
ghost use Rattle.farkas_check.specs.Totals.{products};
ghost use Rattle.farkas_check.specs.Sides.{IsTotals};
ghost use Rattle.farkas_check.specs.Faults.{demand_of, FaultOf, FirstFaultOf};

use crate::Verdict;
use crate::columns::{column_total, column_totals, dual_total, dual_totals};
use crate::totals::Totals;
use linear_rows::{Row, System};
use std::alloc::{AllocError, Global};

/// What is asked of a total.
#[derive(Clone, Copy)]
enum Asked {
    AtMostZero,
    AtLeastZero,
    MoreThanZero,
    Zero,
}

impl Asked {
    ghost use Rattle.std.specs.Prelude.{◌↔◌, IsTrue};
    ghost use Rattle.farkas_check.specs.Checks.{Meets};
    ghost use Rattle.farkas_check.specs.Faults.{demand_of};

    fn is_met(self, total: i128) -> bool
        ensures { IsTrue result ↔ Meets (demand_of self) total }
    {
        match self {
            Asked::AtMostZero => total <= 0,
            Asked::AtLeastZero => total >= 0,
            Asked::MoreThanZero => total > 0,
            Asked::Zero => total == 0,
        }
    }
}

/// The fault of a check, if it does not pass.
fn of_check(totals: Option<Totals>, asked: Asked, column: u32) -> Option<Verdict>
    ensures { (terms : List ℤ) → IsTotals terms totals →
        FaultOf (record { column = column; demand = demand_of asked; terms = terms }) result }
{
    match totals {
        None => Some(Verdict::Leaves { column }),
        Some(totals) => {
            if asked.is_met(totals.sum()) {
                None
            } else {
                Some(Verdict::No { column })
            }
        }
    }
}

/// Of `y A`, which is to be at most 0.
fn of_columns(system: &System, y: &[i128]) -> Option<Verdict>
    requires { length y.now ≡ length system.now.rows }
    ensures { FirstFaultOf (refuting_columns 0 system.now.unknowns system.now.rows y.now) result }
{
    for unknown in 0..system.unknowns() {
        let total = column_total(system, y, unknown);
        let fault = of_check(total, Asked::AtMostZero, unknown);
        if fault.is_some() {
            return fault;
        }
    }
    None
}

/// Of `y A`, by the totals of all columns.
fn of_all_columns(alloc: Global, system: &System, y: &[i128]) -> Result<Option<Verdict>, AllocError>
    requires { length y.now ≡ length system.now.rows }
    ensures { IfOk result (λ fault. FirstFaultOf (refuting_columns 0 system.now.unknowns system.now.rows y.now) fault) }
{
    let totals = column_totals(alloc, system, y)?;
    for unknown in 0..system.unknowns() {
        let fault = of_check(totals[unknown as usize], Asked::AtMostZero, unknown);
        if fault.is_some() {
            return Ok(fault);
        }
    }
    Ok(None)
}

/// Of `y A`, by the totals of all columns where there is an allocator with memory for them.
fn of_columns_with(alloc: Option<Global>, system: &System, y: &[i128]) -> Option<Verdict>
    requires { length y.now ≡ length system.now.rows }
    ensures { FirstFaultOf (refuting_columns 0 system.now.unknowns system.now.rows y.now) result }
{
    let Some(alloc) = alloc else {
        return of_columns(system, y);
    };
    match of_all_columns(alloc, system, y) {
        Ok(fault) => fault,
        Err(_) => of_columns(system, y),
    }
}

/// Of `y b`, which is to be positive.
fn of_right_sides(system: &System, y: &[i128]) -> Option<Verdict>
    requires { length y.now ≡ length system.now.rows }
    ensures { FaultOf (record {
      column = system.now.unknowns;
      demand = Demand.Above;
      terms = products y.now (right_sides system.now);
    }) result }
{
    let totals = Totals::zero().with_right_sides(y, system.rows());
    of_check(totals, Asked::MoreThanZero, system.unknowns())
}

/// Of `y A`, which is to be at most `scale` times the weights.
fn of_dual_columns(system: &System, y: &[i128], scale: i128) -> Option<Verdict>
    requires one_each { length y.now ≡ length system.now.rows }
    requires positive { pos 0 <ℤ scale }
    requires sound { IsSystem system.now }
    ensures { FirstFaultOf (dual_columns 0 system.now.weights system.now.rows y.now scale) result }
{
    for unknown in 0..system.unknowns() {
        let total = dual_total(system, y, scale, unknown);
        let fault = of_check(total, Asked::AtMostZero, unknown);
        if fault.is_some() {
            return fault;
        }
    }
    None
}

/// Of `y A` less `scale` times the weights, by the totals of all columns.
fn of_all_dual_columns(
    alloc: Global,
    system: &System,
    y: &[i128],
    scale: i128,
) -> Result<Option<Verdict>, AllocError>
    requires one_each { length y.now ≡ length system.now.rows }
    requires positive { pos 0 <ℤ scale }
    ensures { IfOk result (λ fault. FirstFaultOf (dual_columns 0 system.now.weights system.now.rows y.now scale) fault) }
{
    let totals = dual_totals(alloc, system, y, scale)?;
    for unknown in 0..system.unknowns() {
        let fault = of_check(totals[unknown as usize], Asked::AtMostZero, unknown);
        if fault.is_some() {
            return Ok(fault);
        }
    }
    Ok(None)
}

/// Of `y A` less `scale` times the weights, by the totals of all columns where there is an allocator with
/// memory for them.
fn of_dual_columns_with(
    alloc: Option<Global>,
    system: &System,
    y: &[i128],
    scale: i128,
) -> Option<Verdict>
    requires one_each { length y.now ≡ length system.now.rows }
    requires positive { pos 0 <ℤ scale }
    requires sound { IsSystem system.now }
    ensures { FirstFaultOf (dual_columns 0 system.now.weights system.now.rows y.now scale) result }
{
    let Some(alloc) = alloc else {
        return of_dual_columns(system, y, scale);
    };
    match of_all_dual_columns(alloc, system, y, scale) {
        Ok(fault) => fault,
        Err(_) => of_dual_columns(system, y, scale),
    }
}

/// The totals of a row at `x`, less `scale` times the right side.
fn row_totals(row: &Row, x: &[i128], scale: i128) -> Option<Totals>
    requires below { IsBelow (length x.now) row.now }
    requires positive { pos 0 <ℤ scale }
    ensures { IsTotals (neg_ℤ (scale *ℤ row.now.right) ∷ products (numbers_from 0 (length x.now) row.now.terms) x.now) result }
{
    let totals = Totals::zero().with(-scale, row.right())?;
    totals.with_terms(row.terms(), x)
}

/// Of the rows at `x`, which are to be at least `scale` times their right sides.
fn of_rows(system: &System, x: &[i128], scale: i128) -> Option<Verdict>
    requires one_each { length x.now ≡ system.now.unknowns }
    requires positive { pos 0 <ℤ scale }
    ensures first { FirstFaultOf (solving_rows system.now.unknowns x.now scale system.now.rows) result }
    ensures sound { IsSystem system.now }
{
    let unknowns = system.unknowns();
    let rows = system.rows();
    for row in rows {
        let totals = row_totals(row, x, scale);
        let fault = of_check(totals, Asked::AtLeastZero, unknowns);
        if fault.is_some() {
            return fault;
        }
    }
    None
}

/// The totals of `y b` less `c x`.
fn sum_totals(system: &System, x: &[i128], y: &[i128]) -> Option<Totals>
    requires each_unknown { length x.now ≡ system.now.unknowns }
    requires each_row { length y.now ≡ length system.now.rows }
    requires natural { NoneNegative x.now }
    ensures { IsTotals (products y.now (right_sides system.now) ++ map neg_ℤ (products system.now.weights x.now)) result }
{
    let totals = Totals::zero().with_right_sides(y, system.rows())?;
    totals.without(system.weights(), x)
}

/// Of `y b`, which is to be `c x`.
fn of_sums(system: &System, x: &[i128], y: &[i128]) -> Option<Verdict>
    requires each_unknown { length x.now ≡ system.now.unknowns }
    requires each_row { length y.now ≡ length system.now.rows }
    requires natural { NoneNegative x.now }
    ensures { FaultOf (equal_sums system.now x.now y.now) result }
{
    of_check(sum_totals(system, x, y), Asked::Zero, system.unknowns())
}

/// Of `y`, which is to refute the system. With an allocator it is quick, where there is memory for a total
/// of each column.
pub(crate) fn of_refuting(alloc: Option<Global>, system: &System, y: &[i128]) -> Option<Verdict>
    requires { length y.now ≡ length system.now.rows }
    ensures { FirstFaultOf (refuting system.now y.now) result }
{
    let fault = of_columns_with(alloc, system, y);
    if fault.is_some() {
        return fault;
    }
    of_right_sides(system, y)
}

/// Of `x` and `y`, which are to prove the weighted sum of `x` least. With an allocator it is quick, where
/// there is memory for a total of each column.
pub(crate) fn of_least(
    alloc: Option<Global>,
    system: &System,
    x: &[i128],
    y: &[i128],
    scale: i128,
) -> Option<Verdict>
    requires each_unknown { length x.now ≡ system.now.unknowns }
    requires each_row { length y.now ≡ length system.now.rows }
    requires natural { NoneNegative x.now }
    requires positive { pos 0 <ℤ scale }
    ensures first { FirstFaultOf (proving_least system.now x.now y.now scale) result }
    ensures sound { IsSystem system.now }
{
    let rows = of_rows(system, x, scale);
    if rows.is_some() {
        return rows;
    }
    let columns = of_dual_columns_with(alloc, system, y, scale);
    if columns.is_some() {
        return columns;
    }
    of_sums(system, x, y)
}
