//! The table that the solver keeps, and the numbers that are read there.

ghost use Rattle.std.specs.Prelude.{◌≡◌, ◌+◌, ◌<◌, ◌≤◌, ◌^◌, ◌∷◌, ℕ, length, IfOk, pos, ◌<ℤ◌};
ghost use Rattle.linear_rows.specs.Systems.{IsSystem};
ghost use Rattle.simplex_spec.specs.Tableaux.{Tableau, opening, right, solution, dual, ray, entry};
ghost use Rattle.simplex_spec.specs.Places.{counted};
ghost use Rattle.simplex_spec.specs.Places as places;
ghost use Rattle.simplex_spec.specs.Refusals.{least_number};
ghost use Rattle.simplex.specs.Reading.{NoneTwice, AreOver};
ghost use Rattle.simplex.specs.Solving.{IsOpening, IsAt};

use crate::fault::Fault;
use crate::opening::{opening_gains, opening_rows};
use crate::reading::{column_of, negated, negated_at, spread};
use frac128::Frac;
use linear_rows::System;
use simplex_rows::FracRow;
use std::alloc::{AllocError, Global};

/// A tableau as sparse rows and gains, with the basis column of each row, and the pivots that led to it.
#[derive(Drop)]
pub(crate) struct Table {
    pub(crate) rows: Vec<FracRow>,
    pub(crate) gains: FracRow,
    pub(crate) basis: Vec<u32>,
    pub(crate) pivots: Vec<(u32, u32)>,
}

/// The opening table of a system.
pub(crate) fn opening(alloc: Global, system: &System) -> Result<Table, Fault>
    requires { right system.now < 2 ^ 32 }
    ensures table { IfOk result (IsOpening system.now) }
    ensures sound { IfOk result (λ _. IsSystem system.now) }
    ensures leaves { (i c : ℕ) → result ≡ Err (Fault.Leaves i c) → entry (opening system.now) i c ≡ least_number }
    ensures inside { (i c : ℕ) → result ≡ Err (Fault.Leaves i c) → i ≤ system.now.unknowns }
{
    let rows = opening_rows(alloc, system)?;
    let gains = opening_gains(alloc, system)?;
    let basis = counted(alloc, system.rows().len() as u32, system.unknowns())?;
    let pivots = Vec::with_capacity(alloc, system.unknowns() as usize)?;
    Ok(Table {
        rows,
        gains,
        basis,
        pivots,
    })
}

/// `count` columns from `first` on.
fn counted(alloc: Global, first: u32, count: u32) -> Result<Vec<u32>, AllocError>
    requires { first + count < 2 ^ 32 }
    ensures { IfOk result (λ cs. cs.items ≡ counted first count) }
{
    let mut all = Vec::with_capacity(alloc, count as usize)?;
    for i in 0..count {
        all.push(first + i)?;
    }
    Ok(all)
}

/// The solution, with one number for each unknown.
pub(crate) fn solution(
    alloc: Global,
    system: &System,
    table: &Table,
) -> Result<Vec<Frac>, AllocError>
    requires { right system.now < 2 ^ 32 }
    ensures { (t : Tableau) → IsAt system.now table.now t → IfOk result (λ x. AreOver t.over (solution system.now t) x.items) }
{
    let slack = system.rows().len() as u32;
    negated_at(alloc, &table.gains, slack, system.unknowns())
}

/// The dual solution, with one number for each row of the system.
pub(crate) fn dual(alloc: Global, system: &System, table: &Table) -> Result<Vec<Frac>, AllocError>
    requires columns { right system.now < 2 ^ 32 }
    requires one_each { length table.now.rows.items ≡ length table.now.basis.items }
    requires once { NoneTwice table.now.basis.items }
    ensures { (t : Tableau) → IsAt system.now table.now t → IfOk result (λ y. AreOver t.over (dual system.now t) y.items) }
{
    let count = system.rows().len();
    let right = count as u32 + system.unknowns();
    let numbers = column_of(alloc, &table.rows, right)?;
    spread(alloc, count, &table.basis, &numbers)
}

/// The vector that refutes the system where no row bounds this column, with one number for each row.
pub(crate) fn ray(
    alloc: Global,
    system: &System,
    table: &Table,
    column: u32,
) -> Result<Vec<Frac>, AllocError>
    requires one_each { length table.now.rows.items ≡ length table.now.basis.items }
    requires once { NoneTwice (column ∷ table.now.basis.items) }
    ensures { (t : Tableau) → IsAt system.now table.now t → pos 0 <ℤ places.at t.gains column → IfOk result
        (λ y. AreOver t.over (ray system.now column t) y.items) }
{
    let read = column_of(alloc, &table.rows, column)?;
    let mut numbers = negated(alloc, &read)?;
    numbers.insert(0, Frac::one())?;
    let mut columns = Vec::from_slice(alloc, &table.basis)?;
    columns.insert(0, column)?;
    spread(alloc, system.rows().len(), &columns, &numbers)
}
