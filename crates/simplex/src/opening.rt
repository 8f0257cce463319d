//! The opening tableau of a system.

ghost use Rattle.std.specs.Prelude.{◌≡◌, ◌<◌, ◌≤◌, ◌+◌, ◌^◌, [], ℕ, length, map, pos, OnOk, IfOk};
ghost use Rattle.simplex_rows.specs.Entries.{EndsBefore};
ghost use Rattle.linear_rows.specs.Terms.{coefficient, IsSparse};
ghost use Rattle.linear_rows.specs.Systems.{AllBelow};
ghost use Rattle.simplex_spec.specs.Tableaux.{opening_row, opening, right, entry};
ghost use Rattle.simplex_spec.specs.Refusals.{least_number};
ghost use Rattle.simplex.specs.Standing.{entries_at, RowStands, RowsStand};
ghost use Rattle.simplex.specs.Opening.{OpensTo, OpeningLeaves, AreEmpty, AddsInRow, AddsColumn, ColumnsOpen};

use crate::fault::{Fault, in_row};
use linear_rows::{Row, System};
use simplex_rows::{FracRow, RowFault};
use std::alloc::{AllocError, Global};

/// So many fractions a row has room for from the start.
pub(crate) const ROOM: usize = 10;

/// `count` rows in which each number is 0.
fn empty_rows(alloc: Global, count: u32) -> Result<Vec<FracRow>, AllocError>
    ensures { IfOk result (λ rows. AreEmpty count rows.items) }
{
    let mut rows = Vec::with_capacity(alloc, count as usize)?;
    for _ in 0..count {
        rows.push(FracRow::with_capacity(alloc, ROOM)?)?;
    }
    Ok(rows)
}

/// Adds an unknown's number to its row, at a column after the others.
fn push_term(rows: &mut [FracRow], column: u32, unknown: u32, number: i128) -> Result<(), Fault>
    requires inside { unknown < length rows.old }
    requires before { EndsBefore column (entries_at rows.old unknown) }
    ensures added { OnOk result (AddsInRow column unknown number rows.old rows.new) }
    ensures leaves { (i c : ℕ) → result ≡ Err (Fault.Leaves i c) → (i ≡ unknown) × (c ≡ column) × (number ≡ least_number) }
{
    match rows[unknown as usize].push_whole(column, number) {
        Ok(()) => Ok(()),
        Err(fault) => Err(in_row(unknown as usize, fault)),
    }
}

/// Adds a column after the others: the number of each term, in its unknown's row.
fn push_terms(rows: &mut [FracRow], column: u32, terms: &[(u32, i128)]) -> Result<(), Fault>
    requires sparse { IsSparse terms.now }
    requires below { (u : ℕ) → length rows.old ≤ u → coefficient u terms.now ≡ pos 0 }
    requires before { (i : ℕ) → i < length rows.old → EndsBefore column (entries_at rows.old i) }
    ensures added { OnOk result (AddsColumn column terms.now rows.old rows.new) }
    ensures leaves { (i c : ℕ) → result ≡ Err (Fault.Leaves i c) → (i < length rows.old)
        × (c ≡ column) × (coefficient i terms.now ≡ least_number) }
{
    for term in terms {
        push_term(rows, column, term.0, term.1)?;
    }
    Ok(())
}

/// Adds a column for each inequality, in order.
fn push_columns(rows: &mut [FracRow], inequalities: &[Row]) -> Result<(), Fault>
    requires columns { length inequalities.now < 2 ^ 32 }
    requires below { AllBelow (length rows.old) inequalities.now }
    requires empty { AreEmpty (length rows.old) rows.old }
    ensures opened { OnOk result (ColumnsOpen (length inequalities.now) (length rows.old) inequalities.now rows.new) }
    ensures leaves { (i c : ℕ) → result ≡ Err (Fault.Leaves i c) → (i < length rows.old) × (c < length inequalities.now)
        × OpeningLeaves (map (λ row. coefficient i row.terms) inequalities.now) c }
{
    for j in 0..inequalities.len() {
        push_terms(rows, j as u32, inequalities[j].terms())?;
    }
    Ok(())
}

/// Adds an unknown's slack and its weight to its row.
fn push_slack_and_weight(row: &mut FracRow, system: &System, unknown: u32) -> Result<(), RowFault>
    requires inside { unknown < system.now.unknowns }
    requires columns { length system.now.rows + system.now.unknowns < 2 ^ 32 }
    requires opened { OpensTo (length system.now.rows) (map (λ row. coefficient unknown row.terms) system.now.rows) row.old }
    ensures row { OnOk result (RowStands (pos 1) (opening_row system.now unknown) row.new) }
    ensures leaves { (c : ℕ) → result ≡ Err (RowFault.Leaves c) → OpeningLeaves (opening_row system.now unknown) c }
{
    let slack = system.rows().len() as u32;
    row.push_whole(slack + unknown, 1)?;
    let weight = system.weights()[unknown as usize];
    row.push_whole(slack + system.unknowns(), weight)
}

/// Adds its slack and its weight to each unknown's row.
fn push_slacks_and_weights(rows: &mut [FracRow], system: &System) -> Result<(), Fault>
    requires columns { length system.now.rows + system.now.unknowns < 2 ^ 32 }
    requires opened { ColumnsOpen (length system.now.rows) system.now.unknowns system.now.rows rows.old }
    ensures rows { OnOk result (RowsStand (opening system.now) rows.new) }
    ensures leaves { (i c : ℕ) → result ≡ Err (Fault.Leaves i c) → entry (opening system.now) i c ≡ least_number }
    ensures inside { (i c : ℕ) → result ≡ Err (Fault.Leaves i c) → i ≤ system.now.unknowns }
{
    for unknown in 0..system.unknowns() {
        match push_slack_and_weight(&mut rows[unknown as usize], system, unknown) {
            Ok(()) => {}
            Err(fault) => return Err(in_row(unknown as usize, fault)),
        }
    }
    Ok(())
}

/// The opening rows, one for each unknown. Each number of the system is met once.
pub(crate) fn opening_rows(alloc: Global, system: &System) -> Result<Vec<FracRow>, Fault>
    requires { length system.now.rows + system.now.unknowns < 2 ^ 32 }
    ensures rows { IfOk result (λ rows. RowsStand (opening system.now) rows.items) }
    ensures leaves { (i c : ℕ) → result ≡ Err (Fault.Leaves i c) → entry (opening system.now) i c ≡ least_number }
    ensures inside { (i c : ℕ) → result ≡ Err (Fault.Leaves i c) → i ≤ system.now.unknowns }
{
    let mut rows = empty_rows(alloc, system.unknowns())?;
    push_columns(&mut rows, system.rows())?;
    push_slacks_and_weights(&mut rows, system)?;
    Ok(rows)
}

/// Adds each right side at its column, in order.
fn push_right_sides(gains: &mut FracRow, rows: &[Row]) -> Result<(), RowFault>
    requires columns { length rows.now < 2 ^ 32 }
    requires empty { gains.old ≡ [] }
    ensures opened { OnOk result (OpensTo (length rows.now) (map (λ row. row.right) rows.now) gains.new) }
    ensures leaves { (c : ℕ) → result ≡ Err (RowFault.Leaves c) → (c < length rows.now)
        × OpeningLeaves (map (λ row. row.right) rows.now) c }
{
    for j in 0..rows.len() {
        gains.push_whole(j as u32, rows[j].right())?;
    }
    Ok(())
}

/// The opening gains. They come after the unknowns' rows.
pub(crate) fn opening_gains(alloc: Global, system: &System) -> Result<FracRow, Fault>
    requires { right system.now < 2 ^ 32 }
    ensures row { IfOk result (λ gains. RowStands (pos 1) (opening system.now).gains gains) }
    ensures leaves { (i c : ℕ) → result ≡ Err (Fault.Leaves i c) → entry (opening system.now) i c ≡ least_number }
    ensures inside { (i c : ℕ) → result ≡ Err (Fault.Leaves i c) → i ≤ system.now.unknowns }
{
    let mut gains = FracRow::with_capacity(alloc, ROOM)?;
    match push_right_sides(&mut gains, system.rows()) {
        Ok(()) => Ok(gains),
        Err(fault) => Err(in_row(system.unknowns() as usize, fault)),
    }
}
