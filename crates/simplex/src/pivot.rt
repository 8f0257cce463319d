//! One pivot.

ghost use Rattle.std.specs.Prelude.{◌≡◌, ◌<◌, ◌<ℤ◌, ℕ, pos, length, OnOk};
ghost use Rattle.frac128.specs.Values.{numerator};
ghost use Rattle.simplex_rows.specs.Entries.{at};
ghost use Rattle.simplex.specs.Among.{Among, AllDiffer};
ghost use Rattle.simplex.specs.Standing.{entries_at, AreTouching, AmongSwept, RowLeaves, IsPivoted, PivotLeaves};

use crate::fault::{Fault, in_row};
use simplex_rows::{FracRow, RowScratch};
use std::alloc::Global;
use std::mem;

/// A row keeps a place for each column once it has numbers in more than one of so many.
const SPARSE: usize = 8;

/// Up to so many numbers a row is a list, however few columns there are.
const SHORT: usize = 16;

/// The row that exits the basis at a pivot, and the column that enters it.
#[derive(Clone, Copy)]
pub(crate) struct Place {
    pub(crate) row: usize,
    pub(crate) column: u32,
}

/// Sweeps these rows, which keep a place for each column where they have more than `most` numbers.
fn sweep_rows(
    rows: &mut [FracRow],
    among: &[usize],
    entering: u32,
    lead: &FracRow,
    most: usize,
    scratch: &mut RowScratch,
) -> Result<(), Fault>
    requires inside { (i : ℕ) → Among i among.now → i < length rows.old }
    requires differ { AllDiffer among.now }
    ensures swept { OnOk result (AmongSwept among.now entering lead.now rows.old rows.new) }
    ensures leaves { (i c : ℕ) → result ≡ Err (Fault.Leaves i c) → RowLeaves entering lead.now rows.old i c }
{
    for row in among {
        if let Err(fault) = rows[*row].sweep(entering, lead, most, scratch) {
            return Err(in_row(*row, fault));
        }
    }
    Ok(())
}

/// The pivot at a place, where the row's number is positive, of rows and gains over `width` columns. New rows
/// are made in `scratch`.
pub(crate) fn pivot(
    alloc: Global,
    rows: &mut [FracRow],
    gains: &mut FracRow,
    touching: &[usize],
    place: Place,
    width: usize,
    scratch: &mut RowScratch,
) -> Result<(), Fault>
    requires inside { place.row < length rows.old }
    requires number { pos 0 <ℤ numerator (at place.column (entries_at rows.old place.row)) }
    requires touching { AreTouching place.column rows.old touching.now }
    ensures pivoted { OnOk result (IsPivoted place.row place.column rows.old gains.old rows.new gains.new) }
    ensures leaves { (i c : ℕ) → result ≡ Err (Fault.Leaves i c) → PivotLeaves place.row place.column rows.old gains.old i c }
{
    let Place { row, column } = place;
    let above = mem::replace(&mut rows[row], FracRow::new(alloc));
    let lead = match above.over_its(column) {
        Ok(lead) => lead,
        Err(fault) => return Err(in_row(row, fault)),
    };
    let most = SHORT.max(width / SPARSE);
    sweep_rows(rows, touching, column, &lead, most, scratch)?;
    if let Err(fault) = gains.sweep(column, &lead, width, scratch) {
        return Err(in_row(rows.len(), fault));
    }
    rows[row] = lead;
    Ok(())
}
