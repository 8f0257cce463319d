//! How many numbers rows and gains keep, as they are opened and as they are swept.

ghost use Rattle.std.specs.Prelude.{◌<◌};

use crate::rows::{over_its, row_of};
use simplex_rows::{FracRow, RowScratch};
use std::alloc::Global;
use std::test::Fail;

/// The columns of a system of 200 unknowns and 200 rows, with those of the slacks and of the weights.
const WIDTH: usize = 401;

/// The gains of 200 rows.
fn opened_gains(alloc: Global) -> Result<FracRow, Fail> {
    let mut gains = FracRow::new(alloc);
    for column in 0..200 {
        gains.push_whole(column, 1)?;
    }
    Ok(gains)
}

/// How many numbers the row of an unknown keeps that is at least 1, and how many its lead keeps, by which the gains
/// are swept: its number in its own row, its slack and its weight.
fn pivot(
    alloc: Global,
    gains: &mut FracRow,
    scratch: &mut RowScratch,
    unknown: u32,
) -> Result<(usize, usize), Fail>
    requires { unknown < 200 }
{
    let row = row_of(alloc, &[(unknown, 1), (200 + unknown, 1), (400, 1)])?;
    let opening = row.kept();
    let lead = over_its(row, unknown)?;
    gains.sweep(unknown, &lead, WIDTH, scratch)?;
    Ok((opening, lead.kept()))
}

/// What is kept before the pivots of all unknowns, and after them.
#[test]
fn numbers_kept(rt: HostRuntime) -> Result<(), Fail> {
    let mut gains = opened_gains(rt.alloc())?;
    let mut scratch = RowScratch::new(rt.alloc());
    let mut opening: usize = gains.kept();
    let mut pivoted: usize = 0;
    for unknown in 0..200 {
        let (row, lead) = pivot(rt.alloc(), &mut gains, &mut scratch, unknown)?;
        opening = opening.saturating_add(row);
        pivoted = pivoted.saturating_add(lead);
    }
    assert!(rt; opening == 800);
    assert!(rt; pivoted == 600);
    assert!(rt; gains.kept() == 201);
    Ok(())
}
