//! Rows of fractions: each call once, in each form that a row has.
//!
//! How many numbers a row keeps tells its form: as a list, and as fractions, it keeps those that are not 0, and with
//! a place for each column a number for each place.

ghost use Rattle.std.specs.Prelude.{◌<◌};

use simplex_rows::{FracRow, RowScratch};
use std::alloc::Global;
use std::cmp::Ordering;
use std::fmt::Write;
use std::process::Abort;
use std::test::Fail;

mod edges;
mod stored;

/// The row of these whole numbers, each behind its column.
#[tactic(auto, using(crate::proofs::Columns::ends_later))]
fn row_of(alloc: Global, entries: &[(u32, i128)]) -> Result<FracRow, Fail> {
    let mut row = FracRow::new(alloc);
    let mut next: u64 = 0;
    for (column, n) in entries {
        if u64::from(*column) < next {
            return Err(Fail::new("columns ascend"));
        }
        row.push_whole(*column, *n)?;
        next = u64::from(*column) + 1;
    }
    Ok(row)
}

/// The row over its number at a column.
fn over_its(row: FracRow, column: u32) -> Result<FracRow, Fail> {
    if row.at(column).num() > 0 {
        Ok(row.over_its(column)?)
    } else {
        Err(Fail::new("no positive number"))
    }
}

/// What a row is swept by: a column, and whole numbers that are taken over that in the column.
type Lead = (u32, &'static [(u32, i128)]);

/// The row less its number in the lead's column times the lead, and so for each lead, where it keeps a place for
/// each column once it has more than `most` numbers.
fn swept(alloc: Global, row: FracRow, leads: &[Lead], most: usize) -> Result<FracRow, Fail> {
    let mut row = row;
    let mut scratch = RowScratch::new(alloc);
    for (column, numbers) in leads {
        let lead = over_its(row_of(alloc, numbers)?, *column)?;
        row.sweep(*column, &lead, most, &mut scratch)?;
    }
    Ok(row)
}

/// The fractions that are not 0, each behind its column.
fn told(alloc: Global, row: &FracRow) -> Result<String, Fail> {
    let mut columns = Vec::new(alloc);
    row.columns(&mut columns)?;
    let mut out = String::new(alloc);
    for column in &columns {
        let fraction = row.at(*column);
        write!(out, " {column}:{fraction}")?;
    }
    Ok(out)
}

/// The fraction at `column` over that at `by`, or `-` where it leaves the range.
fn ratio_told(alloc: Global, row: &FracRow, column: u32, by: u32) -> Result<String, Fail> {
    if row.at(by).num() <= 0 {
        return Err(Fail::new("no positive number"));
    }
    let mut out = String::new(alloc);
    match row.ratio(column, by) {
        Some(ratio) => write!(out, "{ratio}")?,
        None => out.push('-')?,
    }
    Ok(out)
}

/// A row that is swept, what is left of it, and how many numbers it keeps as a list and with places.
struct Sweep {
    row: &'static [(u32, i128)],
    leads: &'static [Lead],
    left: &'static str,
    listed: usize,
    placed: usize,
}

const SWEEPS: [Sweep; 6] = [
    // a lead over 1
    Sweep {
        row: &[
            (0, 6),
            (2, 0),
            (3, 4),
            (5, 2),
            (7, 1),
            (8, 1),
            (9, 1),
            (12, 3),
        ],
        leads: &[(5, &[(1, 5), (3, 2), (5, 1)])],
        left: " 0:6 1:-10 7:1 8:1 9:1 12:3",
        listed: 6,
        placed: 13,
    },
    // a lead over 3, and then one over 2 that has a column past those of the row
    Sweep {
        row: &[(0, 2), (1, 1), (4, 5), (9, 1)],
        leads: &[(0, &[(0, 3), (1, 1), (2, 2)]), (1, &[(1, 2), (12, 3)])],
        left: " 2:-4/3 4:5 9:1 12:-1/2",
        listed: 4,
        placed: 13,
    },
    // a lead over 6, of which the row's 4 leaves 3
    Sweep {
        row: &[(0, 4), (3, 1)],
        leads: &[(0, &[(0, 6), (3, 5)])],
        left: " 3:-7/3",
        listed: 1,
        placed: 4,
    },
    // a negative number, and a lead in lower terms than it was made of
    Sweep {
        row: &[(0, -2), (1, 1)],
        leads: &[(0, &[(0, 4), (1, 6), (9, -4)])],
        left: " 1:4 9:-2",
        listed: 2,
        placed: 10,
    },
    // no number in the lead's column: the row is left as it is
    Sweep {
        row: &[(1, 4), (3, 1)],
        leads: &[(0, &[(0, 6), (3, 5)])],
        left: " 1:4 3:1",
        listed: 2,
        placed: 2,
    },
    // no number is left
    Sweep {
        row: &[(2, 5)],
        leads: &[(2, &[(2, 7)])],
        left: "",
        listed: 0,
        placed: 0,
    },
];

/// Sweeps the row as a list, and with a place for each column.
fn check_sweep(rt: &impl Abort, alloc: Global, sweep: &Sweep) -> Result<(), Fail> {
    for (most, kept) in [(usize::MAX, sweep.listed), (0, sweep.placed)] {
        let row = swept(alloc, row_of(alloc, sweep.row)?, sweep.leads, most)?;
        assert_eq!(rt; told(alloc, &row)?.as_str(), sweep.left);
        assert_eq!(rt; row.kept(), kept, "of{}", sweep.left);
    }
    Ok(())
}

#[test]
fn sweeps(rt: HostRuntime) -> Result<(), Fail> {
    for sweep in &SWEEPS {
        check_sweep(&rt, rt.alloc(), sweep)?;
    }
    Ok(())
}

/// Past `most` numbers a row keeps a place for each column, and with as many it is a list still.
#[test]
fn places_past_most(rt: HostRuntime) -> Result<(), Fail> {
    let alloc = rt.alloc();
    for (most, kept) in [(3, 3), (2, 8)] {
        let row = row_of(alloc, &[(0, 1), (1, 1), (5, 1), (7, 1)])?;
        let row = swept(alloc, row, &[(0, &[(0, 1)])], most)?;
        assert_eq!(rt; row.kept(), kept, "past {most}");
    }
    Ok(())
}

const READ: &str = " 1:1/3 2:-4/3 4:5 9:1";

/// The row of `READ` as a list or with places, by `most`.
fn short_row(alloc: Global, most: usize) -> Result<FracRow, Fail> {
    let row = row_of(alloc, &[(0, 2), (1, 1), (4, 5), (9, 1)])?;
    swept(alloc, row, &[(0, &[(0, 3), (1, 1), (2, 2)])], most)
}

/// The same as fractions, since their numbers have 64 bits and more.
fn wide_row(alloc: Global) -> Result<FracRow, Fail> {
    let row = row_of(
        alloc,
        &[(1, 1 << 64), (2, -(1 << 66)), (4, 15 << 64), (9, 3 << 64)],
    )?;
    over_its(row, 9)
}

/// Reads the row of `READ`, which keeps so many numbers, column by column.
fn check_reads(rt: &impl Abort, alloc: Global, row: &FracRow, kept: usize) -> Result<(), Fail> {
    assert_eq!(rt; row.kept(), kept);
    assert_eq!(rt; told(alloc, row)?.as_str(), READ);
    for (column, sign, next) in [
        (0, Ordering::Equal, Some(1)),
        (1, Ordering::Greater, Some(1)),
        (2, Ordering::Less, Some(2)),
        (3, Ordering::Equal, Some(4)),
        (9, Ordering::Greater, Some(9)),
        (10, Ordering::Equal, None),
    ] {
        assert!(rt; row.sign_at(column) == sign, "at {column}");
        assert!(rt; row.next_column(column) == next, "from {column}");
    }
    Ok(())
}

/// Reads ratios of the row of `READ`, and takes it over its number at a column.
fn check_ratios(rt: &impl Abort, alloc: Global, row: FracRow) -> Result<(), Fail> {
    for (column, by, ratio) in [(2, 1, "-4"), (1, 4, "1/15"), (3, 4, "0"), (4, 9, "5")] {
        let found = ratio_told(alloc, &row, column, by)?;
        assert_eq!(rt; found.as_str(), ratio, "at {column} by {by}");
    }
    let over = over_its(row, 4)?;
    assert_eq!(rt; told(alloc, &over)?.as_str(), " 1:1/15 2:-4/15 4:1 9:1/5");
    assert_eq!(rt; over.kept(), 4);
    Ok(())
}

#[test]
fn a_list_is_read(rt: HostRuntime) -> Result<(), Fail> {
    let row = short_row(rt.alloc(), 4)?;
    check_reads(&rt, rt.alloc(), &row, 4)?;
    check_ratios(&rt, rt.alloc(), row)
}

#[test]
fn places_are_read(rt: HostRuntime) -> Result<(), Fail> {
    let row = short_row(rt.alloc(), 3)?;
    check_reads(&rt, rt.alloc(), &row, 10)?;
    check_ratios(&rt, rt.alloc(), row)
}

#[test]
fn fractions_are_read(rt: HostRuntime) -> Result<(), Fail> {
    let row = wide_row(rt.alloc())?;
    check_reads(&rt, rt.alloc(), &row, 4)?;
    check_ratios(&rt, rt.alloc(), row)
}
