//! The edge of 63 bits, past which a row keeps fractions, and the edge of their range.

use crate::rows::{Lead, over_its, ratio_told, row_of, swept, told};
use simplex_rows::{FracRow, RowFault, RowScratch};
use std::alloc::Global;
use std::process::Abort;
use std::test::Fail;

/// A row that is swept with places, what is left of it, and how many numbers it keeps.
struct Sweep {
    row: &'static [(u32, i128)],
    leads: &'static [Lead],
    left: &'static str,
    kept: usize,
}

// 2^31 is 2147483648.
const SWEEPS: [Sweep; 6] = [
    // 2^62 and 2^62 - 1 are 2^63 - 1
    Sweep {
        row: &[(0, 1), (1, 1 << 62), (5, 1)],
        leads: &[(0, &[(0, 1), (1, 1 - (1 << 62))])],
        left: " 1:9223372036854775807 5:1",
        kept: 6,
    },
    // and one more is too many
    Sweep {
        row: &[(0, 1), (1, 1 << 62), (5, 1)],
        leads: &[(0, &[(0, 1), (1, -(1 << 62))])],
        left: " 1:9223372036854775808 5:1",
        kept: 2,
    },
    // both leads are over 2^31, and leave 2^61 over 2^31, of which 6 times as much has 64 bits, but which is 2^30
    Sweep {
        row: &[(0, 1), (2, 1), (3, 1 << 30)],
        leads: &[
            (0, &[(0, 1 << 31), (1, 1)]),
            (2, &[(1, -1), (2, 1 << 31)]),
            (3, &[(3, 1), (4, 5)]),
        ],
        left: " 4:-5368709120",
        kept: 5,
    },
    // the same, of which 2^40 times as much has 71 bits
    Sweep {
        row: &[(0, 1), (2, 1), (3, 1 << 30)],
        leads: &[
            (0, &[(0, 1 << 31), (1, 1)]),
            (2, &[(1, -1), (2, 1 << 31)]),
            (3, &[(3, 1), (4, 1 << 40)]),
        ],
        left: " 4:-1180591620717411303424",
        kept: 1,
    },
    // fractions that are swept by a lead of 63 bits
    Sweep {
        row: &[(0, 3), (1, 1 << 64), (6, 0)],
        leads: &[(0, &[(0, 2), (3, 1)])],
        left: " 1:18446744073709551616 3:-3/2",
        kept: 2,
    },
    // a product of 127 bits, the greatest
    Sweep {
        row: &[(0, 1)],
        leads: &[(0, &[(0, 1), (3, i128::MAX)])],
        left: " 3:-170141183460469231731687303715884105727",
        kept: 1,
    },
];

/// Sweeps the row with a place for each column.
fn check_sweep(rt: &impl Abort, alloc: Global, sweep: &Sweep) -> Result<(), Fail> {
    let row = swept(alloc, row_of(alloc, sweep.row)?, sweep.leads, 0)?;
    assert_eq!(rt; told(alloc, &row)?.as_str(), sweep.left);
    assert_eq!(rt; row.kept(), sweep.kept, "of{}", sweep.left);
    Ok(())
}

#[test]
fn numbers_past_63_bits(rt: HostRuntime) -> Result<(), Fail> {
    for sweep in &SWEEPS {
        check_sweep(&rt, rt.alloc(), sweep)?;
    }
    Ok(())
}

/// Whole numbers as they are added, of 63 bits and of more.
#[test]
fn added_numbers(rt: HostRuntime) -> Result<(), Fail> {
    let mut row = FracRow::with_capacity(rt.alloc(), 4)?;
    row.push_whole(0, 0)?;
    row.push_whole(2, (1 << 63) - 1)?;
    row.push_whole(3, -(1 << 63))?;
    row.push_whole(5, 0)?;
    row.push_whole(7, -i128::MAX)?;
    row.push_whole(8, 1)?;
    let left =
        " 2:9223372036854775807 3:-9223372036854775808 7:-170141183460469231731687303715884105727 8:1";
    assert_eq!(rt; told(rt.alloc(), &row)?.as_str(), left);
    assert_eq!(rt; row.kept(), 4);
    Ok(())
}

/// -2^127 is no fraction.
#[test]
fn an_added_number_that_leaves(rt: HostRuntime) -> Result<(), Fail> {
    let mut row = FracRow::new(rt.alloc());
    assert!(rt; row.push_whole(3, i128::MIN) == Err(RowFault::Leaves { column: 3 }));
    let mut row = FracRow::new(rt.alloc());
    row.push_whole(1, 1 << 64)?;
    assert!(rt; row.push_whole(2, i128::MIN) == Err(RowFault::Leaves { column: 2 }));
    Ok(())
}

/// Sweeps the row at column 0 by a lead over 1, and wants it to be refused at a column and to stay as it is.
fn check_refusal(
    rt: &impl Abort,
    alloc: Global,
    row: &mut FracRow,
    lead: &[(u32, i128)],
    column: u32,
) -> Result<(), Fail> {
    let lead = row_of(alloc, lead)?;
    let before = told(alloc, row)?;
    let refused = row.sweep(0, &lead, 0, &mut RowScratch::new(alloc));
    assert!(rt; refused == Err(RowFault::Leaves { column }));
    assert_eq!(rt; told(alloc, row)?.as_str(), before.as_str());
    Ok(())
}

/// A row, a lead over 1, and where the sweep at column 0 leaves the range.
const REFUSED: [(&[(u32, i128)], &[(u32, i128)], u32); 3] = [
    // twice the greatest number
    (&[(0, 2), (1, 6)], &[(0, 1), (1, 1), (4, i128::MAX)], 4),
    // -1 less the greatest number
    (&[(0, 1), (3, -1)], &[(0, 1), (3, i128::MAX)], 3),
    // the greatest number and 1
    (&[(0, 1), (3, i128::MAX)], &[(0, 1), (3, -1), (4, 1)], 3),
];

#[test]
fn sweeps_that_leave(rt: HostRuntime) -> Result<(), Fail> {
    for (row, lead, column) in &REFUSED {
        let mut row = row_of(rt.alloc(), row)?;
        check_refusal(&rt, rt.alloc(), &mut row, lead, *column)?;
    }
    Ok(())
}

/// The greatest number of 63 bits.
const SHORT: i128 = (1 << 63) - 1;

/// A row and a lead over different numbers of 63 bits come to a number of 127 bits over one of 126, which is not
/// refused; but the next sweep, which one of fractions is, can be.
#[test]
fn a_refusal_needs_fractions(rt: HostRuntime) -> Result<(), Fail> {
    let alloc = rt.alloc();
    let row = row_of(alloc, &[(0, SHORT), (1, SHORT - 1), (2, 1 - SHORT)])?;
    let row = over_its(row, 0)?;
    let mut row = swept(alloc, row, &[(1, &[(1, SHORT - 2), (2, SHORT - 3)])], 0)?;
    assert_eq!(rt;
        told(alloc, &row)?.as_str(),
        " 0:1 2:-170141183460469231630230211310481571854/85070591730234615828950163710522949635"
    );
    assert_eq!(rt; row.kept(), 2);
    check_refusal(&rt, alloc, &mut row, &[(0, 1), (2, 1)], 2)
}

/// The row of 1/2^126 at column 1 and of 2^126 at column 2.
fn far_apart(alloc: Global) -> Result<FracRow, Fail> {
    let row = row_of(alloc, &[(0, -1), (2, 1 << 126)])?;
    swept(alloc, row, &[(0, &[(0, 1 << 126), (1, 1)])], 0)
}

#[test]
fn a_ratio_that_leaves(rt: HostRuntime) -> Result<(), Fail> {
    let row = far_apart(rt.alloc())?;
    for (column, ratio) in [(0, "0"), (1, "1"), (2, "-")] {
        let found = ratio_told(rt.alloc(), &row, column, 1)?;
        assert_eq!(rt; found.as_str(), ratio, "at {column}");
    }
    Ok(())
}

#[test]
fn a_quotient_that_leaves(rt: HostRuntime) -> Result<(), Fail> {
    let row = far_apart(rt.alloc())?;
    if row.at(1).num() <= 0 {
        return Err(Fail::new("no positive number"));
    }
    match row.over_its(1) {
        Ok(_) => Err(Fail::new("2^252 is no fraction")),
        Err(fault) => {
            assert!(rt; fault == RowFault::Leaves { column: 2 });
            Ok(())
        }
    }
}
