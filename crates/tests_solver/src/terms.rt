//! Rows of a system: each call once, and the edges of 128 bits.
use linear_rows::{LeavesRow, Row, RowFault};
use std::process::Abort;
use std::test::Fail;
use tests_support::systems::system;

/// Adds each term, and compares the terms that stand then.
fn check_sum(
    rt: &impl Abort,
    row: &mut Row,
    terms: &[(u32, i128)],
    sum: &[(u32, i128)],
) -> Result<(), Fail> {
    for (unknown, times) in terms {
        row.add(*unknown, *times)?;
    }
    assert!(rt; row.terms() == sum);
    Ok(())
}

#[test]
fn terms_ascend(rt: HostRuntime) -> Result<(), Fail> {
    let mut row = Row::new(rt.alloc());
    let terms = [(7, 2), (3, -1), (5, 4), (7, 1), (5, -4), (9, 0)];
    check_sum(&rt, &mut row, &terms, &[(3, -1), (7, 3)])?;
    assert!(rt; row.coefficient(7) == 3);
    assert!(rt; row.coefficient(5) == 0);
    assert!(rt; row.add_right(-6).is_ok());
    assert!(rt; row.right() == -6);
    Ok(())
}

/// What is added, what comes of it, and the terms then.
const SUMS: [(u32, i128, Result<(), RowFault>, &[(u32, i128)]); 5] = [
    (0, i128::MAX, Ok(()), &[(0, i128::MAX)]),
    (0, 1, Err(RowFault::LeavesRow), &[(0, i128::MAX)]),
    (1, i128::MIN, Ok(()), &[(0, i128::MAX), (1, i128::MIN)]),
    (
        1,
        -1,
        Err(RowFault::LeavesRow),
        &[(0, i128::MAX), (1, i128::MIN)],
    ),
    (0, i128::MIN, Ok(()), &[(0, -1), (1, i128::MIN)]),
];

#[test]
fn numbers_that_leave(rt: HostRuntime) {
    let mut row = Row::new(rt.alloc());
    for (unknown, times, added, terms) in &SUMS {
        assert!(rt; row.add(*unknown, *times) == *added, "{times} at {unknown}");
        assert!(rt; row.terms() == *terms, "{times} at {unknown}");
    }
    assert!(rt; row.add_right(i128::MIN) == Ok(()));
    assert!(rt; row.add_right(-1) == Err(LeavesRow));
    assert!(rt; row.right() == i128::MIN);
}

/// One unknown of weight 1, and the row that it is at least 3.
#[test]
fn one_row(rt: HostRuntime) -> Result<(), Fail> {
    let one = system(
        rt.alloc(),
        &mut "system 1 1\nweights 0:1\nrow 3 0:1".lines(),
    )?;
    assert!(rt; one.unknowns() == 1);
    assert!(rt; one.weights() == [1].as_slice());
    assert!(rt; one.rows().len() == 1);
    for row in one.rows() {
        assert!(rt; row.terms() == [(0, 1)].as_slice());
        assert!(rt; row.right() == 3);
    }
    Ok(())
}
