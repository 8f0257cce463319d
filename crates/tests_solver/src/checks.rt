//! Checks of vectors, on small systems.
ghost use Rattle.std.specs.Prelude.{◌≡◌, length};

use farkas_check::{Verdict, least, least_quickly, refutes, refutes_quickly};
use linear_rows::{Row, System};
use std::alloc::Global;
use std::test::Fail;

/// Adds the row `times * x >= right` to a system of one unknown.
fn add(system: &mut System, alloc: Global, times: i128, right: i128) -> Result<(), Fail>
    requires { system.old.unknowns ≡ 1 }
    ensures { system.new.unknowns ≡ 1 }
{
    let mut row = Row::new(alloc);
    row.add(0, times)?;
    row.add_right(right)?;
    system.add_row(row)?;
    Ok(())
}

/// One unknown of weight 1, and the row `times * x >= right` so many times.
fn repeated(alloc: Global, times: i128, right: i128, rows: u32) -> Result<System, Fail> {
    let mut system = System::new(1, vec![in alloc]?, vec![in alloc; 1]?);
    for _ in 0..rows {
        add(&mut system, alloc, times, right)?;
    }
    Ok(system)
}

/// What is said of these two numbers, where the row `times * x >= right` stands twice.
fn refuted(
    alloc: Global,
    quickly: bool,
    times: i128,
    right: i128,
    first: i128,
    second: i128,
) -> Result<Option<Verdict>, Fail> {
    let system = repeated(alloc, times, right, 2)?;
    if system.rows().len() == 2 && first >= 0 && second >= 0 {
        let numbers = [first, second];
        let said = if quickly {
            refutes_quickly(alloc, &system, &numbers)
        } else {
            refutes(&system, &numbers)
        };
        Ok(Some(said))
    } else {
        Ok(None)
    }
}

/// The same row twice, a number for each, and what is said of them.
const REFUTATIONS: [(i128, i128, i128, i128, Verdict); 7] = [
    (0, 1, 1, 0, Verdict::Yes),
    (0, 1, 0, 0, Verdict::No { column: 1 }),
    (0, 1, i128::MAX, 0, Verdict::Yes),
    (0, 1, i128::MAX, i128::MAX, Verdict::Leaves { column: 1 }),
    (1, 1, 1, 0, Verdict::No { column: 0 }),
    (-2, 1, 1, 1, Verdict::Yes),
    (-2, 1, i128::MAX, 1, Verdict::Leaves { column: 0 }),
];

#[test]
fn refutations(rt: HostRuntime) -> Result<(), Fail> {
    for (times, right, first, second, want) in &REFUTATIONS {
        let said = refuted(rt.alloc(), false, *times, *right, *first, *second)?;
        assert!(rt; said == Some(*want), "of {times}, {first} and {second}");
        let quick = refuted(rt.alloc(), true, *times, *right, *first, *second)?;
        assert!(rt;
            quick == Some(*want),
            "quickly of {times}, {first} and {second}"
        );
    }
    Ok(())
}

/// What is said of `x` and `y` over `scale`, where the one row is `x >= 3`.
fn told_least(
    alloc: Global,
    quickly: bool,
    x: i128,
    y: i128,
    scale: i128,
) -> Result<Option<Verdict>, Fail> {
    let three = repeated(alloc, 1, 3, 1)?;
    if three.unknowns() == 1 && three.rows().len() == 1 && x >= 0 && y >= 0 && scale > 0 {
        let said = if quickly {
            least_quickly(alloc, &three, &[x], &[y], scale)
        } else {
            least(&three, &[x], &[y], scale)
        };
        Ok(Some(said))
    } else {
        Ok(None)
    }
}

/// Of the row `x >= 3` 3 is the least solution.
const LEAST: [(i128, i128, i128, Verdict); 6] = [
    (3, 1, 1, Verdict::Yes),
    (6, 2, 2, Verdict::Yes),
    // 2 does not solve the row, 2 is no dual solution, and 4 is more than the dual sum
    (2, 1, 1, Verdict::No { column: 1 }),
    (3, 2, 1, Verdict::No { column: 0 }),
    (4, 1, 1, Verdict::No { column: 1 }),
    // three times the greatest number does not fit
    (i128::MAX, 1, i128::MAX, Verdict::Leaves { column: 1 }),
];

#[test]
fn least_solutions(rt: HostRuntime) -> Result<(), Fail> {
    for (x, y, scale, want) in &LEAST {
        let said = told_least(rt.alloc(), false, *x, *y, *scale)?;
        assert!(rt; said == Some(*want), "of {x} and {y} over {scale}");
        let quick = told_least(rt.alloc(), true, *x, *y, *scale)?;
        assert!(rt; quick == Some(*want), "quickly of {x} and {y} over {scale}");
    }
    Ok(())
}
