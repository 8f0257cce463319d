//! The lines of powers and of comparisons.
ghost use Rattle.std.specs.Prelude.{◌<ℤ◌, pos, IfOk};

use bound_compare::{
    Compared, Exponents, PowerForm, Relation, leaves_line, push_compared_line, push_not_flat_line,
    push_powers_line,
};
use std::alloc::{AllocError, Global};
use std::test::Fail;

// Half of n1, and three halves of its square.
fn halves(alloc: Global) -> Result<PowerForm, AllocError>
    ensures { IfOk result (λ form. pos 0 <ℤ form.den) }
{
    let once = (Exponents::new(vec![in alloc; 1]?), 12);
    let twice = (Exponents::new(vec![in alloc; 2]?), 36);
    Ok(PowerForm {
        den: 24,
        terms: vec![in alloc; once, twice]?,
    })
}

#[test]
fn bounds_have_lines(rt: HostRuntime) -> Result<(), Fail> {
    let form = halves(rt.alloc())?;
    let mut text = String::new(rt.alloc());
    push_powers_line(&mut text, "qsort", "cells", &form)?;
    push_not_flat_line(&mut text, "flat", "cells")?;
    assert_eq!(rt;
        text.as_str(),
        "qsort cells <= 1/2*n1 + 3/2*n1^2\nflat cells not flat\n"
    );
    Ok(())
}

#[test]
fn powers_that_leave_have_a_line(rt: HostRuntime) -> Result<(), Fail> {
    let line = leaves_line(rt.alloc(), "f121", "work")?;
    assert_eq!(rt; line.as_str(), "raml: overflow: powers f121 work\n");
    Ok(())
}

// What a comparison tells, and its line.
const LINES: [(Compared, &str); 6] = [
    (Compared::Absent, "append ticks absent\n"),
    (Compared::NoBound, "append ticks no bound\n"),
    (Compared::Bounds(Relation::Equal), "append ticks equal\n"),
    (Compared::Bounds(Relation::Below), "append ticks below\n"),
    (Compared::Bounds(Relation::Above), "append ticks above\n"),
    (Compared::Bounds(Relation::Mixed), "append ticks mixed\n"),
];

#[test]
fn comparisons_have_lines(rt: HostRuntime) -> Result<(), Fail> {
    for (compared, want) in &LINES {
        let mut text = String::new(rt.alloc());
        push_compared_line(&mut text, "append", "ticks", *compared)?;
        assert_eq!(rt; text.as_str(), *want);
    }
    Ok(())
}
