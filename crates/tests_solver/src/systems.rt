//! A table of systems, with the answers and the pivots that another program found by the same rules, and
//! small ones that were worked out by hand.
ghost use Rattle.std.specs.Prelude.{◌<◌, ◌^◌};
ghost use Rattle.simplex_spec.specs.Tableaux.{right};

use self::lines::SYSTEMS;
use self::random::RANDOM;
use self::small::{BOTH, GREAT, LIMITED, SMALL};
use crate::choosers::{greatest_column, least_column};
use crate::plain;
use crate::text::{shown, shown_within, write_answer};
use frac128::Frac;
use linear_rows::System;
use simplex::{Answer, Chooser, agree, solve, solve_within};
use std::alloc::Global;
use std::process::Abort;
use std::str::Lines;
use std::test::Fail;
use tests_support::systems::system;

mod lines;
mod random;
mod small;

/// The lines of the answer where the least column enters.
fn solved(alloc: Global, system: &System) -> Result<String, Fail>
    requires { right system.now < 2 ^ 32 }
{
    let least = Chooser::new(|gains: &[Frac]| least_column(gains));
    shown(alloc, &solve(alloc, system, &least)?)
}

/// The lines of the plain solver's answer.
fn plainly_solved(alloc: Global, system: &System) -> Result<String, Fail> {
    shown(alloc, &plain::solve(alloc, system)?)
}

/// Compares an answer with the next lines, behind which is an empty one, or the end of the table.
fn check_answer(rt: &impl Abort, lines: &mut Lines<'_>, answer: &str, number: u32) {
    for line in answer.lines() {
        assert_eq!(rt; Some(line), lines.next(), "system {number}");
    }
    let ends_here = lines.next().unwrap_or("").is_empty();
    assert!(rt; ends_here, "the end of system {number}");
}

/// Solves the next system, with both solvers, and compares their answers with the table's.
fn check_next(
    rt: &impl Abort,
    alloc: Global,
    lines: &mut Lines<'_>,
    number: u32,
) -> Result<(), Fail> {
    let system = system(alloc, lines)?;
    let answer = solved(alloc, &system)?;
    let plain = plainly_solved(alloc, &system)?;
    assert!(rt; plain == answer, "the plain solver, system {number}");
    check_answer(rt, lines, answer.as_str(), number);
    Ok(())
}

/// Checks this many systems, which are all of the table.
fn check_table(rt: &impl Abort, alloc: Global, text: &str, systems: u32) -> Result<(), Fail> {
    let mut lines = text.lines();
    for number in 0..systems {
        check_next(rt, alloc, &mut lines, number)?;
    }
    assert!(rt; lines.next().is_none());
    Ok(())
}

#[test]
fn table(rt: HostRuntime) -> Result<(), Fail> {
    check_table(&rt, rt.alloc(), SYSTEMS, 20)
}

/// Solves the next system, and compares the answer with the table's. Its numbers may be too large for the plain
/// solver.
fn check_former(
    rt: &impl Abort,
    alloc: Global,
    lines: &mut Lines<'_>,
    number: u32,
) -> Result<(), Fail> {
    let system = system(alloc, lines)?;
    let answer = solved(alloc, &system)?;
    check_answer(rt, lines, answer.as_str(), number);
    Ok(())
}

#[test]
fn random_systems(rt: HostRuntime) -> Result<(), Fail> {
    let mut lines = RANDOM.lines();
    for number in 0..20 {
        check_former(&rt, rt.alloc(), &mut lines, number)?;
    }
    assert!(rt; lines.next().is_none());
    Ok(())
}

#[test]
fn small_systems(rt: HostRuntime) -> Result<(), Fail> {
    check_table(&rt, rt.alloc(), SMALL, 7)
}

/// The lines of both answers, where the least column enters, and where that with the greatest gain does.
fn solved_twice(alloc: Global, text: &str) -> Result<String, Fail> {
    let least = Chooser::new(|gains: &[Frac]| least_column(gains));
    let greatest = Chooser::new(|gains: &[Frac]| greatest_column(gains));
    let system = system(alloc, &mut text.lines())?;
    let (one, other) = agree(alloc, &system, &least, &greatest)?;
    shown_both(alloc, &one, &other)
}

/// The lines of two answers.
fn shown_both(alloc: Global, one: &Answer, other: &Answer) -> Result<String, Fail> {
    let mut out = String::new(alloc);
    write_answer(&mut out, one)?;
    write_answer(&mut out, other)?;
    Ok(out)
}

#[test]
fn choosers_agree(rt: HostRuntime) -> Result<(), Fail> {
    for (text, first, second) in &BOTH {
        let found = solved_twice(rt.alloc(), text)?;
        assert_eq!(rt;
            found.as_str().strip_prefix(*first),
            Some(*second),
            "of {text}"
        );
    }
    Ok(())
}

/// Solves systems whose numbers all are near 2^62.
#[test]
fn great_numbers(rt: HostRuntime) -> Result<(), Fail> {
    for (text, answer) in &GREAT {
        let system = system(rt.alloc(), &mut text.lines())?;
        let found = solved(rt.alloc(), &system)?;
        assert_eq!(rt; found.as_str(), *answer, "of {text}");
    }
    Ok(())
}

/// The lines of what comes of at most so many pivots, where the least column enters.
fn solved_within(alloc: Global, system: &System, most: Option<usize>) -> Result<String, Fail>
    requires { right system.now < 2 ^ 32 }
{
    let least = Chooser::new(|gains: &[Frac]| least_column(gains));
    shown_within(alloc, &solve_within(alloc, system, &least, most)?)
}

/// Solves with no pivot and with more, one by one, of which each is too few.
fn check_cuts(rt: &impl Abort, alloc: Global, text: &str, cuts: &[&str]) -> Result<(), Fail> {
    let system = system(alloc, &mut text.lines())?;
    for most in 0..cuts.len() {
        let found = solved_within(alloc, &system, Some(most))?;
        assert_eq!(rt; found.as_str(), cuts[most], "{most} pivots of {text}");
    }
    Ok(())
}

/// Solves with the least limit that cuts nothing, with the greatest, and with none, as `solve` does.
fn check_answers(rt: &impl Abort, alloc: Global, text: &str, least: usize) -> Result<(), Fail> {
    let system = system(alloc, &mut text.lines())?;
    let answer = solved(alloc, &system)?;
    for most in [Some(least), Some(usize::MAX), None] {
        let found = solved_within(alloc, &system, most)?;
        assert_eq!(rt; found.as_str(), answer.as_str(), "of {text}");
    }
    Ok(())
}

#[test]
fn limits(rt: HostRuntime) -> Result<(), Fail> {
    for (text, cuts) in &LIMITED {
        check_cuts(&rt, rt.alloc(), text, cuts)?;
        check_answers(&rt, rt.alloc(), text, cuts.len())?;
    }
    Ok(())
}
