//! What systems come to by the rules of the product.
//!
//! Of a row `p x >= b` that has an unknown of weight w for itself, with p and b positive, the solution has
//! `b / p` and the dual solution `w / p`. Its pivot makes no other numbers than `1 / p`, `w / p`, `b / p` and,
//! among the gains, sums of `b w / p`, so that large p and b leave nothing in solving.
//!
//! In the tables 2^63 is 9223372036854775808, 2^64 is 18446744073709551616, 2^125 is
//! 42535295865117307932921825928971026432, and 2^126 is 85070591730234615865843651857942052864.
use frac128::Frac;
use simplex::Chooser;
use simplex_checked::{
    Answer, AnswerFault, answer_by_greatest, answer_by_least, least_column, whole_answer,
};
use std::alloc::Global;
use std::fmt::Write;
use std::process::Abort;
use std::test::Fail;
use tests_support::systems::system;

/// Writes numbers, each behind a space.
fn push_numbers(out: &mut String, numbers: &[i128]) -> Result<(), Fail> {
    for number in numbers {
        write!(out, " {number}")?;
    }
    Ok(())
}

/// Writes pivots, each the row and the column.
fn push_pivots(out: &mut String, pivots: &[(u32, u32)]) -> Result<(), Fail> {
    for (row, column) in pivots {
        write!(out, " {row}:{column}")?;
    }
    Ok(())
}

fn push_answer(out: &mut String, answer: &Answer) -> Result<(), Fail> {
    match answer {
        Answer::Solution {
            denominator,
            numbers,
        } => {
            write!(out, "over {denominator}:")?;
            push_numbers(out, numbers)
        }
        Answer::Vector { numbers } => {
            out.push_str("refuted by")?;
            push_numbers(out, numbers)
        }
    }
}

fn push_fault(out: &mut String, fault: &AnswerFault) -> Result<(), Fail> {
    match fault {
        AnswerFault::Solve {
            pivots,
            row,
            column,
        } => {
            write!(out, "solve {row} {column} after")?;
            push_pivots(out, pivots)
        }
        AnswerFault::Scale { entry } => Ok(write!(out, "scale {entry}")?),
        AnswerFault::Refute { column } => Ok(write!(out, "refute {column}")?),
        AnswerFault::Least { column } => Ok(write!(out, "least {column}")?),
        AnswerFault::NoMemory => Err(Fail::new("no memory")),
    }
}

/// What a system came to, as text.
fn shown(alloc: Global, outcome: &Result<Answer, AnswerFault>) -> Result<String, Fail> {
    let mut out = String::new(alloc);
    match outcome {
        Ok(answer) => push_answer(&mut out, answer)?,
        Err(fault) => push_fault(&mut out, fault)?,
    }
    Ok(out)
}

fn by_least(alloc: Global, text: &str) -> Result<String, Fail> {
    let system = system(alloc, &mut text.lines())?;
    shown(alloc, &answer_by_least(alloc, &system))
}

fn by_greatest(alloc: Global, text: &str) -> Result<String, Fail> {
    let system = system(alloc, &mut text.lines())?;
    shown(alloc, &answer_by_greatest(alloc, &system))
}

/// By the rule of the least column, with a chooser of the caller's own.
fn by_chooser(alloc: Global, text: &str) -> Result<String, Fail> {
    let chooser = Chooser::new(|gains: &[Frac]| least_column(gains));
    let system = system(alloc, &mut text.lines())?;
    shown(alloc, &whole_answer(alloc, &system, &chooser))
}

/// What a system comes to by the rule of the least column, and by that of the greatest gain where this is
/// something else.
fn by_both(alloc: Global, text: &str) -> Result<String, Fail> {
    let mut found = by_least(alloc, text)?;
    let other = by_greatest(alloc, text)?;
    if found != other {
        found.push_str(" or ")?;
        found.push_str(&other)?;
    }
    Ok(found)
}

fn check_all(rt: &impl Abort, alloc: Global, table: &[(&str, &str)]) -> Result<(), Fail> {
    for (text, want) in table {
        let found = by_both(alloc, text)?;
        assert!(rt; found.as_str() == *want, "{found} of {text}");
    }
    Ok(())
}

const ANSWERS: [(&str, &str); 6] = [
    ("system 0 0\nweights", "over 1:"),
    ("system 1 1\nweights 0:1\nrow 1 0:2", "over 2: 1"),
    // 1/2 and 1/3
    (
        "system 2 2\nweights 0:1 1:1\nrow 1 0:2\nrow 1 1:3",
        "over 6: 3 2",
    ),
    // the dual solution is 1/2, and the solution stands over its own denominator
    ("system 1 1\nweights 0:1\nrow 2 0:2", "over 1: 1"),
    ("system 1 1\nweights\nrow 1", "refuted by 1"),
    // three times the first row and twice the second: 0 is at least 5
    (
        "system 1 2\nweights 0:1\nrow 1 0:2\nrow 1 0:-3",
        "refuted by 3 2",
    ),
];

#[test]
fn systems_are_answered(rt: HostRuntime) -> Result<(), Fail> {
    check_all(&rt, rt.alloc(), &ANSWERS)
}

#[test]
fn a_chooser_is_asked(rt: HostRuntime) -> Result<(), Fail> {
    for (text, want) in &ANSWERS {
        let found = by_chooser(rt.alloc(), text)?;
        assert!(rt; found.as_str() == *want, "{found} of {text}");
    }
    Ok(())
}

/// Of two rows that no solution has, the first one enters, or that of the greater gain, and it refutes by
/// itself. Below, `2 x >= 2` is entered first by the least column, and then half of it and the second row
/// refute; by the greatest gain the second row is entered, and refutes by itself.
const RULES_DIFFER: [(&str, &str); 2] = [
    (
        "system 1 2\nweights\nrow 1\nrow 2",
        "refuted by 1 0 or refuted by 0 1",
    ),
    (
        "system 1 2\nweights\nrow 2 0:2\nrow 3 0:-1",
        "refuted by 1 2 or refuted by 0 1",
    ),
];

#[test]
fn rules_differ(rt: HostRuntime) -> Result<(), Fail> {
    check_all(&rt, rt.alloc(), &RULES_DIFFER)
}

const SOLVING_LEAVES: [(&str, &str); 3] = [
    // the coefficient -2^127 is no fraction
    (
        "system 2 2\nweights 0:1\nrow 0 0:1\nrow 0 0:1 1:-170141183460469231731687303715884105728",
        "solve 1 1 after",
    ),
    // nor is the right side, among the gains
    (
        "system 1 1\nweights 0:1\nrow -170141183460469231731687303715884105728 0:1",
        "solve 1 0 after",
    ),
    // 2^126 times the weight 2, in the gains at the right sides; the pivot of the first row comes
    // before where the least column enters
    (
        "system 2 2\nweights 0:1 1:2\nrow 1 0:1\nrow 85070591730234615865843651857942052864 1:1",
        "solve 2 4 after 0:0 or solve 2 4 after",
    ),
];

#[test]
fn solving_leaves(rt: HostRuntime) -> Result<(), Fail> {
    check_all(&rt, rt.alloc(), &SOLVING_LEAVES)
}

const SCALES_LEAVE: [(&str, &str); 6] = [
    // 1/2^63, 1/(2^63 - 1) and 1/3: the first two have the denominator 2^126 - 2^63, and three times that is
    // above 2^127
    (
        "system 3 3\nweights\nrow 1 0:9223372036854775808\nrow 1 1:9223372036854775807\nrow 1 2:3",
        "scale 2",
    ),
    // the solution is 1 and 1, the dual one 1/2^64 and 1/(2^64 - 1): its second entry is behind three others
    (
        "system 2 2\nweights 0:1 1:1\nrow 18446744073709551616 0:18446744073709551616\n\
         row 18446744073709551615 1:18446744073709551615",
        "scale 3",
    ),
    // 1/2, 2^126 and 2^126: over 2 the second entry is 2^127, and so is the third
    (
        "system 3 3\nweights\nrow 1 0:2\nrow 85070591730234615865843651857942052864 1:1\n\
         row 85070591730234615865843651857942052864 2:1",
        "scale 1",
    ),
    // the solution is 1 and 1, the dual one 2^126 and 1/2
    (
        "system 2 2\nweights 0:85070591730234615865843651857942052864 1:1\nrow 1 0:1\nrow 2 1:2",
        "scale 2",
    ),
    // refuted by 1/2^64 of the first row, 1/(2^64 - 1) of the second, and the third
    (
        "system 2 3\nweights\nrow 18446744073709551616 0:18446744073709551616\n\
         row 18446744073709551615 1:18446744073709551615\nrow 1 0:-1 1:-1",
        "scale 1",
    ),
    // refuted by 2^125 times the first row, a quarter of the second, and the third: over 4 the first entry is
    // 2^127
    (
        "system 2 3\nweights\nrow 3 0:1\nrow 4 1:4\n\
         row 1 0:-42535295865117307932921825928971026432 1:-1",
        "scale 0",
    ),
];

#[test]
fn scales_leave(rt: HostRuntime) -> Result<(), Fail> {
    check_all(&rt, rt.alloc(), &SCALES_LEAVE)
}

const REFUTING_LEAVES: [(&str, &str); 2] = [
    // (2^64 - 1)/2^64 of the first row and the second: over 2^64 both terms of the unknown are
    // 2^64 (2^64 - 1), above 2^127
    (
        "system 1 2\nweights\nrow 18446744073709551616 0:18446744073709551616\n\
         row 1 0:-18446744073709551615",
        "refute 0",
    ),
    // half the first row and the second: over 2 the right sides are 2 and 2^127; where the second row enters
    // first it refutes by itself
    (
        "system 1 2\nweights\nrow 2 0:2\nrow 85070591730234615865843651857942052864 0:-1",
        "refute 1 or refuted by 0 1",
    ),
];

#[test]
fn refuting_leaves(rt: HostRuntime) -> Result<(), Fail> {
    check_all(&rt, rt.alloc(), &REFUTING_LEAVES)
}

/// In each of them the unknown 0 or 1 is 1/2, so that all stands over 2.
const PROVING_LEAVES: [(&str, &str); 3] = [
    // a row: the coefficient 2^64 times 2^63, the number of 2^62 over 2; rows are told as the column that is
    // behind the unknowns
    (
        "system 2 2\nweights\nrow 85070591730234615865843651857942052864 0:18446744073709551616\nrow 1 1:2",
        "least 2",
    ),
    // the unknown 1: the coefficient 2^64 times 2^63, the number of the dual 2^62 over 2
    (
        "system 2 2\nweights 1:85070591730234615865843651857942052864\nrow 1 0:2\n\
         row 18446744073709551616 1:18446744073709551616",
        "least 1",
    ),
    // the sums: the right side 2^63 times 2^64, the number of the dual 2^63 over 2
    (
        "system 2 2\nweights 0:9223372036854775808\nrow 9223372036854775808 0:1\nrow 1 1:2",
        "least 2",
    ),
];

#[test]
fn proving_leaves(rt: HostRuntime) -> Result<(), Fail> {
    check_all(&rt, rt.alloc(), &PROVING_LEAVES)
}
