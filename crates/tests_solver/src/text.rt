//! Answers as text, in the form of systems: lines of fractions and of pivots, without the fractions that are 0.

use frac128::Frac;
use simplex::{Answer, Within};
use std::alloc::Global;
use std::fmt::Write;
use std::test::Fail;

/// Writes a line with the fractions that are not 0, each after its place.
fn write_fracs(out: &mut String, name: &str, fracs: &[Frac]) -> Result<(), Fail> {
    out.push_str(name)?;
    for i in 0..fracs.len() {
        if fracs[i].num() != 0 {
            let frac = fracs[i];
            write!(out, " {i}:{frac}")?;
        }
    }
    out.push('\n')?;
    Ok(())
}

/// Writes a line with the pivots, each the row and the column.
fn write_pivots(out: &mut String, pivots: &[(u32, u32)]) -> Result<(), Fail> {
    out.push_str("pivots")?;
    for (row, column) in pivots {
        write!(out, " {row}:{column}")?;
    }
    out.push('\n')?;
    Ok(())
}

/// Writes the lines of an answer.
pub(super) fn write_answer(out: &mut String, answer: &Answer) -> Result<(), Fail> {
    match answer {
        Answer::Best { x, dual, pivots } => {
            out.push_str("answer best\n")?;
            write_fracs(out, "x", x)?;
            write_fracs(out, "dual", dual)?;
            write_pivots(out, pivots)
        }
        Answer::NoSolution { farkas, pivots } => {
            out.push_str("answer none\n")?;
            write_fracs(out, "farkas", farkas)?;
            write_pivots(out, pivots)
        }
        Answer::Leaves { pivots, row, col } => {
            writeln!(out, "answer leaves {row} {col}")?;
            write_pivots(out, pivots)
        }
    }
}

/// The lines of an answer.
pub(super) fn shown(alloc: Global, answer: &Answer) -> Result<String, Fail> {
    let mut out = String::new(alloc);
    write_answer(&mut out, answer)?;
    Ok(out)
}

/// The lines of an answer, or of the pivots after which solving is cut.
pub(super) fn shown_within(alloc: Global, within: &Within) -> Result<String, Fail> {
    let mut out = String::new(alloc);
    match within {
        Within::Answered(answer) => write_answer(&mut out, answer)?,
        Within::Cut { pivots } => {
            out.push_str("cut\n")?;
            write_pivots(&mut out, pivots)?;
        }
    }
    Ok(out)
}
