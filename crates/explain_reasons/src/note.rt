// What is said of functions that have bounds.
ghost use Rattle.std.specs.Prelude.{◌≡◌, ◌<◌, ◌+◌, ◌^◌, ◌++◌, length, map, IfOk, OnOk};
ghost use Rattle.explain_lines.specs.Read.{line_of};
ghost use Rattle.explain_reasons.specs.Notes as n;
ghost use Rattle.explain_reasons.specs.Explanation.{note_in};

use cost_free::Meter;
use explain_degrees::{Finding, Findings, LeastBounds, RefusedDegree};
use explain_lines::Line;
use raml_syntax::FunId;
use std::alloc::{AllocError, Global};

/// What is said of a bound where another degree is asked for.
#[derive(Clone, Copy, PartialEq, Eq, Debug)]
pub enum Note {
    /// There is a bound from this degree on, which is higher.
    FromDegree { line: Line, degree: u8 },
    /// There is one of this degree, which is lower, and a limit refuses the analysis at the degree.
    AtLowerDegreeAlone { line: Line, degree: u8 },
}

/// Whether the analysis at the degree was refused.
fn is_refused(refused: &[RefusedDegree], degree: u8) -> bool
    ensures { result ≡ n.is_refused degree refused.now }
{
    match refused {
        [] => false,
        [first, rest @ ..] => first.degree == degree || is_refused(rest, degree),
    }
}

/// Adds what is said of a line with a bound of this degree.
fn add_bound(
    notes: &mut Vec<Note>,
    asked: u8,
    is_refused: bool,
    line: Line,
    degree: u8,
) -> Result<(), AllocError>
    ensures { OnOk result (map note_in notes.new.items
        ≡ map note_in notes.old.items ++ n.note_of_bound asked is_refused (line_of line) degree) }
{
    if asked < degree {
        notes.push(Note::FromDegree { line, degree })?;
    } else if degree < asked && is_refused {
        notes.push(Note::AtLowerDegreeAlone { line, degree })?;
    }
    Ok(())
}

/// Adds what is said of a line.
fn add_note(
    notes: &mut Vec<Note>,
    asked: u8,
    is_refused: bool,
    line: Line,
    finding: &Finding,
) -> Result<(), AllocError>
    ensures { OnOk result (map note_in notes.new.items
        ≡ map note_in notes.old.items ++ n.note_of asked is_refused (line_of line) finding.now) }
{
    match finding {
        Finding::Bound { degree, .. } => add_bound(notes, asked, is_refused, line, *degree),
        Finding::NoBound { .. } | Finding::Calls { .. } | Finding::Refused => Ok(()),
    }
}

/// Adds what is said of a function.
fn add_notes(
    notes: &mut Vec<Note>,
    asked: u8,
    is_refused: bool,
    fun: FunId,
    findings: &Findings,
) -> Result<(), AllocError>
    ensures { OnOk result (map note_in notes.new.items
        ≡ map note_in notes.old.items ++ n.notes_at asked is_refused fun.0 findings.now) }
{
    let ticks = Line {
        fun,
        meter: Meter::Ticks,
    };
    let cells = Line {
        fun,
        meter: Meter::Cells,
    };
    let work = Line {
        fun,
        meter: Meter::Work,
    };
    add_note(notes, asked, is_refused, ticks, &findings.ticks)?;
    add_note(notes, asked, is_refused, cells, &findings.cells)?;
    add_note(notes, asked, is_refused, work, &findings.work)
}

/// Adds what is said of the functions from a place on.
fn add_all(
    notes: &mut Vec<Note>,
    asked: u8,
    is_refused: bool,
    fun: u32,
    found: &[Findings],
) -> Result<(), AllocError>
    requires { fun + length found.now < 2 ^ 32 }
    ensures { OnOk result (map note_in notes.new.items
        ≡ map note_in notes.old.items ++ n.notes_from asked is_refused fun found.now) }
{
    match found {
        [] => Ok(()),
        [findings, rest @ ..] => {
            add_notes(notes, asked, is_refused, FunId(fun), findings)?;
            add_all(notes, asked, is_refused, fun + 1, rest)
        }
    }
}

/// What is said of the bounds that were found, where this degree is asked for.
pub(crate) fn notes_of(
    alloc: Global,
    found: &LeastBounds,
    asked: u8,
) -> Result<Vec<Note>, AllocError>
    requires { length found.now.functions.items < 2 ^ 32 }
    ensures { IfOk result (λ notes. map note_in notes.items
        ≡ n.notes asked found.now.refused.items found.now.functions.items) }
{
    let mut notes = Vec::new(alloc);
    let is_refused = is_refused(&found.refused, asked);
    add_all(&mut notes, asked, is_refused, 0, &found.functions)?;
    Ok(notes)
}
