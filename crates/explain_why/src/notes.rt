// What is said of functions that have bounds.
ghost use Rattle.std.specs.Prelude.{◌≡◌, ◌++◌, [], map, cond, OnOk, string_bytes};
ghost use Rattle.raml_syntax.specs.Read.{program_of};
ghost use Rattle.explain_reasons.specs.Explanation.{note_in};
ghost use Rattle.explain_why.specs.Chosen.{asking_in, is_noted};
ghost use Rattle.explain_why.specs.Notes as n;

use crate::chosen::Asking;
use explain_reasons::Note;
use raml_syntax::Program;
use report_text::{meter_name, name_at};
use std::alloc::AllocError;
use std::fmt::Write;

/// Appends what is said of a function and a meter, in a line.
fn push_note(text: &mut String, program: &Program, note: Note) -> Result<(), AllocError>
    ensures { OnOk result (string_bytes text.new ≡ string_bytes text.old ++ n.note_text (program_of program.now) (note_in note)) }
{
    match note {
        Note::FromDegree { line, degree } => {
            let name = name_at(program, line.fun);
            let meter = meter_name(line.meter);
            write!(text, "{name} {meter} has a bound from degree {degree} on\n")
        }
        Note::AtLowerDegreeAlone { line, degree } => {
            let name = name_at(program, line.fun);
            let meter = meter_name(line.meter);
            write!(
                text,
                "{name} {meter} has a bound of degree {degree}, and a limit refuses the degree that is asked for\n"
            )
        }
    }
}

/// Appends what is said of a function and a meter, where that is asked about.
fn push_asked(
    text: &mut String,
    program: &Program,
    asking: Asking,
    note: Note,
) -> Result<(), AllocError>
    ensures { OnOk result (string_bytes text.new ≡ string_bytes text.old
        ++ cond (is_noted (asking_in asking) (note_in note)) (n.note_text (program_of program.now) (note_in note)) []) }
{
    if asking.notes(note) {
        push_note(text, program, note)
    } else {
        Ok(())
    }
}

/// Appends what is said of the functions and meters that are asked about.
pub(crate) fn push_notes(
    text: &mut String,
    program: &Program,
    asking: Asking,
    notes: &[Note],
) -> Result<(), AllocError>
    ensures { OnOk result (string_bytes text.new ≡ string_bytes text.old
        ++ n.notes_text (program_of program.now) (is_noted (asking_in asking)) (map note_in notes.now)) }
{
    match notes {
        [] => Ok(()),
        [note, rest @ ..] => {
            push_asked(text, program, asking, *note)?;
            push_notes(text, program, asking, rest)
        }
    }
}
