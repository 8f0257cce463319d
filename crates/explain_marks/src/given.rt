// Runs on given arguments.
ghost use Rattle.std.specs.Prelude.{◌≡◌, ◌<◌, ◌≤◌, ℕ, true, length, IfOk, OnOk};
ghost use Rattle.std.specs.List.{All, insert};
ghost use Rattle.raml_syntax.specs.Read.{program_of};
ghost use Rattle.annot_types.specs.Certificate.{has_work};
ghost use Rattle.rules_plan.specs.Read.{program_in};
ghost use Rattle.explain_chart.specs.Read.{mark_in};
ghost use Rattle.explain_runs.specs.Measure.{CanRun};
ghost use Rattle.explain_marks.specs.Marks.{IsAdded, IsFileMark, IsGivenMark};

use crate::marks::{Cut, Given, MOST_STEPS, Marks};
use crate::run::run_on;
use bound_infer::Verified;
use cost_free::Meter;
use explain_chart::Mark;
use raml_syntax::FunId;
use simple_types::Typed;
use std::alloc::{AllocError, Global};

/// Runs of the function on the arguments of files, by the size of the argument at the place.
pub(crate) fn marks_given<'a>(
    alloc: Global,
    typed: &Typed,
    verified: &Verified<'_, '_>,
    fun: FunId,
    meter: Meter,
    place: usize,
    files: &'a [Given<'a>],
) -> Result<Marks<'a>, AllocError>
    requires source { verified.now.program.source ≡ typed.now }
    requires runs { CanRun (program_of typed.now) }
    requires fun { fun.0 < length (program_of typed.now) }
    requires work { has_work verified.now.certificate ≡ true }
    ensures { IfOk result (λ found. All
        (λ m. IsGivenMark (program_of typed.now) (program_in verified.now.program) verified.now.certificate fun.0 meter place files.entry.now (mark_in m))
        found.marks.items) }
{
    let mut found = Marks {
        marks: Vec::new(alloc),
        cut: None,
        steps: MOST_STEPS,
    };
    for file in files {
        if found.cut.is_none() {
            add_file(alloc, typed, verified, fun, meter, place, file, &mut found)?;
        }
    }
    Ok(found)
}

/// Adds the run on a file, or that a limit was met.
fn add_file<'a>(
    alloc: Global,
    typed: &Typed,
    verified: &Verified<'_, '_>,
    fun: FunId,
    meter: Meter,
    place: usize,
    file: &'a Given<'a>,
    found: &mut Marks<'a>,
) -> Result<(), AllocError>
    requires source { verified.now.program.source ≡ typed.now }
    requires runs { CanRun (program_of typed.now) }
    requires fun { fun.0 < length (program_of typed.now) }
    requires work { has_work verified.now.certificate ≡ true }
    requires steps { found.old.steps ≤ 2000000 }
    ensures steps { found.new.steps ≤ 2000000 }
    ensures marks { OnOk result (IsAdded
        (IsFileMark (program_of typed.now) (program_in verified.now.program) verified.now.certificate fun.0 meter place file.entry.now)
        found.old.marks.items found.new.marks.items) }
{
    match run_on(
        alloc,
        typed,
        verified,
        fun,
        meter,
        place,
        &file.bytes,
        found.steps,
    )? {
        Some(run) => {
            found.steps = found.steps.saturating_sub(run.steps);
            let mark = Mark {
                size: run.size,
                kind: kind_of(file.name),
                cost: run.cost,
                bound: run.bound,
            };
            put(&mut found.marks, mark)
        }
        None => {
            found.cut = Some(Cut::File(file.name));
            Ok(())
        }
    }
}

/// Puts a run behind those of no greater size.
fn put<'a>(marks: &mut Vec<Mark<'a>>, mark: Mark<'a>) -> Result<(), AllocError>
    ensures { OnOk result ((place : ℕ) × (marks.new.items ≡ insert marks.old.items place mark.entry)) }
{
    let place = marks
        .iter()
        .position(|other| mark.size < other.size)
        .unwrap_or(marks.len());
    marks.insert(place, mark)?;
    Ok(())
}

/// What is told of the arguments of a file: its name, where that can stand in a picture as it is.
fn kind_of(name: &str) -> &str {
    if name.as_bytes().iter().all(|byte| is_plain(*byte)) {
        name
    } else {
        "given"
    }
}

/// Whether a byte of a name needs no escape between tags.
fn is_plain(byte: u8) -> bool {
    byte >= b' ' && !matches!(byte, b'&' | b'<' | b'>' | 127)
}
