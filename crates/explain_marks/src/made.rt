// Runs on made arguments.
ghost use Rattle.std.specs.Prelude.{◌≡◌, ◌<◌, ◌≤◌, true, length, IfOk, OnOk};
ghost use Rattle.std.specs.List.{All};
ghost use Rattle.raml_syntax.specs.Read.{program_of};
ghost use Rattle.annot_types.specs.Certificate.{has_work};
ghost use Rattle.rules_plan.specs.Read.{program_in};
ghost use Rattle.explain_chart.specs.Read.{mark_in};
ghost use Rattle.explain_runs.specs.Measure.{CanRun};
ghost use Rattle.explain_marks.specs.Marks.{IsMark};

use crate::marks::{Cut, MOST_STEPS, Made, Marks};
use crate::run::run_on;
use bound_infer::Verified;
use cost_free::Meter;
use explain_chart::Mark;
use explain_made::{Shape, made_arguments};
use raml_syntax::FunId;
use simple_types::Typed;
use std::alloc::{AllocError, Global};

/// Runs of the function on made arguments, three of each size: on random, ascending and descending ones.
pub(crate) fn marks_made<'a>(
    alloc: Global,
    typed: &Typed,
    verified: &Verified<'_, '_>,
    fun: FunId,
    meter: Meter,
    made: &Made<'_>,
) -> Result<Marks<'a>, AllocError>
    requires source { verified.now.program.source ≡ typed.now }
    requires runs { CanRun (program_of typed.now) }
    requires fun { fun.0 < length (program_of typed.now) }
    requires work { has_work verified.now.certificate ≡ true }
    ensures { IfOk result (λ found. All
        (λ m. IsMark (program_of typed.now) (program_in verified.now.program) verified.now.certificate fun.0 meter (mark_in m))
        found.marks.items) }
{
    let mut found = Marks {
        marks: Vec::new(alloc),
        cut: None,
        steps: MOST_STEPS,
    };
    for size in made.sizes {
        if found.cut.is_none() {
            add_size(alloc, typed, verified, fun, meter, made, *size, &mut found)?;
        }
    }
    Ok(found)
}

/// Adds the runs of one size.
fn add_size(
    alloc: Global,
    typed: &Typed,
    verified: &Verified<'_, '_>,
    fun: FunId,
    meter: Meter,
    made: &Made<'_>,
    size: u32,
    found: &mut Marks<'_>,
) -> Result<(), AllocError>
    requires source { verified.now.program.source ≡ typed.now }
    requires runs { CanRun (program_of typed.now) }
    requires fun { fun.0 < length (program_of typed.now) }
    requires work { has_work verified.now.certificate ≡ true }
    requires steps { found.old.steps ≤ 2000000 }
    requires before { All (λ m. IsMark (program_of typed.now) (program_in verified.now.program) verified.now.certificate fun.0 meter (mark_in m))
        found.old.marks.items }
    ensures steps { found.new.steps ≤ 2000000 }
    ensures marks { OnOk result (All
        (λ m. IsMark (program_of typed.now) (program_in verified.now.program) verified.now.certificate fun.0 meter (mark_in m))
        found.new.marks.items) }
{
    for shape in [Shape::Random, Shape::Ascending, Shape::Descending] {
        add_run(alloc, typed, verified, fun, meter, made, size, shape, found)?;
    }
    Ok(())
}

/// Adds a run, or that a limit was met.
fn add_run(
    alloc: Global,
    typed: &Typed,
    verified: &Verified<'_, '_>,
    fun: FunId,
    meter: Meter,
    made: &Made<'_>,
    size: u32,
    shape: Shape,
    found: &mut Marks<'_>,
) -> Result<(), AllocError>
    requires source { verified.now.program.source ≡ typed.now }
    requires runs { CanRun (program_of typed.now) }
    requires fun { fun.0 < length (program_of typed.now) }
    requires work { has_work verified.now.certificate ≡ true }
    requires steps { found.old.steps ≤ 2000000 }
    requires before { All (λ m. IsMark (program_of typed.now) (program_in verified.now.program) verified.now.certificate fun.0 meter (mark_in m))
        found.old.marks.items }
    ensures steps { found.new.steps ≤ 2000000 }
    ensures marks { OnOk result (All
        (λ m. IsMark (program_of typed.now) (program_in verified.now.program) verified.now.certificate fun.0 meter (mark_in m))
        found.new.marks.items) }
{
    let function = &typed.program().funs[fun.0 as usize];
    let data = made_arguments(alloc, function, made.along, size, shape, made.seed)?;
    match run_on(
        alloc,
        typed,
        verified,
        fun,
        meter,
        made.along.unwrap_or(0),
        data.as_bytes(),
        found.steps,
    )? {
        Some(run) => {
            found.steps = found.steps.saturating_sub(run.steps);
            found.marks.push(Mark {
                size,
                kind: kind_of(shape),
                cost: run.cost,
                bound: run.bound,
            })?;
        }
        None => found.cut = Some(Cut::Size(size)),
    }
    Ok(())
}

/// What arguments of a shape are like.
fn kind_of(shape: Shape) -> &'static str {
    match shape {
        Shape::Random => "random",
        Shape::Ascending => "ascending",
        Shape::Descending => "descending",
    }
}
