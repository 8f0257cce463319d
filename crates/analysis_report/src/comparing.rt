// How the bounds of a program stand to those of another one.
ghost use Rattle.std.specs.Prelude.{◌≡◌, ◌≤◌, ◌<◌, ◌++◌, true, length, OnOk, IfOk, IfSome, string_bytes};
ghost use Rattle.std.specs.Bool.{Decides};
ghost use Rattle.raml_syntax.specs.Read.{function_of, program_of, place_in};
ghost use Rattle.cost_free.specs.declared.task.Meter.{Meter as TheMeter};
ghost use Rattle.cost_free.specs.Schedule.{meters};
ghost use Rattle.share_normal.specs.Program.{source_in};
ghost use Rattle.annot_types.specs.Certificate.{has_work};
ghost use Rattle.rules_plan.specs.Read.{program_in};
ghost use Rattle.report_text.specs.Report.{types_in};
ghost use Rattle.analysis_report.specs.Comparison.{ClaimsCompare, comparisons_text, AreComparisons};
ghost use Rattle.analysis_report.specs.Steps.{IsCounterpartIn, ComparesIn, HasComparisons, by_meter};

use crate::comparison::compared;
use bound_compare::{Compared, push_compared_line};
use bound_infer::Verified;
use cost_free::Meter;
use raml_syntax::{Fun, FunId, FunctionNames, Param, Program};
use report_text::{meter_name, name_at};
use share_normal::NormProgram;
use std::alloc::{AllocError, Global};

/// The comparisons of a function with its counterpart.
#[derive(Clone, Copy, Debug, PartialEq, Eq)]
pub(crate) struct Comparisons {
    ticks: Compared,
    cells: Compared,
    work: Compared,
}

/// How the bounds of a program stand to those of another one: three lines for each of its functions, in
/// the order of the source. Both certificates count work.
pub fn comparison_lines(
    alloc: Global,
    program: &NormProgram<'_>,
    verified: &Verified<'_, '_>,
    other_program: &NormProgram<'_>,
    other: &Verified<'_, '_>,
) -> Result<String, AllocError>
    requires program { verified.now.program ≡ program.now }
    requires work { has_work verified.now.certificate ≡ true }
    requires other_program { other.now.program ≡ other_program.now }
    requires other_work { has_work other.now.certificate ≡ true }
    ensures { IfOk result (λ text. AreComparisons (source_in program.now) (program_in program.now) verified.now.certificate
        (source_in other_program.now) (program_in other_program.now) other.now.certificate (string_bytes text)) }
{
    let names = FunctionNames::new(alloc, other_program.source())?;
    all_comparisons(alloc, program.source(), verified, &names, other)
}

// Those of each function of the source.
fn all_comparisons(
    alloc: Global,
    program: &Program,
    verified: &Verified<'_, '_>,
    names: &FunctionNames<'_>,
    other: &Verified<'_, '_>,
) -> Result<String, AllocError>
    requires program { program_of program.now ≡ source_in verified.now.program }
    requires few { length (program_of program.now) ≤ 256 }
    requires work { has_work verified.now.certificate ≡ true }
    requires names { program_of names.now.program.now ≡ source_in other.now.program }
    requires other_work { has_work other.now.certificate ≡ true }
    ensures { IfOk result (λ text. AreComparisons (source_in verified.now.program)
        (program_in verified.now.program) verified.now.certificate
        (source_in other.now.program) (program_in other.now.program) other.now.certificate (string_bytes text)) }
{
    let mut text = String::new(alloc);
    for place in 0..program.funs.len() {
        let fun = FunId(place as u32);
        push_function(alloc, &mut text, program, verified, names, other, fun)?;
    }
    Ok(text)
}

// Appends those of a function.
fn push_function(
    alloc: Global,
    text: &mut String,
    program: &Program,
    verified: &Verified<'_, '_>,
    names: &FunctionNames<'_>,
    other: &Verified<'_, '_>,
    fun: FunId,
) -> Result<(), AllocError>
    requires program { program_of program.now ≡ source_in verified.now.program }
    requires fun { fun.0 < length (source_in verified.now.program) }
    requires work { has_work verified.now.certificate ≡ true }
    requires names { program_of names.now.program.now ≡ source_in other.now.program }
    requires other_work { has_work other.now.certificate ≡ true }
    ensures { OnOk result (HasComparisons (source_in verified.now.program) (program_in verified.now.program) verified.now.certificate
        (source_in other.now.program) (program_in other.now.program) other.now.certificate fun.0
        (string_bytes text.old) (string_bytes text.new)) }
{
    let counterpart = counterpart(names, &program.funs[fun.0 as usize]);
    let found = compare_on_meters(alloc, verified, fun, other, counterpart)?;
    push_comparisons(text, name_at(program, fun), found)
}

// The function of the other program that has the name and the parameter types of this one.
fn counterpart(names: &FunctionNames<'_>, fun: &Fun) -> Option<FunId>
    ensures { IsCounterpartIn (program_of names.now.program.now) (function_of fun.now) (place_in result) }
{
    let place = names.find(fun.name.text())?;
    let other = names.program.funs.get(place.0 as usize)?;
    if have_same_types(&other.params, &fun.params) {
        Some(place)
    } else {
        None
    }
}

// Whether the parameters have the same types.
fn have_same_types(first: &[Param], second: &[Param]) -> bool
    ensures { Decides result (types_in first.now ≡ types_in second.now) }
{
    match first {
        [] => second.is_empty(),
        [param, rest @ ..] => match second {
            [] => false,
            [other, others @ ..] => param.ty.same(&other.ty) && have_same_types(rest, others),
        },
    }
}

// The comparisons of a function on the three meters.
fn compare_on_meters(
    alloc: Global,
    verified: &Verified<'_, '_>,
    fun: FunId,
    other: &Verified<'_, '_>,
    counterpart: Option<FunId>,
) -> Result<Comparisons, AllocError>
    requires fun { fun.0 < length (source_in verified.now.program) }
    requires work { has_work verified.now.certificate ≡ true }
    requires counterpart { IfSome counterpart (λ place. place.0 < length (source_in other.now.program)) }
    requires other_work { has_work other.now.certificate ≡ true }
    ensures { IfOk result (λ found. (meter : TheMeter) → ComparesIn (program_in verified.now.program) verified.now.certificate fun.0
        (program_in other.now.program) other.now.certificate (place_in counterpart) meter (by_meter found meter)) }
{
    match counterpart {
        None => Ok(Comparisons {
            ticks: Compared::Absent,
            cells: Compared::Absent,
            work: Compared::Absent,
        }),
        Some(place) => Ok(Comparisons {
            ticks: comparison(alloc, verified, fun, other, place, Meter::Ticks)?,
            cells: comparison(alloc, verified, fun, other, place, Meter::Cells)?,
            work: comparison(alloc, verified, fun, other, place, Meter::Work)?,
        }),
    }
}

// That of a function and its counterpart on a meter.
fn comparison(
    alloc: Global,
    verified: &Verified<'_, '_>,
    fun: FunId,
    other: &Verified<'_, '_>,
    counterpart: FunId,
    meter: Meter,
) -> Result<Compared, AllocError>
    requires fun { fun.0 < length (source_in verified.now.program) }
    requires work { has_work verified.now.certificate ≡ true }
    requires counterpart { counterpart.0 < length (source_in other.now.program) }
    requires other_work { has_work other.now.certificate ≡ true }
    ensures { IfOk result (ClaimsCompare (program_in verified.now.program) verified.now.certificate fun.0
        (program_in other.now.program) other.now.certificate counterpart.0 meter) }
{
    let line = verified.line(alloc, fun, meter)?;
    let other_line = other.line(alloc, counterpart, meter)?;
    Ok(compared(&line, &other_line))
}

// Appends the lines of a function.
fn push_comparisons(text: &mut String, name: &str, found: Comparisons) -> Result<(), AllocError>
    ensures { OnOk result (string_bytes text.new ≡ string_bytes text.old ++ comparisons_text name.now (by_meter found)) }
{
    push_compared_line(text, name, meter_name(Meter::Ticks), found.ticks)?;
    push_compared_line(text, name, meter_name(Meter::Cells), found.cells)?;
    push_compared_line(text, name, meter_name(Meter::Work), found.work)
}
