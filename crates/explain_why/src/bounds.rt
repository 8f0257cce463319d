// The bounds of a program that was tried.
ghost use Rattle.std.specs.Prelude.{◌≡◌, ◌++◌, slice_get, IfOk, OnOk, string_bytes, codes};
ghost use Rattle.raml_syntax.specs.Tree.{Text};
ghost use Rattle.raml_syntax.specs.Types.{types_of};
ghost use Rattle.raml_syntax.specs.Read.{program_of, function_of};
ghost use Rattle.explain_at.specs.Read.{texts};
ghost use Rattle.explain_bounds.specs.Told.{Nothing};
ghost use Rattle.explain_bounds.specs.Lines.{IsLine, AreLines};
ghost use Rattle.explain_bounds.specs.Written.{AllCanBeTold};
ghost use Rattle.explain_degrees.specs.Degrees.{finding_of};
ghost use Rattle.explain_lines.specs.Read.{line_of, lines_of};
ghost use Rattle.explain_why.specs.Bounds.{AllCanBeToldOf, IsBoundLine, AreBoundLines, function_in, lent, line_for};

use cost_free::Meter;
use explain_bounds::{Asked, push_function};
use explain_degrees::Findings;
use explain_lines::Line;
use raml_syntax::{Fun, FunId, Program};
use std::alloc::{AllocError, Global};

/// Appends what was found of functions and meters of a program, a line for each, as `explain bounds` tells it.
pub(crate) fn push_bounds(
    alloc: Global,
    text: &mut String,
    program: &Program,
    found: &[Findings],
    lines: &[Line],
) -> Result<(), AllocError>
    requires { AllCanBeToldOf (program_of program.now) found.now }
    ensures { OnOk result ((part : Text) × AreBoundLines (program_of program.now) found.now (lines_of lines.now) part
        × (string_bytes text.new ≡ string_bytes text.old ++ part)) }
{
    match lines {
        [] => Ok(()),
        [line, rest @ ..] => {
            push_bound(alloc, text, program, found, *line)?;
            push_bounds(alloc, text, program, found, rest)
        }
    }
}

/// Appends the line of a function and a meter.
fn push_bound(
    alloc: Global,
    text: &mut String,
    program: &Program,
    found: &[Findings],
    line: Line,
) -> Result<(), AllocError>
    requires { AllCanBeToldOf (program_of program.now) found.now }
    ensures { OnOk result ((part : Text) × IsBoundLine (program_of program.now) found.now (line_of line) part
        × (string_bytes text.new ≡ string_bytes text.old ++ part)) }
{
    match fun_at(program, line.fun) {
        Some(fun) => match findings_at(found, line.fun) {
            Some(findings) => push_of_function(alloc, text, program, fun, findings, line.meter),
            None => Ok(()),
        },
        None => Ok(()),
    }
}

/// The function at a place.
fn fun_at(program: &Program, fun: FunId) -> Option<&Fun>
    ensures { function_in result ≡ slice_get (program_of program.now) fun.0 }
{
    program.funs.get(fun.0 as usize)
}

/// What was found of it.
fn findings_at(found: &[Findings], fun: FunId) -> Option<&Findings>
    ensures { lent result ≡ slice_get found.now fun.0 }
{
    found.get(fun.0 as usize)
}

fn push_of_function(
    alloc: Global,
    text: &mut String,
    program: &Program,
    fun: &Fun,
    findings: &Findings,
    meter: Meter,
) -> Result<(), AllocError>
    requires { AllCanBeTold (types_of (function_of fun.now)) findings.now }
    ensures { OnOk result ((told : Text)
        × IsLine (program_of program.now) (function_of fun.now) Nothing meter (finding_of findings.now meter) told
        × (string_bytes text.new ≡ string_bytes text.old ++ (told ++ codes "\n"))) }
{
    let lines = function_lines(alloc, program, fun, findings)?;
    match lines.as_slice() {
        [ticks, cells, work] => {
            text.push_str(line_for(meter, ticks, cells, work))?;
            text.push('\n')
        }
        _ => Err(AllocError),
    }
}

/// The line of a meter.
fn line_for<'a>(meter: Meter, ticks: &'a str, cells: &'a str, work: &'a str) -> &'a str
    ensures { result.now ≡ line_for meter ticks.now cells.now work.now }
{
    match meter {
        Meter::Ticks => ticks,
        Meter::Cells => cells,
        Meter::Work => work,
    }
}

/// The lines of a function.
fn function_lines(
    alloc: Global,
    program: &Program,
    fun: &Fun,
    findings: &Findings,
) -> Result<Vec<String>, AllocError>
    requires { AllCanBeTold (types_of (function_of fun.now)) findings.now }
    ensures { IfOk result (λ lines. AreLines (program_of program.now) (function_of fun.now) Nothing findings.now (texts lines.items)) }
{
    let mut lines = Vec::new(alloc);
    match push_function(alloc, &mut lines, program, fun, findings, &Asked::Nothing) {
        Ok(()) => Ok(lines),
        Err(_) => Err(AllocError),
    }
}
