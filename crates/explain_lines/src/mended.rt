// Lines that a change mends.
ghost use Rattle.std.specs.Prelude.{◌≡◌, ◌<◌, ◌+◌, ◌^◌, ◌++◌, length, IfOk, OnOk};
ghost use Rattle.explain_lines.specs.Mended as m;
ghost use Rattle.explain_lines.specs.Read.{lines_of};

use crate::bounds::Line;
use crate::lacking::is_bounded;
use cost_free::Meter;
use explain_degrees::Findings;
use raml_syntax::FunId;
use std::alloc::{AllocError, Global};

/// Adds the line of a function and a meter, where a bound is found that was not found before.
fn add_if_mended(
    lines: &mut Vec<Line>,
    fun: FunId,
    old: &Findings,
    new: &Findings,
    meter: Meter,
) -> Result<(), AllocError>
    ensures { OnOk result (lines_of lines.new.items ≡ lines_of lines.old.items ++ m.if_mended fun.0 old.now new.now meter) }
{
    if !is_bounded(old.of(meter)) && is_bounded(new.of(meter)) {
        lines.push(Line { fun, meter })?;
    }
    Ok(())
}

/// Adds those of a function.
fn add_mended(
    lines: &mut Vec<Line>,
    fun: FunId,
    old: &Findings,
    new: &Findings,
) -> Result<(), AllocError>
    ensures { OnOk result (lines_of lines.new.items ≡ lines_of lines.old.items ++ m.mended_at fun.0 old.now new.now) }
{
    add_if_mended(lines, fun, old, new, Meter::Ticks)?;
    add_if_mended(lines, fun, old, new, Meter::Cells)?;
    add_if_mended(lines, fun, old, new, Meter::Work)
}

/// Adds those of the functions from a place on.
fn add_all(
    lines: &mut Vec<Line>,
    fun: u32,
    old: &[Findings],
    new: &[Findings],
) -> Result<(), AllocError>
    requires { fun + length old.now < 2 ^ 32 }
    ensures { OnOk result (lines_of lines.new.items ≡ lines_of lines.old.items ++ m.mended_from fun old.now new.now) }
{
    match old {
        [] => Ok(()),
        [first, olds @ ..] => match new {
            [] => Ok(()),
            [second, news @ ..] => {
                add_mended(lines, FunId(fun), first, second)?;
                add_all(lines, fun + 1, olds, news)
            }
        },
    }
}

/// The lines of which a bound is found that was not found before.
pub fn mended_lines(
    alloc: Global,
    old: &[Findings],
    new: &[Findings],
) -> Result<Vec<Line>, AllocError>
    requires { length old.now < 2 ^ 32 }
    ensures { IfOk result (λ lines. lines_of lines.items ≡ m.mended_lines old.now new.now) }
{
    let mut lines = Vec::new(alloc);
    add_all(&mut lines, 0, old, new)?;
    Ok(lines)
}
