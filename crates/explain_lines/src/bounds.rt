// Bounds of lines.
ghost use Rattle.std.specs.Prelude.{◌≡◌};
ghost use Rattle.call_groups.specs.Read.{ids_of};
ghost use Rattle.explain_lines.specs.Lines as l;
ghost use Rattle.explain_lines.specs.Mended as m;
ghost use Rattle.explain_lines.specs.Read.{lines_of};

use crate::lacking::is_bounded;
use cost_free::Meter;
use explain_degrees::Findings;
use raml_syntax::FunId;

/// A function and a meter.
#[derive(Clone, Copy, PartialEq, Eq, Debug)]
pub struct Line {
    pub fun: FunId,
    pub meter: Meter,
}

/// Whether a bound of the function and the meter is found.
fn is_bounded_at(all: &[Findings], fun: FunId, meter: Meter) -> bool
    ensures { result ≡ l.is_bounded_at all.now fun.0 meter }
{
    match all.get(fun.0 as usize) {
        Some(findings) => is_bounded(findings.of(meter)),
        None => false,
    }
}

/// Whether a bound of each line is found.
pub fn has_bounds(all: &[Findings], lines: &[Line]) -> bool
    ensures { result ≡ m.has_bounds all.now (lines_of lines.now) }
{
    match lines {
        [] => true,
        [line, rest @ ..] => is_bounded_at(all, line.fun, line.meter) && has_bounds(all, rest),
    }
}

fn mends(old: &[Findings], new: &[Findings], fun: FunId, meter: Meter) -> bool
    ensures { result ≡ m.mends old.now new.now fun.0 meter }
{
    is_bounded_at(old, fun, meter) || is_bounded_at(new, fun, meter)
}

fn mends_function(old: &[Findings], new: &[Findings], fun: FunId) -> bool
    ensures { result ≡ m.mends_function old.now new.now fun.0 }
{
    mends(old, new, fun, Meter::Ticks)
        && mends(old, new, fun, Meter::Cells)
        && mends(old, new, fun, Meter::Work)
}

/// Whether of each function of the group and each meter a bound is found, before a change or after it.
pub fn mends_group(old: &[Findings], new: &[Findings], group: &[FunId]) -> bool
    ensures { result ≡ m.mends_group old.now new.now (ids_of group.now) }
{
    match group {
        [] => true,
        [fun, rest @ ..] => mends_function(old, new, *fun) && mends_group(old, new, rest),
    }
}
