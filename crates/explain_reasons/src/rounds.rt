// The number of calls inside a group.
ghost use Rattle.std.specs.Prelude.{◌≡◌, slice_get, IfOk};
ghost use Rattle.call_groups.specs.Read.{ids_of};
ghost use Rattle.explain_count.specs.Count.{count_program};
ghost use Rattle.explain_lines.specs.Lines.{passes, is_unbounded, is_bounded_at};
ghost use Rattle.cost_free.specs.declared.task.Meter.TheVariants.{Ticks};
ghost use Rattle.explain_trials.specs.Trials.{FindsUpTo};
ghost use Rattle.explain_reasons.specs.Asked.{IsAsked, program_in};
ghost use Rattle.explain_reasons.specs.Rounds as rounds;

use crate::asked::Asked;
use explain_count::count_program;
use explain_count::laws::count_programs_keep_programs;
use explain_degrees::{Findings, LeastBounds};
use explain_lines::{is_bounded, is_unbounded};
use explain_trials::found_of;
use raml_syntax::FunId;
use simple_types::check;
use std::alloc::{AllocError, Global};

/// What analyses find of the program that counts the calls inside a group.
pub(crate) fn rounds_found<'s, 'a>(
    alloc: Global,
    asked: Asked<'s, 'a>,
    group: &[FunId],
) -> Result<LeastBounds, AllocError>
    requires { IsAsked asked }
    ensures { IfOk result (FindsUpTo (count_program (ids_of group.now) (program_in asked.entry)) asked.entry.original.most) }
{
    count_programs_keep_programs();
    let counting = count_program(alloc, asked.typed.program(), group)?;
    match check(alloc, counting) {
        Ok(typed) => found_of(alloc, &typed, asked.original.most),
        Err(_) => Err(AllocError),
    }
}

/// Whether the number of calls of some of these functions has no bound.
pub(crate) fn some_unbounded(found: &[Findings], group: &[FunId]) -> bool
    ensures { result ≡ rounds.some_unbounded found.now (ids_of group.now) }
{
    match group {
        [] => false,
        [fun, rest @ ..] => is_unbounded_at(found, *fun) || some_unbounded(found, rest),
    }
}

fn is_unbounded_at(found: &[Findings], fun: FunId) -> bool
    ensures { result ≡ passes (λ findings. is_unbounded findings.ticks) (slice_get found.now fun.0) }
{
    match found.get(fun.0 as usize) {
        Some(findings) => is_unbounded(&findings.ticks),
        None => false,
    }
}

/// Whether each has one.
pub(crate) fn all_bounded(found: &[Findings], group: &[FunId]) -> bool
    ensures { result ≡ rounds.all_bounded found.now (ids_of group.now) }
{
    match group {
        [] => true,
        [fun, rest @ ..] => is_bounded_at(found, *fun) && all_bounded(found, rest),
    }
}

fn is_bounded_at(found: &[Findings], fun: FunId) -> bool
    ensures { result ≡ is_bounded_at found.now fun.0 Ticks }
{
    match found.get(fun.0 as usize) {
        Some(findings) => is_bounded(&findings.ticks),
        None => false,
    }
}
