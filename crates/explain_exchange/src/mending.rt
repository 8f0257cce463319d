// Two parameters that are exchanged so that a group gets bounds.
ghost use Rattle.std.specs.Prelude.{◌≡◌, ◌≤◌, length, IfOk, IfSome, Some};
ghost use Rattle.std.specs.List.{slice_get};
ghost use Rattle.raml_syntax.specs.Read.{program_of, function_of};
ghost use Rattle.call_groups.specs.Read.{ids_of};
ghost use Rattle.explain_check.specs.Checks.{IsProgramOf};
ghost use Rattle.explain_exchange.specs.Exchanged.{IsExchanged};

use crate::candidates::{Candidate, candidates};
use crate::compare::is_exchanged;
use crate::text::exchanged_text;
use crate::two_params::{TwoParams, function_at};
use call_groups::Groups;
use explain_lines::{Line, mended_lines, mends_group};
use explain_mending::Original;
use explain_trials::{Trial, trial_of, typed_text};
use raml_syntax::{Fun, FunId};
use simple_types::Typed;
use std::alloc::{AllocError, Global};

/// Two parameters that are exchanged so that functions get bounds.
#[derive(Drop)]
pub struct Exchanged {
    /// The function.
    pub fun: FunId,
    /// The places of its two parameters, from 0.
    pub first: usize,
    pub second: usize,
    /// The changed source, and what analyses find of it.
    pub trial: Trial,
    /// The functions and meters that had no bound, and have one so.
    pub lines: Vec<Line>,
}

/// The first two parameters so that all functions of the group get bounds once they are exchanged: of those that hold lists, trees
/// or options, in a function of the group or in one that it reaches by calls, in the order of the source. No more than 24 are
/// tried.
pub fn exchange<'s, 'a>(
    alloc: Global,
    original: Original<'s, 'a>,
    groups: &Groups,
    group: &[FunId],
) -> Result<Option<Exchanged>, AllocError>
    requires most { original.most ≤ 4 }
    requires few { length original.found.now ≤ 256 }
    ensures { IfOk result (λ made. IfSome made (IsExchanged (program_of original.entry.program.now)
        original.entry.found.now original.entry.most (ids_of group.now))) }
{
    let found = candidates(alloc, original.program, groups, group)?;
    for candidate in &found {
        match try_exchanged(alloc, original, group, *candidate)? {
            Some(made) => return Ok(Some(made)),
            None => {}
        }
    }
    Ok(None)
}

/// Two parameters exchanged, where all functions of the group get bounds so.
fn try_exchanged<'s, 'a>(
    alloc: Global,
    original: Original<'s, 'a>,
    group: &[FunId],
    candidate: Candidate,
) -> Result<Option<Exchanged>, AllocError>
    requires most { original.most ≤ 4 }
    requires few { length original.found.now ≤ 256 }
    ensures { IfOk result (λ made. IfSome made (IsExchanged (program_of original.entry.program.now)
        original.entry.found.now original.entry.most (ids_of group.now))) }
{
    let Some(fun) = function_at(original.program, candidate.fun) else {
        return Ok(None);
    };
    let two = TwoParams::of(fun, candidate.first, candidate.second);
    let Some(text) = exchanged_text(alloc, original.source, two)? else {
        return Ok(None);
    };
    match typed_text(alloc, &text)? {
        Some(typed) => mending(alloc, original, group, candidate, fun, text, typed),
        None => Ok(None),
    }
}

/// What a text gives in which two parameters are exchanged, where all functions of the group get bounds. None where it spells
/// another program.
fn mending<'s, 'a>(
    alloc: Global,
    original: Original<'s, 'a>,
    group: &[FunId],
    candidate: Candidate,
    fun: &Fun,
    text: Vec<u8>,
    typed: Typed,
) -> Result<Option<Exchanged>, AllocError>
    requires most { original.most ≤ 4 }
    requires few { length original.found.now ≤ 256 }
    requires found { slice_get (program_of original.program.now) candidate.fun.0 ≡ Some (function_of fun.now) }
    requires spelled { IsProgramOf text.items (program_of typed) }
    ensures { IfOk result (λ made. IfSome made (IsExchanged (program_of original.entry.program.now)
        original.entry.found.now original.entry.most (ids_of group.now))) }
{
    let two = TwoParams::of(fun, candidate.first, candidate.second);
    if !is_exchanged(original.program, two, typed.program()) {
        return Ok(None);
    }
    let trial = trial_of(alloc, text, typed, original.most)?;
    if !mends_group(original.found, &trial.found.functions, group) {
        return Ok(None);
    }
    let lines = mended_lines(alloc, original.found, &trial.found.functions)?;
    Ok(Some(Exchanged {
        fun: candidate.fun,
        first: candidate.first,
        second: candidate.second,
        trial,
        lines,
    }))
}
