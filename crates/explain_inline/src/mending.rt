// Calls that are written out so that a group gets bounds.
ghost use Rattle.std.specs.Prelude.{◌≡◌, ◌≤◌, length, IfOk, IfSome};
ghost use Rattle.raml_syntax.specs.Read.{program_of};
ghost use Rattle.call_groups.specs.Read.{ids_of};
ghost use Rattle.explain_check.specs.Checks.{IsProgramOf};
ghost use Rattle.explain_inline.specs.Texts.{IsReplaced};
ghost use Rattle.explain_inline.specs.Inlined.{IsInlined};

use crate::headers::same_headers;
use crate::how::{Change, How};
use crate::text::{inlined_text, unfolded_text};
use call_groups::Groups;
use explain_lines::{Line, mended_lines, mends_group};
use explain_mending::{Original, callees};
use explain_trials::{Trial, trial_of, typed_text};
use raml_syntax::FunId;
use simple_types::Typed;
use std::alloc::{AllocError, Global};

/// Calls that are written out so that functions get bounds.
#[derive(Drop)]
pub struct Inlined {
    /// How its calls are changed.
    pub how: How,
    /// The function in which calls are written out.
    pub caller: FunId,
    /// The function that is called.
    pub callee: FunId,
    /// The changed source, and what analyses find of it.
    pub trial: Trial,
    /// The functions and meters that had no bound, and have one so.
    pub lines: Vec<Line>,
}

/// The first function of the group, and the first that it calls, so that all functions of the group get bounds once these calls
/// are written out; where there is none, once they are unfolded.
pub fn inline<'s, 'a>(
    alloc: Global,
    original: Original<'s, 'a>,
    groups: &Groups,
    group: &[FunId],
) -> Result<Option<Inlined>, AllocError>
    requires most { original.most ≤ 4 }
    requires few { length original.found.now ≤ 256 }
    ensures { IfOk result (λ inlined. IfSome inlined
        (IsInlined original.entry.source.now (program_of original.entry.program.now)
        original.entry.found.now original.entry.most (ids_of group.now))) }
{
    match first_so(alloc, original, groups, group, How::Inlined)? {
        Some(inlined) => Ok(Some(inlined)),
        None => first_so(alloc, original, groups, group, How::Unfolded),
    }
}

/// The first function of the group, and the first that it calls, so that all functions of the group get bounds once these calls
/// are changed so.
fn first_so<'s, 'a>(
    alloc: Global,
    original: Original<'s, 'a>,
    groups: &Groups,
    group: &[FunId],
    how: How,
) -> Result<Option<Inlined>, AllocError>
    requires most { original.most ≤ 4 }
    requires few { length original.found.now ≤ 256 }
    ensures { IfOk result (λ inlined. IfSome inlined
        (IsInlined original.entry.source.now (program_of original.entry.program.now)
        original.entry.found.now original.entry.most (ids_of group.now))) }
{
    for caller in group {
        match inline_in(alloc, original, groups, group, how, *caller)? {
            Some(inlined) => return Ok(Some(inlined)),
            None => {}
        }
    }
    Ok(None)
}

/// The first function that this one calls, so that all functions of the group get bounds.
fn inline_in<'s, 'a>(
    alloc: Global,
    original: Original<'s, 'a>,
    groups: &Groups,
    group: &[FunId],
    how: How,
    caller: FunId,
) -> Result<Option<Inlined>, AllocError>
    requires most { original.most ≤ 4 }
    requires few { length original.found.now ≤ 256 }
    ensures { IfOk result (λ inlined. IfSome inlined
        (IsInlined original.entry.source.now (program_of original.entry.program.now)
        original.entry.found.now original.entry.most (ids_of group.now))) }
{
    for callee in callees(groups, caller) {
        let change = Change {
            how,
            caller,
            callee: *callee,
        };
        match try_inlined(alloc, original, groups, group, change)? {
            Some(inlined) => return Ok(Some(inlined)),
            None => {}
        }
    }
    Ok(None)
}

/// The calls of one function in another, where all functions of the group get bounds once they are changed so.
fn try_inlined<'s, 'a>(
    alloc: Global,
    original: Original<'s, 'a>,
    groups: &Groups,
    group: &[FunId],
    change: Change,
) -> Result<Option<Inlined>, AllocError>
    requires most { original.most ≤ 4 }
    requires few { length original.found.now ≤ 256 }
    ensures { IfOk result (λ inlined. IfSome inlined
        (IsInlined original.entry.source.now (program_of original.entry.program.now)
        original.entry.found.now original.entry.most (ids_of group.now))) }
{
    match text_so(alloc, original, groups, change)? {
        Some(text) => match typed_text(alloc, &text)? {
            Some(typed) => mending(alloc, original, group, change, text, typed),
            None => Ok(None),
        },
        None => Ok(None),
    }
}

/// The source in which the calls of one function in another are changed so.
fn text_so<'s, 'a>(
    alloc: Global,
    original: Original<'s, 'a>,
    groups: &Groups,
    change: Change,
) -> Result<Option<Vec<u8>>, AllocError>
    ensures { IfOk result (λ text. IfSome text (λ t. IsReplaced original.entry.source.now t.items)) }
{
    let Original {
        source,
        program,
        ..
    } = original;
    let Change {
        how,
        caller,
        callee,
    } = change;
    match how {
        How::Inlined => inlined_text(alloc, source, program, groups, caller, callee),
        How::Unfolded => unfolded_text(alloc, source, program, groups, caller, callee),
    }
}

/// What a text gives in which calls are changed, where all functions of the group get bounds. None where it spells functions
/// with other headers.
fn mending<'s, 'a>(
    alloc: Global,
    original: Original<'s, 'a>,
    group: &[FunId],
    change: Change,
    text: Vec<u8>,
    typed: Typed,
) -> Result<Option<Inlined>, AllocError>
    requires most { original.most ≤ 4 }
    requires few { length original.found.now ≤ 256 }
    requires replaced { IsReplaced original.source.now text.items }
    requires spelled { IsProgramOf text.items (program_of typed) }
    ensures { IfOk result (λ inlined. IfSome inlined
        (IsInlined original.entry.source.now (program_of original.entry.program.now)
        original.entry.found.now original.entry.most (ids_of group.now))) }
{
    if !same_headers(&original.program.funs, &typed.program().funs) {
        return Ok(None);
    }
    let trial = trial_of(alloc, text, typed, original.most)?;
    if !mends_group(original.found, &trial.found.functions, group) {
        return Ok(None);
    }
    let lines = mended_lines(alloc, original.found, &trial.found.functions)?;
    Ok(Some(Inlined {
        how: change.how,
        caller: change.caller,
        callee: change.callee,
        trial,
        lines,
    }))
}
