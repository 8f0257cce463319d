// Why a group has no bound.
ghost use Rattle.std.specs.Prelude.{◌≡◌, ◌<◌, length, IfOk, IfSome};
ghost use Rattle.call_groups.specs.Read.{ids_of};
ghost use Rattle.explain_rounds.specs.Read.{calls_of};
ghost use Rattle.explain_rounds.specs.declared.idle.Kind.TheVariants.{Stuck};
ghost use Rattle.explain_reasons.specs.Asked.{IsAsked, source_in, program_in, found_in};
ghost use Rattle.explain_reasons.specs.Calls.{calls_of_kind, AreStuckOrNone};
ghost use Rattle.explain_reasons.specs.Rounds.{RoundsUnbounded, RoundsBounded};
ghost use Rattle.explain_reasons.specs.Reasons.{IsReason};

use crate::asked::Asked;
use crate::calls::{calls_of_kind, pairs_in};
use crate::degree::callee_of_degree;
use crate::program::HIGHEST;
use crate::reason::Reason;
use crate::rounds::{all_bounded, rounds_found, some_unbounded};
use crate::trying::{by_exchanging, by_inlining, by_rebuilding, by_uses, supplied};
use crate::waits::waits_for;
use explain_rounds::{GroupCall, Kind};
use raml_syntax::FunId;
use std::alloc::{AllocError, Global};

/// These calls, where the number of calls inside the group has no bound.
fn if_unbounded<'s, 'a>(
    alloc: Global,
    asked: Asked<'s, 'a>,
    group: &[FunId],
    calls: Vec<GroupCall>,
) -> Result<Vec<GroupCall>, AllocError>
    requires asked { IsAsked asked }
    requires all { calls_of calls.items ≡ calls_of_kind (program_in asked) (ids_of group.now) Stuck (ids_of group.now) }
    requires some { 0 < length (calls_of calls.items) }
    ensures { IfOk result (λ calls. AreStuckOrNone (program_in asked.entry) (ids_of group.now) asked.entry.original.most
        (calls_of calls.items)) }
{
    let rounds = rounds_found(alloc, asked, group)?;
    if some_unbounded(&rounds.functions, group) {
        Ok(calls)
    } else {
        Ok(Vec::new(alloc))
    }
}

/// Calls inside the group at which nothing gets smaller, where the number of all has no bound.
fn stuck_calls<'s, 'a>(
    alloc: Global,
    asked: Asked<'s, 'a>,
    group: &[FunId],
) -> Result<Vec<GroupCall>, AllocError>
    requires { IsAsked asked }
    ensures { IfOk result (λ calls. AreStuckOrNone (program_in asked.entry) (ids_of group.now) asked.entry.original.most
        (calls_of calls.items)) }
{
    let calls = calls_of_kind(alloc, asked.typed.program(), group, Kind::Stuck)?;
    if calls.is_empty() {
        Ok(calls)
    } else {
        if_unbounded(alloc, asked, group, calls)
    }
}

/// What calls that get what other calls made tell, where their number has no bound.
fn by_computed<'s, 'a>(
    alloc: Global,
    asked: Asked<'s, 'a>,
    group: &[FunId],
) -> Result<Reason<'a>, AllocError>
    requires asked { IsAsked asked }
    requires rounds { RoundsUnbounded (program_in asked) (ids_of group.now) asked.original.most }
    ensures { IfOk result (IsReason (source_in asked.entry) (program_in asked.entry) (found_in asked.entry) asked.entry.original.most
        (ids_of group.now)) }
{
    let calls = calls_of_kind(alloc, asked.typed.program(), group, Kind::Computed)?;
    if calls.is_empty() {
        Ok(Reason::NotFound)
    } else {
        let supplied = supplied(alloc, asked, group)?;
        Ok(Reason::Computed { calls, supplied })
    }
}

/// The same of calls that get the same part, or else of those.
fn by_parts<'s, 'a>(
    alloc: Global,
    asked: Asked<'s, 'a>,
    group: &[FunId],
) -> Result<Reason<'a>, AllocError>
    requires asked { IsAsked asked }
    requires rounds { RoundsUnbounded (program_in asked) (ids_of group.now) asked.original.most }
    ensures { IfOk result (IsReason (source_in asked.entry) (program_in asked.entry) (found_in asked.entry) asked.entry.original.most
        (ids_of group.now)) }
{
    let pairs = pairs_in(alloc, asked.typed.program(), group)?;
    if pairs.is_empty() {
        by_computed(alloc, asked, group)
    } else {
        Ok(Reason::Twice(pairs))
    }
}

/// An order of parameters by which the group has bounds.
fn by_order<'s, 'a>(
    alloc: Global,
    asked: Asked<'s, 'a>,
    group: &[FunId],
) -> Result<Option<Reason<'a>>, AllocError>
    requires { IsAsked asked }
    ensures { IfOk result (λ reason. IfSome reason (IsReason (source_in asked.entry) (program_in asked.entry) (found_in asked.entry)
        asked.entry.original.most (ids_of group.now))) }
{
    match by_exchanging(alloc, asked, group)? {
        Some(exchanged) => Ok(Some(Reason::Exchange(exchanged))),
        None => Ok(None),
    }
}

/// A change of calls by which the group has bounds.
fn by_changes<'s, 'a>(
    alloc: Global,
    asked: Asked<'s, 'a>,
    group: &[FunId],
) -> Result<Option<Reason<'a>>, AllocError>
    requires { IsAsked asked }
    ensures { IfOk result (λ reason. IfSome reason (IsReason (source_in asked.entry) (program_in asked.entry) (found_in asked.entry)
        asked.entry.original.most (ids_of group.now))) }
{
    match by_inlining(alloc, asked, group)? {
        Some(inlined) => Ok(Some(Reason::Inline(inlined))),
        None => by_order(alloc, asked, group),
    }
}

/// What calls at which something may get smaller tell, where their number has no bound and no change helps.
fn by_moving_calls<'s, 'a>(
    alloc: Global,
    asked: Asked<'s, 'a>,
    group: &[FunId],
) -> Result<Reason<'a>, AllocError>
    requires asked { IsAsked asked }
    requires rounds { RoundsUnbounded (program_in asked) (ids_of group.now) asked.original.most }
    ensures { IfOk result (IsReason (source_in asked.entry) (program_in asked.entry) (found_in asked.entry) asked.entry.original.most
        (ids_of group.now)) }
{
    match by_changes(alloc, asked, group)? {
        Some(reason) => Ok(reason),
        None => by_parts(alloc, asked, group),
    }
}

/// What the calls inside a group tell, where their number has no bound.
fn by_calls<'s, 'a>(
    alloc: Global,
    asked: Asked<'s, 'a>,
    group: &[FunId],
) -> Result<Reason<'a>, AllocError>
    requires asked { IsAsked asked }
    requires rounds { RoundsUnbounded (program_in asked) (ids_of group.now) asked.original.most }
    ensures { IfOk result (IsReason (source_in asked.entry) (program_in asked.entry) (found_in asked.entry) asked.entry.original.most
        (ids_of group.now)) }
{
    let calls = calls_of_kind(alloc, asked.typed.program(), group, Kind::Stuck)?;
    if calls.is_empty() {
        by_moving_calls(alloc, asked, group)
    } else {
        let supplied = supplied(alloc, asked, group)?;
        Ok(Reason::Stuck { calls, supplied })
    }
}

/// Uses that have to be paid for, where nothing else is found.
fn by_paying<'s, 'a>(
    alloc: Global,
    asked: Asked<'s, 'a>,
    group: &[FunId],
) -> Result<Reason<'a>, AllocError>
    requires { IsAsked asked }
    ensures { IfOk result (IsReason (source_in asked.entry) (program_in asked.entry) (found_in asked.entry) asked.entry.original.most
        (ids_of group.now)) }
{
    match by_uses(alloc, asked, group)? {
        Some(paid) => Ok(Reason::PaidTwice(paid)),
        None => Ok(Reason::NotFound),
    }
}

/// A function that is called and has a bound of the highest degree, where the number of calls has a bound; or else such uses.
fn by_degree<'s, 'a>(
    alloc: Global,
    asked: Asked<'s, 'a>,
    group: &[FunId],
) -> Result<Reason<'a>, AllocError>
    requires asked { IsAsked asked }
    requires rounds { RoundsBounded (program_in asked) (ids_of group.now) asked.original.most }
    ensures { IfOk result (IsReason (source_in asked.entry) (program_in asked.entry) (found_in asked.entry) asked.entry.original.most
        (ids_of group.now)) }
{
    match callee_of_degree(asked, group, HIGHEST) {
        Some(callee) => Ok(Reason::DegreeTooLow {
            callee,
            degree: HIGHEST,
        }),
        None => by_paying(alloc, asked, group),
    }
}

/// What is told where the number of calls has a bound: a change that helps, or else what they cost.
fn by_price<'s, 'a>(
    alloc: Global,
    asked: Asked<'s, 'a>,
    group: &[FunId],
) -> Result<Reason<'a>, AllocError>
    requires asked { IsAsked asked }
    requires rounds { RoundsBounded (program_in asked) (ids_of group.now) asked.original.most }
    ensures { IfOk result (IsReason (source_in asked.entry) (program_in asked.entry) (found_in asked.entry) asked.entry.original.most
        (ids_of group.now)) }
{
    match by_changes(alloc, asked, group)? {
        Some(reason) => Ok(reason),
        None => by_degree(alloc, asked, group),
    }
}

/// What the number of calls inside a group tells.
fn by_rounds<'s, 'a>(
    alloc: Global,
    asked: Asked<'s, 'a>,
    group: &[FunId],
) -> Result<Reason<'a>, AllocError>
    requires { IsAsked asked }
    ensures { IfOk result (IsReason (source_in asked.entry) (program_in asked.entry) (found_in asked.entry) asked.entry.original.most
        (ids_of group.now)) }
{
    let rounds = rounds_found(alloc, asked, group)?;
    if some_unbounded(&rounds.functions, group) {
        by_calls(alloc, asked, group)
    } else if all_bounded(&rounds.functions, group) {
        by_price(alloc, asked, group)
    } else {
        Ok(Reason::NotFound)
    }
}

/// Why a group that waits for no other has no bound.
fn by_itself<'s, 'a>(
    alloc: Global,
    asked: Asked<'s, 'a>,
    group: &[FunId],
) -> Result<Reason<'a>, AllocError>
    requires { IsAsked asked }
    ensures { IfOk result (IsReason (source_in asked.entry) (program_in asked.entry) (found_in asked.entry) asked.entry.original.most
        (ids_of group.now)) }
{
    match by_rebuilding(alloc, asked, group)? {
        Some(rebuilt) => Ok(Reason::Rebuild(rebuilt)),
        None => by_rounds(alloc, asked, group),
    }
}

/// Why a group has no bound.
pub(crate) fn reason<'s, 'a>(
    alloc: Global,
    asked: Asked<'s, 'a>,
    group: &[FunId],
) -> Result<Reason<'a>, AllocError>
    requires { IsAsked asked }
    ensures { IfOk result (IsReason (source_in asked.entry) (program_in asked.entry) (found_in asked.entry) asked.entry.original.most
        (ids_of group.now)) }
{
    match waits_for(asked, group) {
        Some(callee) => {
            let stuck = stuck_calls(alloc, asked, group)?;
            Ok(Reason::Waits { callee, stuck })
        }
        None => by_itself(alloc, asked, group),
    }
}
