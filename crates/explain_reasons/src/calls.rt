// Calls inside a group.
ghost use Rattle.std.specs.Prelude.{◌≡◌, ◌<◌, ◌^◌, ◌++◌, [], ◌∷◌, length, IfOk, OnOk};
ghost use Rattle.raml_syntax.specs.Read.{program_of};
ghost use Rattle.call_groups.specs.Read.{ids_of};
ghost use Rattle.explain_rounds.specs.Read.{calls_of};
ghost use Rattle.explain_rounds.specs.Found.{pairs_of};
ghost use Rattle.explain_reasons.specs.Calls as c;

use explain_rounds::{GroupCall, Kind, SamePart, calls_with_same_part, group_calls};
use raml_syntax::{FunId, Program};
use std::alloc::{AllocError, Global};

fn is_kind(kind: Kind, other: Kind) -> bool
    ensures { result ≡ c.is_kind kind other }
{
    match kind {
        Kind::Smaller => matches!(other, Kind::Smaller),
        Kind::Computed => matches!(other, Kind::Computed),
        Kind::Stuck => matches!(other, Kind::Stuck),
    }
}

/// Adds the call, where it is of a kind.
fn add_call(found: &mut Vec<GroupCall>, call: GroupCall, kind: Kind) -> Result<(), AllocError>
    ensures { OnOk result (calls_of found.new.items ≡ calls_of found.old.items ++ c.of_kind kind (calls_of (call ∷ []))) }
{
    if is_kind(kind, call.kind) {
        found.push(call)?;
    }
    Ok(())
}

/// Adds those of the calls that are of a kind.
fn add_of_kind(
    found: &mut Vec<GroupCall>,
    calls: &[GroupCall],
    kind: Kind,
) -> Result<(), AllocError>
    ensures { OnOk result (calls_of found.new.items ≡ calls_of found.old.items ++ c.of_kind kind (calls_of calls.now)) }
{
    match calls {
        [] => Ok(()),
        [call, rest @ ..] => {
            add_call(found, *call, kind)?;
            add_of_kind(found, rest, kind)
        }
    }
}

/// Adds the calls of a kind inside a group, in these functions.
fn add_calls(
    alloc: Global,
    found: &mut Vec<GroupCall>,
    program: &Program,
    group: &[FunId],
    kind: Kind,
    funs: &[FunId],
) -> Result<(), AllocError>
    requires { length (program_of program.now) < 2 ^ 32 }
    ensures { OnOk result (calls_of found.new.items
        ≡ calls_of found.old.items ++ c.calls_of_kind (program_of program.now) (ids_of group.now) kind (ids_of funs.now)) }
{
    match funs {
        [] => Ok(()),
        [fun, rest @ ..] => {
            let calls = group_calls(alloc, program, group, *fun)?;
            add_of_kind(found, &calls, kind)?;
            add_calls(alloc, found, program, group, kind, rest)
        }
    }
}

/// The calls of a kind inside a group.
pub(crate) fn calls_of_kind(
    alloc: Global,
    program: &Program,
    group: &[FunId],
    kind: Kind,
) -> Result<Vec<GroupCall>, AllocError>
    requires { length (program_of program.now) < 2 ^ 32 }
    ensures { IfOk result (λ calls. calls_of calls.items
        ≡ c.calls_of_kind (program_of program.now) (ids_of group.now) kind (ids_of group.now)) }
{
    let mut found = Vec::new(alloc);
    add_calls(alloc, &mut found, program, group, kind, group)?;
    Ok(found)
}

/// Adds pairs of calls inside a group that both happen and get the same part, in these functions.
fn add_pairs(
    alloc: Global,
    found: &mut Vec<SamePart>,
    program: &Program,
    group: &[FunId],
    funs: &[FunId],
) -> Result<(), AllocError>
    requires { length (program_of program.now) < 2 ^ 32 }
    ensures { OnOk result (pairs_of found.new.items
        ≡ pairs_of found.old.items ++ c.pairs_in (program_of program.now) (ids_of group.now) (ids_of funs.now)) }
{
    match funs {
        [] => Ok(()),
        [fun, rest @ ..] => {
            let pairs = calls_with_same_part(alloc, program, group, *fun)?;
            found.extend_from_slice(&pairs)?;
            add_pairs(alloc, found, program, group, rest)
        }
    }
}

/// Pairs of calls inside a group that both happen and get the same part.
pub(crate) fn pairs_in(
    alloc: Global,
    program: &Program,
    group: &[FunId],
) -> Result<Vec<SamePart>, AllocError>
    requires { length (program_of program.now) < 2 ^ 32 }
    ensures { IfOk result (λ pairs. pairs_of pairs.items
        ≡ c.pairs_in (program_of program.now) (ids_of group.now) (ids_of group.now)) }
{
    let mut found = Vec::new(alloc);
    add_pairs(alloc, &mut found, program, group, group)?;
    Ok(found)
}
