// Changes by which groups of functions get their bounds.
ghost use Rattle.std.specs.Prelude.{◌≡◌, ◌⊎◌, ◌∷◌, ◌++◌, [], List, Option, slice_get, IfOk, IfSome, OnOk, string_bytes};
ghost use Rattle.lsp_language.specs.declared.insight.Action.{Action as TheAction};
ghost use Rattle.raml_syntax.specs.Read.{program_of};
ghost use Rattle.explain_mending.specs.Mended.{findings_in};
ghost use Rattle.explain_advice.specs.Changes as c;
ghost use Rattle.explain_advice.specs.Changes.{IsChange, IsOffered, IsTellable, IsTitle, change, change_in};

use crate::difference::difference;
use explain_inline::How;
use explain_insight::brief_bounds;
use explain_reasons::Reason;
use explain_trials::Trial;
use lsp_language::{Action, Edit, Span};
use raml_syntax::{FunId, Pos};
use report_text::name_at;
use std::alloc::{AllocError, Global};

/// A change: what is done, and the program that was tried with it.
#[derive(Clone, Copy)]
pub(crate) struct Change<'e> {
    name: &'static str,
    trial: &'e Trial,
}

/// How calls are written out.
fn name_of(how: How) -> &'static str
    ensures { result.now ≡ c.name_of how }
{
    match how {
        How::Inlined => "write calls out",
        How::Unfolded => "unfold calls",
    }
}

/// The change that gives a group its bounds, where the reason has one.
pub(crate) fn change_of<'e>(reason: &'e Reason<'_>) -> Option<Change<'e>>
    ensures { change_in result ≡ c.change_of reason.now }
{
    match reason {
        Reason::Rebuild(rebuilt) => Some(Change {
            name: "build values again",
            trial: &rebuilt.trial,
        }),
        Reason::Inline(inlined) => Some(Change {
            name: name_of(inlined.how),
            trial: &inlined.trial,
        }),
        Reason::Exchange(exchanged) => Some(Change {
            name: "exchange two parameters",
            trial: &exchanged.trial,
        }),
        Reason::Waits { .. }
        | Reason::Stuck { .. }
        | Reason::Twice(_)
        | Reason::Computed { .. }
        | Reason::DegreeTooLow { .. }
        | Reason::PaidTwice(_)
        | Reason::NotFound => None,
    }
}

/// Appends the change of a group, whose first function this is, where there is one. It is offered at the place.
pub(crate) fn push_change(
    alloc: Global,
    actions: &mut Vec<Action>,
    source: &[u8],
    change: Option<Change<'_>>,
    fun: FunId,
    at: Pos,
) -> Result<(), AllocError>
    requires { IfSome (change_in change) IsTellable }
    ensures { OnOk result ((offered : List TheAction) × IsOffered source.now (change_in change.entry) fun.0 at.0 offered
        × (actions.new.items ≡ actions.old.items ++ offered)) }
{
    let Some(change) = change else {
        return Ok(());
    };
    match action(alloc, source, change, fun, at)? {
        Some(action) => {
            actions.push(action)?;
            Ok(())
        }
        None => Ok(()),
    }
}

/// The change as an action, which tells the bounds of the function in the changed program. None where the changed lines are no
/// text, or the function is not there.
fn action(
    alloc: Global,
    source: &[u8],
    change: Change<'_>,
    fun: FunId,
    at: Pos,
) -> Result<Option<Action>, AllocError>
    requires { IsTellable (c.change change.name.now change.trial.now) }
    ensures { IfOk result (λ action. IfSome action
        (IsChange source.now (c.change change.entry.name.now change.entry.trial.now) fun.0 at.0)) }
{
    let Some(edit) = difference(alloc, source, &change.trial.text)? else {
        return Ok(None);
    };
    let Some(title) = title(alloc, change, fun)? else {
        return Ok(None);
    };
    let start = at.0 as usize;
    let mut edits = Vec::new(alloc);
    edits.push(edit)?;
    Ok(Some(Action {
        span: Span { start, end: start },
        title,
        edits,
    }))
}

/// What is done, and the bounds of the function in the changed program.
fn title(alloc: Global, change: Change<'_>, fun: FunId) -> Result<Option<String>, AllocError>
    requires { IsTellable (c.change change.name.now change.trial.now) }
    ensures { IfOk result (λ title. IfSome title
        (λ text. IsTitle (c.change change.entry.name.now change.entry.trial.now) fun.0 (string_bytes text))) }
{
    let program = change.trial.typed.program();
    let place = fun.0 as usize;
    let Some(function) = program.funs.get(place) else {
        return Ok(None);
    };
    let Some(found) = change.trial.found.functions.get(place) else {
        return Ok(None);
    };
    let bounds = brief_bounds(alloc, function, found)?;
    let done = change.name;
    let name = name_at(program, fun);
    Ok(Some(format!(in alloc; "{done}: `{name}` {bounds}")?))
}
