// Changes that mend the first fault of a source.
ghost use Rattle.std.specs.Prelude.{◌≡◌, true, IfOk, IfSome};
ghost use Rattle.explain_edits.specs.Read.{edit_of};
ghost use Rattle.explain_faults.specs.Repairs.{ComesLater, IsRepair, Mends, edit_in};

use crate::fault::SourceFault;
use crate::found::{Found, found_in};
use crate::site::text_of;
use explain_check::MOST_BYTES;
use explain_edits::{Edit as Replacement, edited};
use lsp_language::{Action, Edit, Span};
use std::alloc::{AllocError, Global};

/// The action that makes an edit of a source with this fault, offered at the part. None where it does not mend the fault.
pub(crate) fn repair(
    alloc: Global,
    source: &[u8],
    fault: &SourceFault,
    span: Span,
    edit: Edit,
) -> Result<Option<Action>, AllocError>
    ensures { IfOk result (λ action. IfSome action (IsRepair source.now fault.now)) }
{
    if !mends(alloc, source, fault, &edit)? {
        return Ok(None);
    }
    let title = title_of(alloc, source, &edit)?;
    let mut edits = Vec::new(alloc);
    edits.push(edit)?;
    Ok(Some(Action { span, title, edits }))
}

/// Whether the edit mends the fault: the changed source is read as any other.
fn mends(alloc: Global, source: &[u8], fault: &SourceFault, edit: &Edit) -> Result<bool, AllocError>
    ensures { IfOk result (λ yes. yes ≡ true → Mends source.now fault.now (edit_in edit.now)) }
{
    let replacement = replacement_of(alloc, edit)?;
    let text = edited(alloc, source, &[replacement])?;
    if text.len() as u64 > MOST_BYTES {
        return Ok(false);
    }
    match found_in(alloc, &text)? {
        Found::Program(_) => Ok(true),
        Found::Fault(next) => Ok(comes_later(edit, fault, &next)),
    }
}

/// The edit, as it replaces so many bytes from one on.
fn replacement_of(alloc: Global, edit: &Edit) -> Result<Replacement, AllocError>
    ensures { IfOk result (λ replacement. edit_of replacement ≡ edit_in edit.now) }
{
    Ok(Replacement {
        at: edit.span.start,
        length: edit.span.end.saturating_sub(edit.span.start),
        text: String::from_str(alloc, edit.text.as_str())?,
    })
}

/// Whether a fault of the changed source comes later than the one before.
fn comes_later(edit: &Edit, before: &SourceFault, now: &SourceFault) -> bool
    ensures { result ≡ true → ComesLater (edit_in edit.now) before.now now.now }
{
    let Some(at) = now.place() else {
        return false;
    };
    let start = edit.span.start;
    let is_behind = at >= start && at - start >= edit.text.len();
    if before.pass() == now.pass() {
        is_behind
    } else {
        before.pass() < now.pass() && (at < start || is_behind)
    }
}

/// What the edit does, as hints say it.
fn title_of(alloc: Global, source: &[u8], edit: &Edit) -> Result<String, AllocError> {
    let replaced = source.get(edit.span.start..edit.span.end).unwrap_or(&[]);
    let old = text_of(replaced).trim();
    let new = edit.text.trim();
    if new.is_empty() {
        format!(in alloc; "leave `{old}` out")
    } else if old.is_empty() {
        format!(in alloc; "write `{new}` here")
    } else {
        format!(in alloc; "write `{new}` for `{old}`")
    }
}
