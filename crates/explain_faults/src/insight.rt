// What is told of a source with a fault.
ghost use Rattle.std.specs.Prelude.{◌≡◌, Some, IfOk};
ghost use Rattle.std.specs.List.{All};
ghost use Rattle.explain_faults.specs.Faults.{place};
ghost use Rattle.explain_faults.specs.Repairs.{IsRepair};
ghost use Rattle.explain_faults.specs.Told.{IsDiagnostic, IsToldFault};

use crate::extent::marked;
use crate::fault::SourceFault;
use crate::guess::guess;
use crate::repair::repair;
use crate::site::Site;
use explain_messages::Message;
use lsp_language::{Action, Diagnostic, Edit, Insight, Severity};
use std::alloc::{AllocError, Global};

/// The fault of a source as an editor shows it: at the token where it stands, in the words of `explain check`, with its hint as
/// a second line; and what to write instead, where the hint says it and that mends the fault.
pub fn fault_insight(
    alloc: Global,
    source: &[u8],
    fault: &SourceFault,
) -> Result<Insight, AllocError>
    ensures { IfOk result (IsToldFault source.now fault.now) }
{
    let Some(message) = fault.message(alloc, source)? else {
        return Err(AllocError);
    };
    let mut insight = Insight::new(alloc);
    insight
        .diagnostics
        .push(diagnostic(alloc, source, fault, &message)?)?;
    insight.actions = actions(alloc, source, fault, &message)?;
    Ok(insight)
}

/// The fault, at its place.
fn diagnostic(
    alloc: Global,
    source: &[u8],
    fault: &SourceFault,
    message: &Message,
) -> Result<Diagnostic, AllocError>
    requires { place fault.now ≡ Some message.now }
    ensures { IfOk result (IsDiagnostic source.now fault.now) }
{
    Ok(Diagnostic {
        span: marked(source, message.at()),
        severity: Severity::Error,
        code: Some(String::from_str(alloc, fault.code())?),
        message: words(alloc, message)?,
        related: Vec::new(alloc),
    })
}

/// What is wrong, and the hint as a second line.
fn words(alloc: Global, message: &Message) -> Result<String, AllocError> {
    let mut text = String::from_str(alloc, message.text())?;
    if let Some(hint) = message.hint() {
        text.push_str("\nhint: ")?;
        text.push_str(hint.text())?;
    }
    Ok(text)
}

/// What to write instead, as the hint says.
fn actions(
    alloc: Global,
    source: &[u8],
    fault: &SourceFault,
    message: &Message,
) -> Result<Vec<Action>, AllocError>
    ensures { IfOk result (λ actions. All (IsRepair source.now fault.now) actions.items) }
{
    let Some(hint) = message.hint() else {
        return Ok(Vec::new(alloc));
    };
    match guess(alloc, Site::of(source, message.at()), hint)? {
        Some(edit) => offered(alloc, source, fault, message.at(), edit),
        None => Ok(Vec::new(alloc)),
    }
}

/// The edit as an action, where it mends the fault, at the place of that.
fn offered(
    alloc: Global,
    source: &[u8],
    fault: &SourceFault,
    at: usize,
    edit: Edit,
) -> Result<Vec<Action>, AllocError>
    ensures { IfOk result (λ actions. All (IsRepair source.now fault.now) actions.items) }
{
    let mut actions = Vec::new(alloc);
    match repair(alloc, source, fault, marked(source, at), edit)? {
        Some(action) => {
            actions.push(action)?;
            Ok(actions)
        }
        None => Ok(actions),
    }
}
