// Edited sources.
ghost use Rattle.std.specs.Prelude.{◌≡◌, ◌≤◌, IfOk, IfSome};
ghost use Rattle.raml_syntax.specs.Read.{program_of};
ghost use Rattle.explain_check.specs.Checks.{IsProgramOf};
ghost use Rattle.explain_edits.specs.Edits.{with_edits};
ghost use Rattle.explain_edits.specs.Read.{edits_of};
ghost use Rattle.explain_trials.specs.Read.{IsTrialOf};

use crate::trial::{Trial, trial_of, typed_text};
use explain_edits::{Edit, edited};
use simple_types::Typed;
use std::alloc::{AllocError, Global};

/// A source in which some edits are made, and the typed program that it spells.
#[derive(Drop)]
pub struct EditedSource {
    pub text: Vec<u8>,
    pub typed: Typed,
}

/// The source with some edits made, which stand in their order. None where it spells no typed program.
pub fn typed_edits(
    alloc: Global,
    source: &[u8],
    edits: &[Edit],
) -> Result<Option<EditedSource>, AllocError>
    ensures text { IfOk result (λ found. IfSome found (λ e. e.text.items ≡ with_edits source.now (edits_of edits.now))) }
    ensures spelled { IfOk result (λ found. IfSome found (λ e. IsProgramOf e.text.items (program_of e.typed))) }
{
    let text = edited(alloc, source, edits)?;
    match typed_text(alloc, &text)? {
        Some(typed) => Ok(Some(EditedSource { text, typed })),
        None => Ok(None),
    }
}

/// What analyses up to a degree find of the source with some edits made, which stand in their order. None where it spells no
/// typed program.
pub fn try_edits(
    alloc: Global,
    source: &[u8],
    edits: &[Edit],
    most: u8,
) -> Result<Option<Trial>, AllocError>
    requires { most ≤ 4 }
    ensures text { IfOk result (λ trial. IfSome trial (λ t. t.text.items ≡ with_edits source.now (edits_of edits.now))) }
    ensures trial { IfOk result (λ trial. IfSome trial (IsTrialOf most)) }
{
    match typed_edits(alloc, source, edits)? {
        Some(source) => Ok(Some(trial_of(alloc, source.text, source.typed, most)?)),
        None => Ok(None),
    }
}
