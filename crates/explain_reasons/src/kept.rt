// Whether a change keeps the values of a group.
ghost use Rattle.std.specs.Prelude.{◌≡◌, IfOk, true};
ghost use Rattle.raml_syntax.specs.Read.{program_of};
ghost use Rattle.call_groups.specs.Read.{ids_of};
ghost use Rattle.explain_check.specs.Checks.{IsProgramOf};
ghost use Rattle.explain_kept.specs.Kept.{KeepValues};
ghost use Rattle.explain_reasons.specs.Asked.{IsAsked, program_in};

use crate::asked::Asked;
use explain_check::MOST_BYTES;
use explain_kept::keep_values;
use explain_trials::Trial;
use raml_syntax::FunId;
use std::alloc::{AllocError, Global};

/// Whether each function of the group gives the same values in a program that was tried, on made arguments.
pub(crate) fn keeps_values<'s, 'a>(
    alloc: Global,
    asked: Asked<'s, 'a>,
    trial: &Trial,
    group: &[FunId],
) -> Result<bool, AllocError>
    requires asked { IsAsked asked }
    requires spelled { IsProgramOf trial.now.text.items (program_of trial.now.typed) }
    ensures { IfOk result (λ kept. kept ≡ true → KeepValues (program_in asked.entry) (program_of trial.now.typed) (ids_of group.now)) }
{
    if asked.original.source.len() as u64 > MOST_BYTES || trial.text.len() as u64 > MOST_BYTES {
        return Ok(false);
    }
    keep_values(alloc, asked.typed, &trial.typed, group)
}
