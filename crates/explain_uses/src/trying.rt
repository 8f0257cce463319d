// Sources in which uses are emptied.
ghost use Rattle.std.specs.Prelude.{◌≡◌, ◌≤◌, IfOk, IfSome, map};
ghost use Rattle.raml_syntax.specs.Read.{program_of, function_of};
ghost use Rattle.explain_check.specs.Checks.{IsProgramOf};
ghost use Rattle.explain_edits.specs.Edits.{with_edits};
ghost use Rattle.explain_uses.specs.Emptied as e;
ghost use Rattle.explain_uses.specs.Paid as p;
ghost use Rattle.explain_uses.specs.Paid.{IsEmptied, IsTried};
ghost use Rattle.explain_uses.specs.Read.{uses_of};

use crate::emptied::emptying;
use crate::later::LaterUse;
use explain_mending::Original;
use explain_trials::{EditedSource, Trial, trial_of, typed_edits};
use raml_syntax::{Fun, Program};
use std::alloc::{AllocError, Global};

/// The source in which these uses are emptied. None where it spells no typed program of functions of the same names.
fn emptied_source<'s, 'a>(
    alloc: Global,
    original: Original<'s, 'a>,
    uses: &[LaterUse<'a>],
) -> Result<Option<EditedSource>, AllocError>
    ensures { IfOk result (λ source. IfSome source (λ s. IsEmptied original.entry.source.now
        (program_of original.entry.program.now) uses.now s.text.items (program_of s.typed))) }
{
    let edits = emptying(alloc, uses)?;
    match typed_edits(alloc, original.source, &edits)? {
        Some(source) => Ok(if_same_names(original, uses, source)),
        None => Ok(None),
    }
}

/// The source, where it spells a program of functions of the same names.
fn if_same_names<'s, 'a>(
    original: Original<'s, 'a>,
    uses: &[LaterUse<'a>],
    source: EditedSource,
) -> Option<EditedSource>
    requires edited { source.text.items ≡ with_edits original.source.now (map e.edit (uses_of uses.now)) }
    requires spelled { IsProgramOf source.text.items (program_of source.typed) }
    ensures { IfSome result (λ s. IsEmptied original.entry.source.now
        (program_of original.entry.program.now) uses.now s.text.items (program_of s.typed)) }
{
    let _uses = uses;
    if has_same_names(original.program, source.typed.program()) {
        Some(source)
    } else {
        None
    }
}

/// The trial of the source in which these uses are emptied.
pub(crate) fn try_uses<'s, 'a>(
    alloc: Global,
    original: Original<'s, 'a>,
    uses: &[LaterUse<'a>],
) -> Result<Option<Trial>, AllocError>
    requires { original.most ≤ 4 }
    ensures { IfOk result (λ trial. IfSome trial
        (IsTried original.entry.source.now (program_of original.entry.program.now) original.entry.most uses.now)) }
{
    match emptied_source(alloc, original, uses)? {
        Some(source) => {
            let trial = trial_of(alloc, source.text, source.typed, original.most)?;
            Ok(Some(trial))
        }
        None => Ok(None),
    }
}

/// Whether the functions of both programs have the same names, in the same order.
fn has_same_names(one: &Program, other: &Program) -> bool
    ensures { result ≡ p.same_names (program_of one.now) (program_of other.now) }
{
    same_names(&one.funs, &other.funs)
}

fn same_names(one: &[Fun], other: &[Fun]) -> bool
    ensures { result ≡ p.same_names (map function_of one.now) (map function_of other.now) }
{
    match one {
        [] => match other {
            [] => true,
            [_, ..] => false,
        },
        [first, rest @ ..] => match other {
            [] => false,
            [second, others @ ..] => {
                first.name.text() == second.name.text() && same_names(rest, others)
            }
        },
    }
}
