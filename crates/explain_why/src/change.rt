// The first change.
ghost use Rattle.std.specs.Prelude.{◌≡◌, cond, None, IfOk};
ghost use Rattle.std.specs.Option.{option_map};
ghost use Rattle.explain_why.specs.Chosen.{asking_in};
ghost use Rattle.explain_why.specs.Why as w;
ghost use Rattle.explain_why.specs.Why.{told_of};
ghost use Rattle.explain_why.specs.Read.{text_in, bytes_in};

use crate::groups::Subject;
use explain_reasons::{Explained, Explanation, Reason};
use std::alloc::{AllocError, Global};

/// The source that a change gives which mends the group.
fn change_of<'e>(reason: &'e Reason<'_>) -> Option<&'e [u8]>
    ensures { text_in result ≡ w.change_of reason.now }
{
    match reason {
        Reason::Rebuild(rebuilt) => Some(&rebuilt.trial.text),
        Reason::Inline(inlined) => Some(&inlined.trial.text),
        Reason::Exchange(exchanged) => Some(&exchanged.trial.text),
        Reason::Waits { .. }
        | Reason::Stuck { .. }
        | Reason::Twice(_)
        | Reason::Computed { .. }
        | Reason::DegreeTooLow { .. }
        | Reason::PaidTwice(_)
        | Reason::NotFound => None,
    }
}

fn change_if<'e>(reason: &'e Reason<'_>, is_told: bool) -> Option<&'e [u8]>
    ensures { text_in result ≡ cond is_told (w.change_of reason.now) None }
{
    if is_told { change_of(reason) } else { None }
}

/// The first, or else the second.
fn first_of<'e>(first: Option<&'e [u8]>, second: Option<&'e [u8]>) -> Option<&'e [u8]>
    ensures { text_in result ≡ w.first_of (text_in first.entry) (text_in second.entry) }
{
    match first {
        Some(change) => Some(change),
        None => second,
    }
}

/// The source that is changed so that the first of these groups gets its bounds, of those that are told of.
fn first_change<'e>(
    subject: Subject<'_>,
    explanation: &Explanation<'_>,
    reasons: &'e [Explained<'_>],
) -> Option<&'e [u8]>
    ensures { text_in result ≡ w.first_change (told_of (asking_in subject.entry.asking) explanation.now) reasons.now }
{
    match reasons {
        [] => None,
        [first, rest @ ..] => first_of(
            change_if(&first.reason, subject.tells(explanation, first)),
            first_change(subject, explanation, rest),
        ),
    }
}

/// The source that is changed so that the first group gets its bounds, of those that are told of.
pub(crate) fn changed(
    alloc: Global,
    subject: Subject<'_>,
    explanation: &Explanation<'_>,
) -> Result<Option<Vec<u8>>, AllocError>
    ensures { IfOk result (λ changed. bytes_in changed ≡ w.first_change (told_of (asking_in subject.entry.asking) explanation.now)
        explanation.now.reasons.items) }
{
    match first_change(subject, explanation, &explanation.reasons) {
        Some(text) => Ok(Some(Vec::from_slice(alloc, text)?)),
        None => Ok(None),
    }
}
