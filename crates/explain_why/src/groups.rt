// What is told of a program.
ghost use Rattle.std.specs.Prelude.{◌≡◌, ◌<◌, ◌^◌, ◌++◌, ℕ, length, IfOk, OnOk, string_bytes};
ghost use Rattle.std.specs.List.{All};
ghost use Rattle.raml_syntax.specs.Tree.{Text};
ghost use Rattle.raml_syntax.specs.Read.{program_of};
ghost use Rattle.explain_reasons.specs.Explanation.{IsExplanation};
ghost use Rattle.explain_why.specs.Why as w;
ghost use Rattle.explain_why.specs.Why.{ReasonCanBeTold, BoundsAre, IsReasonShown, IsGroup, IsGroupIf, AreGroups, IsWhy};
ghost use Rattle.explain_why.specs.Why.{told_of, told_some};
ghost use Rattle.explain_why.specs.Chosen.{asking_in};

use crate::bounds::push_bounds;
use crate::chosen::{Asking, tells_some};
use crate::notes::push_notes;
use crate::shown::push_sentences;
use explain_bounds::laws::findings_can_be_told;
use explain_degrees::Findings;
use explain_lines::Line;
use explain_reasons::{Explained, Explanation, Reason};
use explain_sentences::{closing, first_head, next_head, sentences};
use explain_supply::Supplied;
use explain_trials::Trial;
use raml_syntax::Program;
use std::alloc::{AllocError, Global};

/// What is said before bounds that values that are built again give.
const REBUILT: &str =
    "Each such place makes at most one more cell when it runs, so bounds of cells may rise. With this there are these bounds:\n";

/// What is said before bounds that another change gives.
const WRITTEN: &str =
    "`--write OTHER.raml` leaves the source so. With this there are these bounds:\n";

/// Appends the bounds of these lines in a program that was tried, behind a line that says what was changed.
fn push_trial(
    alloc: Global,
    text: &mut String,
    head: &str,
    trial: &Trial,
    lines: &[Line],
) -> Result<(), AllocError>
    requires { w.TrialCanBeTold trial.now }
    ensures { OnOk result ((part : Text) × w.TrialIs head.now trial.now lines.now part
        × (string_bytes text.new ≡ string_bytes text.old ++ part)) }
{
    text.push_str(head)?;
    let program = trial.typed.program();
    push_bounds(alloc, text, program, &trial.found.functions, lines)
}

/// What is said before the bounds that a list which pays for the rounds gives.
fn supplied_head(alloc: Global, name: &str) -> Result<String, AllocError>
    ensures { IfOk result (λ head. string_bytes head ≡ w.supplied_head name.now) }
{
    format!(in alloc;
        "If a list `{name}` with an entry for each call came as one more parameter, there would be these bounds:\n"
    )
}

/// Appends these bounds, where there are any.
fn push_supplied(
    alloc: Global,
    text: &mut String,
    supplied: &Option<Supplied>,
) -> Result<(), AllocError>
    requires { w.SupplyCanBeTold supplied.now }
    ensures { OnOk result ((part : Text) × w.SupplyIs supplied.now part × (string_bytes text.new ≡ string_bytes text.old ++ part)) }
{
    match supplied {
        Some(supplied) => {
            let head = supplied_head(alloc, &supplied.name)?;
            push_trial(alloc, text, &head, &supplied.trial, &supplied.lines)
        }
        None => Ok(()),
    }
}

/// Appends the bounds of a program that was tried, where there is one.
fn push_tried(alloc: Global, text: &mut String, reason: &Reason<'_>) -> Result<(), AllocError>
    requires { ReasonCanBeTold reason.now }
    ensures { OnOk result ((part : Text) × BoundsAre reason.now part × (string_bytes text.new ≡ string_bytes text.old ++ part)) }
{
    match reason {
        Reason::Rebuild(rebuilt) => {
            push_trial(alloc, text, REBUILT, &rebuilt.trial, &rebuilt.lines)
        }
        Reason::Inline(inlined) => {
            push_trial(alloc, text, WRITTEN, &inlined.trial, &inlined.lines)
        }
        Reason::Exchange(exchanged) => {
            push_trial(alloc, text, WRITTEN, &exchanged.trial, &exchanged.lines)
        }
        Reason::Stuck { supplied, .. } => push_supplied(alloc, text, supplied),
        Reason::Computed { supplied, .. } => push_supplied(alloc, text, supplied),
        Reason::Waits { .. }
        | Reason::Twice(_)
        | Reason::DegreeTooLow { .. }
        | Reason::PaidTwice(_)
        | Reason::NotFound => Ok(()),
    }
}

/// What is told of: a program, with the name of its file and its source, and what is asked about.
#[derive(Clone, Copy)]
pub(crate) struct Subject<'s> {
    pub(crate) name: &'s str,
    pub(crate) source: &'s [u8],
    pub(crate) program: &'s Program,
    pub(crate) asking: Asking,
}

impl<'s> Subject<'s> {
    /// Whether a group is told of.
    pub(crate) fn tells(self, explanation: &Explanation<'_>, explained: &Explained<'_>) -> bool
        ensures { result ≡ told_of (asking_in self.entry.asking) explanation.now explained.now }
    {
        let found = &explanation.found.functions;
        self.asking.tells(found, &explanation.reasons, explained)
    }

    fn tells_some(self, explanation: &Explanation<'_>) -> bool
        ensures { result ≡ told_some (asking_in self.entry.asking) explanation.now }
    {
        let found = &explanation.found.functions;
        let reasons = &explanation.reasons;
        tells_some(self.asking, found, reasons, reasons)
    }
}

/// Appends the sentences of the reason of a group, each at its place.
fn push_reason(
    alloc: Global,
    text: &mut String,
    subject: Subject<'_>,
    found: &[Findings],
    explained: &Explained<'_>,
) -> Result<(), AllocError>
    requires { length (program_of subject.program.now) < 2 ^ 32 }
    ensures { OnOk result ((part : Text) × IsReasonShown subject.entry.name.now subject.entry.source.now
        (program_of subject.entry.program.now) found.now explained.now part
        × (string_bytes text.new ≡ string_bytes text.old ++ part)) }
{
    let Subject {
        name,
        source,
        program,
        ..
    } = subject;
    let head = first_head(alloc, program, found, explained.fun)?;
    let next = next_head(alloc, program, explained.fun)?;
    let sentences = sentences(alloc, program, explained)?;
    push_sentences(alloc, text, name, source, &head, &next, &sentences)
}

/// Appends why a group has no bound.
fn push_group(
    alloc: Global,
    text: &mut String,
    subject: Subject<'_>,
    found: &[Findings],
    explained: &Explained<'_>,
) -> Result<(), AllocError>
    requires few { length (program_of subject.program.now) < 2 ^ 32 }
    requires told { ReasonCanBeTold explained.now.reason }
    ensures { OnOk result ((part : Text) × IsGroup subject.entry.name.now subject.entry.source.now
        (program_of subject.entry.program.now) found.now explained.now part
        × (string_bytes text.new ≡ string_bytes text.old ++ part)) }
{
    push_reason(alloc, text, subject, found, explained)?;
    text.push_str(closing(&explained.reason))?;
    push_tried(alloc, text, &explained.reason)
}

/// Appends it, where the group is told of.
fn push_group_if(
    alloc: Global,
    text: &mut String,
    subject: Subject<'_>,
    found: &[Findings],
    explained: &Explained<'_>,
    is_told: bool,
) -> Result<(), AllocError>
    requires few { length (program_of subject.program.now) < 2 ^ 32 }
    requires told { ReasonCanBeTold explained.now.reason }
    ensures { OnOk result ((part : Text) × IsGroupIf is_told subject.entry.name.now subject.entry.source.now
        (program_of subject.entry.program.now) found.now explained.now part
        × (string_bytes text.new ≡ string_bytes text.old ++ part)) }
{
    if is_told {
        push_group(alloc, text, subject, found, explained)
    } else {
        Ok(())
    }
}

/// Appends it of those of the groups that are told of.
fn push_groups(
    alloc: Global,
    text: &mut String,
    subject: Subject<'_>,
    explanation: &Explanation<'_>,
    reasons: &[Explained<'_>],
) -> Result<(), AllocError>
    requires few { length (program_of subject.program.now) < 2 ^ 32 }
    requires told { All (λ e. ReasonCanBeTold e.reason) reasons.now }
    ensures { OnOk result ((part : Text) × AreGroups (told_of (asking_in subject.entry.asking) explanation.now)
        subject.entry.name.now subject.entry.source.now (program_of subject.entry.program.now) explanation.now.found.functions.items
        reasons.now part
        × (string_bytes text.new ≡ string_bytes text.old ++ part)) }
{
    match reasons {
        [] => Ok(()),
        [first, rest @ ..] => {
            let found = &explanation.found.functions;
            let is_told = subject.tells(explanation, first);
            push_group_if(alloc, text, subject, found, first, is_told)?;
            push_groups(alloc, text, subject, explanation, rest)
        }
    }
}

/// What 'no bound' means, where that is said.
fn meaning(told_some: bool) -> &'static str
    ensures { result.now ≡ w.meaning told_some }
{
    if told_some {
        "That a bound is missing does not mean that the cost is unlimited. It is proved that the analysis has none of the degrees that were tried, with what it found of called functions. The places above are likely causes, found by trying changes.\n"
    } else {
        "all functions that were asked about have their bounds\n"
    }
}

/// Appends why functions of a program have no bounds, and what is said of the others.
pub(crate) fn push_why(
    alloc: Global,
    text: &mut String,
    subject: Subject<'_>,
    explanation: &Explanation<'_>,
) -> Result<(), AllocError>
    requires few { length (program_of subject.program.now) < 2 ^ 32 }
    requires is { (degree : ℕ) × IsExplanation subject.source.now (program_of subject.program.now) degree explanation.now }
    ensures { OnOk result ((part : Text) × IsWhy subject.entry.name.now subject.entry.source.now
        (program_of subject.entry.program.now) (asking_in subject.entry.asking) explanation.now part
        × (string_bytes text.new ≡ string_bytes text.old ++ part)) }
{
    findings_can_be_told();
    push_notes(text, subject.program, subject.asking, &explanation.notes)?;
    push_groups(alloc, text, subject, explanation, &explanation.reasons)?;
    text.push_str(meaning(subject.tells_some(explanation)))
}
