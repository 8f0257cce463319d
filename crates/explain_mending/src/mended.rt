// Changes that mend a group.
ghost use Rattle.std.specs.Prelude.{◌≡◌, ◌≤◌, length, true, IfOk, IfSome};
ghost use Rattle.call_groups.specs.Read.{ids_of};
ghost use Rattle.explain_lines.specs.Mended.{has_bounds, mended_lines};
ghost use Rattle.explain_lines.specs.Read.{lines_of};
ghost use Rattle.explain_mending.specs.Mended as m;
ghost use Rattle.explain_mending.specs.Mended.{AreReduced, IsMended, findings_in};

use crate::attempt::Attempt;
use crate::fewer::reduce;
use explain_degrees::Findings;
use explain_lines::laws::{groups_stay_mended, mended_lines_have_bounds};
use explain_lines::{Line, mended_lines, mends_group};
use explain_trials::Trial;
use raml_syntax::FunId;
use std::alloc::{AllocError, Global};

/// Changes by which functions get bounds.
#[derive(Drop)]
pub struct Mended<Change> {
    /// The changes, in the order in which they were given.
    pub changes: Vec<Change>,
    /// The changed source, and what analyses find of it.
    pub trial: Trial,
    /// The functions and meters that had no bound, and have one so.
    pub lines: Vec<Line>,
}

/// Changes by which all functions of a group get bounds: first all of these are made, and then those are left out without
/// which each line that all of them mend keeps its bound. None where the group lacks a bound with all of them, too.
pub fn mend<Change: Copy, A: Attempt<Change>>(
    alloc: Global,
    attempt: &A,
    old: &[Findings],
    group: &[FunId],
    all: &[Change],
) -> Result<Option<Mended<Change>>, AllocError>
    requires ready { A.is_ready attempt.now }
    requires few { length old.now ≤ 256 }
    ensures { IfOk result (λ mended. IfSome mended (λ m.
        IsMended (A.tried attempt.now) old.now (ids_of group.now) all.now m.changes.items m.trial (lines_of m.lines.items))) }
{
    if all.is_empty() {
        return Ok(None);
    }
    match attempt.attempt(alloc, all)? {
        Some(trial) => if_mended(alloc, attempt, old, group, all, trial),
        None => Ok(None),
    }
}

/// The changes that are kept, where the group has bounds with all of these made.
fn if_mended<Change: Copy, A: Attempt<Change>>(
    alloc: Global,
    attempt: &A,
    old: &[Findings],
    group: &[FunId],
    all: &[Change],
    trial: Trial,
) -> Result<Option<Mended<Change>>, AllocError>
    requires ready { A.is_ready attempt.now }
    requires few { length old.now ≤ 256 }
    requires tried { A.tried attempt.now all.now trial }
    ensures { IfOk result (λ mended. IfSome mended (λ m.
        IsMended (A.tried attempt.now) old.now (ids_of group.now) all.now m.changes.items m.trial (lines_of m.lines.items))) }
{
    mended_lines_have_bounds();
    groups_stay_mended();
    if trial.found.functions.len() != old.len() {
        return Ok(None);
    }
    if mends_group(old, &trial.found.functions, group) {
        Ok(Some(reduced(alloc, attempt, old, all, trial)?))
    } else {
        Ok(None)
    }
}

/// The changes that are kept, where all of these were made.
fn reduced<Change: Copy, A: Attempt<Change>>(
    alloc: Global,
    attempt: &A,
    old: &[Findings],
    all: &[Change],
    trial: Trial,
) -> Result<Mended<Change>, AllocError>
    requires ready { A.is_ready attempt.now }
    requires few { length old.now ≤ 256 }
    requires tried { A.tried attempt.now all.now trial }
    requires bounds { has_bounds (findings_in trial) (mended_lines old.now (findings_in trial)) ≡ true }
    ensures { IfOk result (λ m. AreReduced (A.tried attempt.now) (mended_lines old.now (findings_in trial)) all.now m.changes.items
        m.trial (lines_of m.lines.items)) }
{
    let lines = mended_lines(alloc, old, &trial.found.functions)?;
    let fewer = reduce(alloc, attempt, &lines, all, trial)?;
    Ok(Mended {
        changes: fewer.kept,
        trial: fewer.trial,
        lines,
    })
}
