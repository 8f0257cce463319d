// Changes without which all lines keep their bounds are left out.
ghost use Rattle.std.specs.Prelude.{◌≡◌, ◌<◌, ◌+◌, ◌++◌, drop, length, true, IfOk, IfSome, OnOk};
ghost use Rattle.explain_lines.specs.Mended.{has_bounds};
ghost use Rattle.explain_lines.specs.Read.{lines_of};
ghost use Rattle.explain_mending.specs.Mended.{AreAmong, Keeps, findings_in};

use crate::attempt::Attempt;
use explain_lines::{Line, has_bounds};
use explain_trials::Trial;
use std::alloc::{AllocError, Global};

/// The changes that were kept, and the trial with these and all that were not passed yet.
#[derive(Drop)]
pub(crate) struct Fewer<Change> {
    pub(crate) kept: Vec<Change>,
    pub(crate) trial: Trial,
}

impl<Change: Copy> Fewer<Change> {
    /// Passes the change at the next place, which is left out where the lines keep their bounds without it.
    fn pass<A: Attempt<Change>>(
        &mut self,
        alloc: Global,
        attempt: &A,
        lines: &[Line],
        changes: &[Change],
        place: usize,
    ) -> Result<(), AllocError>
        requires ready { A.is_ready attempt.now }
        requires place { place < length changes.now }
        requires among { AreAmong changes.now self.old.kept.items }
        requires keeps { Keeps (A.tried attempt.now) (lines_of lines.now) (self.old.kept.items ++ drop place changes.now) self.old.trial }
        ensures among { OnOk result (AreAmong changes.now self.new.kept.items) }
        ensures keeps { OnOk result (Keeps (A.tried attempt.now) (lines_of lines.now)
            (self.new.kept.items ++ drop (place + 1) changes.now) self.new.trial) }
    {
        let fewer = joined(alloc, &self.kept, &changes[place + 1..])?;
        match keeping(alloc, attempt, lines, &fewer)? {
            Some(trial) => {
                self.trial = trial;
                Ok(())
            }
            None => {
                self.kept.push(changes[place])?;
                Ok(())
            }
        }
    }
}

/// Both, one behind the other.
fn joined<Change: Copy>(
    alloc: Global,
    first: &[Change],
    second: &[Change],
) -> Result<Vec<Change>, AllocError>
    ensures { IfOk result (λ all. all.items ≡ first.now ++ second.now) }
{
    let mut all = Vec::from_slice(alloc, first)?;
    all.extend_from_slice(second)?;
    Ok(all)
}

/// The trial of some changes, where all lines have bounds.
fn keeping<Change, A: Attempt<Change>>(
    alloc: Global,
    attempt: &A,
    lines: &[Line],
    changes: &[Change],
) -> Result<Option<Trial>, AllocError>
    requires { A.is_ready attempt.now }
    ensures { IfOk result (λ trial. IfSome trial (Keeps (A.tried attempt.now) (lines_of lines.now) changes.now)) }
{
    if changes.is_empty() {
        return Ok(None);
    }
    match attempt.attempt(alloc, changes)? {
        Some(trial) => Ok(if_bounded(trial, lines)),
        None => Ok(None),
    }
}

/// The trial, where all lines have bounds.
fn if_bounded(trial: Trial, lines: &[Line]) -> Option<Trial>
    ensures { IfSome result (λ t. (t ≡ trial) × (has_bounds (findings_in t) (lines_of lines.now) ≡ true)) }
{
    if has_bounds(&trial.found.functions, lines) {
        Some(trial)
    } else {
        None
    }
}

/// The changes without those that the lines do not need, which are left out one by one, in their order.
pub(crate) fn reduce<Change: Copy, A: Attempt<Change>>(
    alloc: Global,
    attempt: &A,
    lines: &[Line],
    changes: &[Change],
    trial: Trial,
) -> Result<Fewer<Change>, AllocError>
    requires ready { A.is_ready attempt.now }
    requires keeps { Keeps (A.tried attempt.now) (lines_of lines.now) changes.now trial }
    ensures among { IfOk result (λ fewer. AreAmong changes.now fewer.kept.items) }
    ensures keeps { IfOk result (λ fewer. Keeps (A.tried attempt.now) (lines_of lines.now) fewer.kept.items fewer.trial) }
{
    let kept = Vec::new(alloc);
    let mut fewer = Fewer { kept, trial };
    for place in 0..changes.len() {
        fewer.pass(alloc, attempt, lines, changes, place)?;
    }
    Ok(fewer)
}
