// Values that are used twice.
ghost use Rattle.std.specs.Prelude.{◌≡◌, ◌≤◌, length, IfOk, IfSome};
ghost use Rattle.raml_syntax.specs.Read.{program_of};
ghost use Rattle.call_groups.specs.Groups.{IsGrouping};
ghost use Rattle.call_groups.specs.Read.{ids_of};
ghost use Rattle.explain_uses.specs.Paid.{IsTried, IsPaidTwice};

use crate::later::LaterUse;
use crate::reach::reached_uses;
use crate::trying::try_uses;
use call_groups::Groups;
use explain_lines::Line;
use explain_mending::{Attempt, Mended, Original, mend};
use explain_trials::Trial;
use raml_syntax::FunId;
use std::alloc::{AllocError, Global};

/// Values that are used twice, so that both uses have to be paid for.
#[derive(Drop)]
pub struct PaidTwice<'a> {
    /// The later uses, in the order of the source.
    pub uses: Vec<LaterUse<'a>>,
    /// The source in which these are emptied, and what analyses find of it.
    pub trial: Trial,
    /// The functions and meters that had no bound, and have one so.
    pub lines: Vec<Line>,
}

/// A program in which later uses may be emptied.
#[derive(Clone, Copy)]
struct Emptying<'s, 'a> {
    original: Original<'s, 'a>,
}

impl<'s, 'a> Attempt<LaterUse<'a>> for Emptying<'s, 'a> {
    ghost is_ready = { λ e. e.original.most ≤ 4 };

    ghost tried = { λ e. IsTried e.original.source.now (program_of e.original.program.now) e.original.most };

    fn attempt(&self, alloc: Global, uses: &[LaterUse<'a>]) -> Result<Option<Trial>, AllocError> {
        try_uses(alloc, self.original, uses)
    }
}

/// Later uses that have to be paid for: where all of those in the group, and in what it reaches by calls, are emptied, each
/// function of the group has bounds; and then those are left as they are without which each line that this mends keeps its
/// bound.
pub fn paid_twice<'s, 'a>(
    alloc: Global,
    original: Original<'s, 'a>,
    groups: &Groups,
    group: &[FunId],
    uses: &[LaterUse<'a>],
) -> Result<Option<PaidTwice<'a>>, AllocError>
    requires most { original.most ≤ 4 }
    requires count { length original.found.now ≡ length (program_of original.program.now) }
    requires few { length original.found.now ≤ 256 }
    requires grouping { IsGrouping (program_of original.program.now) groups.now }
    ensures { IfOk result (λ paid. IfSome paid (IsPaidTwice original.entry.source.now (program_of original.entry.program.now)
        original.entry.found.now original.entry.most uses.now (ids_of group.now))) }
{
    let all = reached_uses(alloc, original.program, groups, group, uses)?;
    let emptying = Emptying { original };
    match mend(alloc, &emptying, original.found, group, &all)? {
        Some(
            Mended {
                changes: uses,
                trial,
                lines,
            },
        ) => Ok(Some(PaidTwice { uses, trial, lines })),
        None => Ok(None),
    }
}
