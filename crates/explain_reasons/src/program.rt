// Why functions of a program have no bounds.
ghost use Rattle.std.specs.Prelude.{◌≡◌, ◌++◌, [], ◌∷◌, length, map, IfOk, OnOk};
ghost use Rattle.std.specs.List.{All, filter};
ghost use Rattle.raml_syntax.specs.Read.{program_of};
ghost use Rattle.call_groups.specs.Read.{ids_of};
ghost use Rattle.explain_check.specs.Checks.{IsProgramOf};
ghost use Rattle.explain_reasons.specs.Asked.{IsAsked, source_in, program_in, found_in};
ghost use Rattle.explain_reasons.specs.Reasons.{IsExplained, group_in};
ghost use Rattle.explain_reasons.specs.Explanation.{is_lacking, AreReasons, IsExplanation};

use crate::asked::Asked;
use crate::grounds::reason;
use crate::note::{Note, notes_of};
use crate::progress::Progress;
use crate::reason::Explained;
use call_groups::group_calls;
use explain_changes::sites;
use explain_degrees::{Findings, LeastBounds};
use explain_lines::first_lacking;
use explain_mending::Original;
use explain_trials::found_of;
use explain_uses::later_uses;
use raml_syntax::FunId;
use simple_types::Typed;
use std::alloc::{AllocError, Global};

/// Up to which degree a program is analysed, and up to which those that are tried.
pub(crate) const HIGHEST: u8 = 4;

const HIGHEST_TRIED: u8 = 3;

/// What was found of a program, and why some of its functions have no bound.
#[derive(Drop)]
pub struct Explanation<'a> {
    pub found: LeastBounds,
    pub notes: Vec<Note>,
    /// Of each group that has no bound, callees first.
    pub reasons: Vec<Explained<'a>>,
}

/// Adds why a group has no bound, where that is so.
fn add_explained<'s, 'a>(
    alloc: Global,
    asked: Asked<'s, 'a>,
    group: &[FunId],
    reasons: &mut Vec<Explained<'a>>,
) -> Result<(), AllocError>
    requires { IsAsked asked }
    ensures each { OnOk result (map group_in reasons.new.items
        ≡ map group_in reasons.old.items ++ filter (is_lacking (found_in asked.entry)) (ids_of group.now ∷ [])) }
    ensures explained { OnOk result (
        All (IsExplained (source_in asked.entry) (program_in asked.entry)
        (found_in asked.entry) asked.entry.original.most) reasons.old.items →
        All (IsExplained (source_in asked.entry) (program_in asked.entry)
        (found_in asked.entry) asked.entry.original.most) reasons.new.items) }
{
    match first_lacking(asked.original.found, group) {
        Some(fun) => {
            let reason = reason(alloc, asked, group)?;
            let group = Vec::from_slice(alloc, group)?;
            reasons.push(Explained { group, fun, reason })?;
            Ok(())
        }
        None => Ok(()),
    }
}

/// How many of the groups have no bound.
fn count_lacking(found: &[Findings], groups: &[Vec<FunId>]) -> u32 {
    let mut count: u32 = 0;
    for group in groups {
        if first_lacking(found, group).is_some() {
            count = count.saturating_add(1);
        }
    }
    count
}

/// Of each group that has no bound why, callees first. After each group it is told how many are done, of so many.
fn each_explained<'s, 'a, P: Progress>(
    alloc: Global,
    asked: Asked<'s, 'a>,
    all: u32,
    progress: &mut P,
) -> Result<Vec<Explained<'a>>, AllocError>
    requires { IsAsked asked }
    ensures { IfOk result (λ reasons. AreReasons (source_in asked.entry) (program_in asked.entry) (found_in asked.entry)
        asked.entry.original.most reasons.items) }
{
    let mut reasons = Vec::new(alloc);
    for group in asked.groups.list() {
        add_explained(alloc, asked, group, &mut reasons)?;
        let done = u32::try_from(reasons.len()).unwrap_or(all);
        progress.tells(done, all);
    }
    Ok(reasons)
}

/// Of each group that has no bound why, callees first.
fn explained<'s, 'a, P: Progress>(
    alloc: Global,
    asked: Asked<'s, 'a>,
    progress: &mut P,
) -> Result<Vec<Explained<'a>>, AllocError>
    requires { IsAsked asked }
    ensures { IfOk result (λ reasons. AreReasons (source_in asked.entry) (program_in asked.entry) (found_in asked.entry)
        asked.entry.original.most reasons.items) }
{
    let all = count_lacking(asked.original.found, asked.groups.list());
    progress.tells(0, all);
    let reasons = each_explained(alloc, asked, all, progress);
    progress.tells(all, all);
    reasons
}

/// Of each group of a program that has no bound why, callees first, where analyses found this of its functions. How many groups
/// are done, of those that have no bound, is told as it goes on.
pub fn reasons_of<'a, P: Progress>(
    alloc: Global,
    source: &[u8],
    typed: &'a Typed,
    found: &[Findings],
    progress: &mut P,
) -> Result<Vec<Explained<'a>>, AllocError>
    requires spelled { IsProgramOf source.now (program_of typed.now) }
    requires count { length found.now ≡ length (program_of typed.now) }
    ensures { IfOk result (λ reasons. AreReasons source.now (program_of typed.now) found.now 3 reasons.items) }
{
    let program = typed.program();
    let groups = group_calls(alloc, program)?;
    let sites = sites(alloc, program)?;
    let uses = later_uses(alloc, program)?;
    let original = Original {
        source,
        program,
        found,
        most: HIGHEST_TRIED,
    };
    let asked = Asked {
        original,
        typed,
        groups: &groups,
        sites: &sites,
        uses: &uses,
    };
    explained(alloc, asked, progress)
}

/// What analyses find of a program up to degree 4, and why functions have no bound. What is said of the others is said for
/// the degree that is asked for. How many groups are done, of those that have no bound, is told as it goes on.
pub fn explain<'a, P: Progress>(
    alloc: Global,
    source: &[u8],
    typed: &'a Typed,
    degree: u8,
    progress: &mut P,
) -> Result<Explanation<'a>, AllocError>
    requires { IsProgramOf source.now (program_of typed.now) }
    ensures { IfOk result (IsExplanation source.now (program_of typed.now) degree) }
{
    let found = found_of(alloc, typed, HIGHEST)?;
    let reasons = reasons_of(alloc, source, typed, &found.functions, progress)?;
    let notes = notes_of(alloc, &found, degree)?;
    Ok(Explanation {
        found,
        notes,
        reasons,
    })
}
