// Later uses in what a group reaches by calls.
ghost use Rattle.std.specs.Prelude.{◌<◌, ◌^◌, length, IfOk, OnOk, IsTrue};
ghost use Rattle.std.specs.List.{All};
ghost use Rattle.raml_syntax.specs.Read.{program_of};
ghost use Rattle.call_groups.specs.Groups.{IsGrouping};
ghost use Rattle.call_groups.specs.Read.{ids_of};
ghost use Rattle.explain_mending.specs.Mended.{AreAmong};
ghost use Rattle.explain_mending.specs.Reached.{MayAdd};
ghost use Rattle.explain_uses.specs.Reached.{IsReachedUse, NamesOneOf};

use crate::later::LaterUse;
use call_groups::Groups;
use explain_mending::reached;
use raml_syntax::{FunId, Program};
use std::alloc::{AllocError, Global};

/// Whether the use is in one of the functions.
fn is_in(program: &Program, funs: &[FunId], later: &LaterUse<'_>) -> bool
    requires { length (program_of program.now) < 2 ^ 32 }
    ensures { IsTrue result → NamesOneOf (program_of program.now) later.now funs.now }
{
    match program.find(later.function.text()) {
        Some(fun) => funs.contains(&fun),
        None => false,
    }
}

/// Adds the use, where it is in one of the functions.
fn add_if_in<'a>(
    program: &Program,
    funs: &[FunId],
    later: LaterUse<'a>,
    found: &mut Vec<LaterUse<'a>>,
) -> Result<(), AllocError>
    requires { length (program_of program.now) < 2 ^ 32 }
    ensures { OnOk result (MayAdd (NamesOneOf (program_of program.now) later.entry funs.now) later.entry found.old.items
        found.new.items) }
{
    if is_in(program, funs, &later) {
        found.push(later)?;
    }
    Ok(())
}

/// Those of the uses that are in functions of the group, or in what they reach by calls.
pub(crate) fn reached_uses<'a>(
    alloc: Global,
    program: &'a Program,
    groups: &Groups,
    group: &[FunId],
    uses: &[LaterUse<'a>],
) -> Result<Vec<LaterUse<'a>>, AllocError>
    requires few { length (program_of program.now) < 2 ^ 32 }
    requires grouping { IsGrouping (program_of program.now) groups.now }
    ensures among { IfOk result (λ found. AreAmong uses.now found.items) }
    ensures reached { IfOk result (λ found. All (IsReachedUse (program_of program.now) (ids_of group.now)) found.items) }
{
    let funs = reached(alloc, groups, group)?;
    let mut found = Vec::new(alloc);
    for later in uses {
        add_if_in(program, &funs, *later, &mut found)?;
    }
    Ok(found)
}
