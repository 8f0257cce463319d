// What a function reaches by calls.
ghost use Rattle.std.specs.Prelude.{◌≤◌, ◌<◌, length, IfOk, OnOk};
ghost use Rattle.raml_syntax.specs.Read.{program_of};
ghost use Rattle.call_groups.specs.Read.{ids_of};
ghost use Rattle.explain_profile.specs.Reached.{AreReached};
ghost use Rattle.explain_profile.specs.Walk.{AddsAll, MayAddOne};

use call_groups::group_calls;
use explain_mending::callees;
use explain_rounds::is_in;
use raml_syntax::{FunId, Program};
use std::alloc::{AllocError, Global};

/// Adds a function, unless it is among those that are found.
fn add_new(found: &mut Vec<FunId>, fun: FunId) -> Result<(), AllocError>
    ensures { OnOk result (MayAddOne fun.0 (ids_of found.old.items) (ids_of found.new.items)) }
{
    if !is_in(fun, found) {
        found.push(fun)?;
    }
    Ok(())
}

/// Adds those functions that are not among those that are found.
fn add_all_new(found: &mut Vec<FunId>, funs: &[FunId]) -> Result<(), AllocError>
    ensures { OnOk result (AddsAll (ids_of funs.now) (ids_of found.old.items) (ids_of found.new.items)) }
{
    for fun in funs {
        add_new(found, *fun)?;
    }
    Ok(())
}

/// The functions that a function reaches by calls, and itself.
pub(crate) fn reached(
    alloc: Global,
    program: &Program,
    fun: FunId,
) -> Result<Vec<FunId>, AllocError>
    requires few { length (program_of program.now) ≤ 256 }
    ensures { IfOk result (λ funs. AreReached (program_of program.now) fun.0 (ids_of funs.items)) }
{
    let groups = group_calls(alloc, program)?;
    let mut found = Vec::new(alloc);
    found.push(fun)?;
    let mut place = 0;
    while place < found.len() {
        let next = found[place];
        add_all_new(&mut found, callees(&groups, next))?;
        place += 1;
    }
    Ok(found)
}
