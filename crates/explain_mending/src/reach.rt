// What a group reaches by calls.
ghost use Rattle.std.specs.Prelude.{◌≡◌, ℕ, List, IfOk, OnOk};
ghost use Rattle.raml_syntax.specs.Tree.{Prog};
ghost use Rattle.call_groups.specs.Groups.{IsGrouping};
ghost use Rattle.call_groups.specs.Read.{ids_of};
ghost use Rattle.explain_mending.specs.Reached.{callees_at, AreReached, AreOfBoth, MayAdd};

use call_groups::Groups;
use raml_syntax::FunId;
use std::alloc::{AllocError, Global};

/// The functions that a function calls.
pub fn callees(groups: &Groups, fun: FunId) -> &[FunId]
    ensures { ids_of result.now ≡ callees_at groups.now.calls fun.0 }
{
    match groups.all_calls().get(fun.0 as usize) {
        Some(callees) => callees,
        None => &[],
    }
}

/// Adds the function, where it is not there.
fn add_new(found: &mut Vec<FunId>, fun: &FunId) -> Result<(), AllocError>
    ensures { OnOk result (MayAdd (Unit {0}) fun.now found.old.items found.new.items) }
{
    if !found.contains(fun) {
        found.push(*fun)?;
    }
    Ok(())
}

/// Adds those of the functions that are not there.
fn add_all_new(found: &mut Vec<FunId>, funs: &[FunId]) -> Result<(), AllocError>
    ensures { OnOk result (AreOfBoth found.old.items funs.now found.new.items) }
{
    for fun in funs {
        add_new(found, fun)?;
    }
    Ok(())
}

/// Adds what the function at a place calls, where there is one.
fn add_called(groups: &Groups, place: usize, found: &mut Vec<FunId>) -> Result<(), AllocError>
    ensures { OnOk result ((P : Prog) (group : List ℕ) → IsGrouping P groups.now → AreReached P group found.old.items →
        AreReached P group found.new.items) }
{
    match found.get(place) {
        Some(fun) => {
            let fun = *fun;
            add_all_new(found, callees(groups, fun))
        }
        None => Ok(()),
    }
}

/// The functions of a group and those that they reach by calls.
pub fn reached(alloc: Global, groups: &Groups, group: &[FunId]) -> Result<Vec<FunId>, AllocError>
    ensures { IfOk result (λ found. (P : Prog) → IsGrouping P groups.now → AreReached P (ids_of group.now) found.items) }
{
    let mut found = Vec::from_slice(alloc, group)?;
    for place in 0..groups.all_calls().len() {
        add_called(groups, place, &mut found)?;
    }
    Ok(found)
}
