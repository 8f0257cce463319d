// The groups of a program's functions.
ghost use Rattle.std.specs.Prelude.{◌≡◌, ◌≤◌, ◌<◌, IfOk, Some, length, map, slice_get};
ghost use Rattle.raml_syntax.specs.Read.{program_of};
ghost use Rattle.call_groups.specs.Read.{ids_of, lists_of, rows_of};
ghost use Rattle.call_groups.specs.Calls.{calls_of};
ghost use Rattle.call_groups.specs.Groups.{AreInOrder, IsGrouping};
ghost use Rattle.call_groups.specs.Sets.{below};
ghost use Rattle.call_groups.specs.Table.{Placed};

use crate::calls::call_rows;
use crate::function_set::FunctionSet;
use crate::order::{group_of, next, waiting};
use crate::reach::close;
use raml_syntax::{FunId, Program};
use std::alloc::{AllocError, Global};
use std::marker::Model;

/// The groups of a program's functions, and the functions that each of them calls.
#[derive(Drop)]
pub struct Groups {
    list: Vec<Vec<FunId>>,
    calls: Vec<Vec<FunId>>,
}

impl Model for Groups {
    ghost use Rattle.std.specs.Prelude.{◌≤◌, length};
    ghost use Rattle.call_groups.specs.Read.{lists_of};
    ghost use Rattle.call_groups.specs.Groups.{Grouping};

    ghost Value = { Grouping };

    ghost view = { λ groups. record { list = lists_of groups.list.items; calls = lists_of groups.calls.items } };

    ghost invariant = { λ groups. length groups.calls.items ≤ 256 };
}

impl Groups {
    /// The groups, callees first; inside a group functions ascend.
    pub fn list(&self) -> &[Vec<FunId>]
        ensures { lists_of result.now ≡ self.now.list }
    {
        &self.list
    }

    /// The functions that a function calls, each once, ascending.
    pub fn calls(&self, fun: FunId) -> &[FunId]
        requires { fun.0 < length self.now.calls }
        ensures { slice_get self.now.calls fun.0 ≡ Some (ids_of result.now) }
    {
        &self.calls[fun.0 as usize]
    }

    /// For each function, in their order, the functions that it calls. There are few functions.
    pub fn all_calls(&self) -> &[Vec<FunId>]
        ensures all { lists_of result.now ≡ self.now.calls }
        ensures few { length result.now ≤ 256 }
    {
        &self.calls
    }
}

/// The groups in their order, from what each function leads to.
fn in_order(alloc: Global, leads: &[FunctionSet]) -> Result<Vec<Vec<FunId>>, AllocError>
    requires { length leads.now ≤ 256 }
    ensures { IfOk result (λ list. Placed (rows_of leads.now) (length leads.now) (lists_of list.items)) }
{
    let waiting = waiting(alloc, leads)?;
    let mut placed = FunctionSet::empty();
    let mut list = Vec::new(alloc);
    while let Some(fun) = next(&waiting, &placed) {
        let group = group_of(leads, fun);
        placed.insert_all(&group);
        list.push(group.functions(alloc, leads.len())?)?;
    }
    Ok(list)
}

/// The functions of each set.
fn listed(alloc: Global, rows: &[FunctionSet]) -> Result<Vec<Vec<FunId>>, AllocError>
    requires { length rows.now ≤ 256 }
    ensures { IfOk result (λ lists. lists_of lists.items ≡ map (below (length rows.now)) (rows_of rows.now)) }
{
    let mut lists = Vec::new(alloc);
    for row in rows {
        lists.push(row.functions(alloc, rows.len())?)?;
    }
    Ok(lists)
}

/// The groups of a program, and its calls.
///
/// Two functions are in one group exactly where each leads to the other by calls, or they are the same.
/// A call leads to the same group or an earlier one, and of the groups that may come next the one with
/// the least function comes first.
pub fn group_calls(alloc: Global, program: &Program) -> Result<Groups, AllocError>
    requires { length (program_of program.now) ≤ 256 }
    ensures { IfOk result (λ groups. IsGrouping (program_of program.now) groups) }
{
    let mut rows = call_rows(alloc, program)?;
    let calls = listed(alloc, &rows)?;
    close(&mut rows);
    let list = in_order(alloc, &rows)?;
    Ok(Groups { list, calls })
}
