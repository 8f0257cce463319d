// Groups, and what they wait for.
ghost use Rattle.std.specs.Prelude.{◌≡◌, ◌≤◌, ◌<◌, IfOk, IfSome, IfNone, length};
ghost use Rattle.call_groups.specs.Read.{rows_of};
ghost use Rattle.call_groups.specs.Sets.{has};
ghost use Rattle.call_groups.specs.Table.{row_at, waits, group, Waiting, IsNext, NoneIsReady};

use crate::function_set::FunctionSet;
use crate::reach::leading_to;
use std::alloc::{AllocError, Global};

/// The functions to which a function leads and that do not lead back.
fn waits_for(leads: &[FunctionSet], fun: usize) -> FunctionSet
    requires few { length leads.now ≤ 256 }
    requires there { fun < length leads.now }
    ensures { has result ≡ waits (rows_of leads.now) fun }
{
    leads[fun].difference(&leading_to(leads, fun))
}

/// What each function waits for.
pub fn waiting(alloc: Global, leads: &[FunctionSet]) -> Result<Vec<FunctionSet>, AllocError>
    requires { length leads.now ≤ 256 }
    ensures { IfOk result (λ made. Waiting (rows_of leads.now) (length leads.now) (rows_of made.items)) }
{
    let mut made = Vec::new(alloc);
    for fun in 0..leads.len() {
        made.push(waits_for(leads, fun))?;
    }
    Ok(made)
}

/// The first function that is not placed and waits for none but placed ones.
pub fn next(waiting: &[FunctionSet], placed: &FunctionSet) -> Option<usize>
    ensures found { IfSome result (IsNext (row_at (rows_of waiting.now)) (length waiting.now) (has placed.now)) }
    ensures none { IfNone result (NoneIsReady (row_at (rows_of waiting.now)) (length waiting.now) (has placed.now)) }
{
    for (fun, waits) in waiting.iter().enumerate() {
        if !placed.contains(fun) && waits.is_subset(placed) {
            return Some(fun);
        }
    }
    None
}

/// The group of a function.
pub fn group_of(leads: &[FunctionSet], fun: usize) -> FunctionSet
    requires few { length leads.now ≤ 256 }
    requires there { fun < length leads.now }
    ensures { has result ≡ group (rows_of leads.now) fun }
{
    let mut group = leads[fun].intersection(&leading_to(leads, fun));
    group.insert(fun);
    group
}
