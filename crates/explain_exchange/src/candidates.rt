// The pairs of parameters that are tried.
use call_groups::Groups;
use explain_mending::reached;
use explain_rounds::is_sized;
use raml_syntax::{Fun, FunId, Param, Program};
use std::alloc::{AllocError, Global};

/// How many exchanges are tried for a group at most.
const MOST_TRIALS: usize = 24;

/// Two parameters of a function, by their places, the first before the second.
#[derive(Clone, Copy, PartialEq, Eq, Debug)]
pub(crate) struct Candidate {
    pub(crate) fun: FunId,
    pub(crate) first: usize,
    pub(crate) second: usize,
}

/// The pairs of sized parameters of the functions of a group and of those that they reach by calls, in the order of the source; no
/// more than are tried.
pub(crate) fn candidates(
    alloc: Global,
    program: &Program,
    groups: &Groups,
    group: &[FunId],
) -> Result<Vec<Candidate>, AllocError> {
    let funs = reached(alloc, groups, group)?;
    let mut found = Vec::new(alloc);
    let mut id = FunId(0);
    for fun in &program.funs {
        if funs.contains(&id) {
            add_of(id, fun, &mut found)?;
        }
        id = FunId(id.0.saturating_add(1));
    }
    Ok(found)
}

/// Adds the pairs of a function.
fn add_of(id: FunId, fun: &Fun, found: &mut Vec<Candidate>) -> Result<(), AllocError> {
    for first in 0..fun.params.len() {
        if is_sized(&fun.params[first].ty) {
            add_with(id, first, &fun.params, found)?;
        }
    }
    Ok(())
}

/// Adds the pairs with this first parameter.
fn add_with(
    fun: FunId,
    first: usize,
    params: &[Param],
    found: &mut Vec<Candidate>,
) -> Result<(), AllocError> {
    for second in 0..params.len() {
        if first < second && is_sized(&params[second].ty) && found.len() < MOST_TRIALS {
            found.push(Candidate { fun, first, second })?;
        }
    }
    Ok(())
}
