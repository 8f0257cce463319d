// The lines of a function and of what it calls.
ghost use Rattle.std.specs.Prelude.{◌≡◌, ◌<◌, ◌≤◌, ◌^◌, ◌++◌, length, IfOk, OnOk};
ghost use Rattle.raml_syntax.specs.Read.{program_of, function_of};
ghost use Rattle.call_groups.specs.Read.{ids_of};
ghost use Rattle.explain_regions.specs.Read.{plain_lines};
ghost use Rattle.explain_profile.specs.Reached.{AreReachedLines, lines_if, lines_of};

use crate::reach::reached;
use explain_regions::{Line, lines};
use explain_rounds::is_in;
use raml_syntax::{Fun, FunId, Program};
use std::alloc::{AllocError, Global};

/// Adds the lines of a function, where it is told of.
fn add_lines(
    alloc: Global,
    source: &[u8],
    fun: &Fun,
    is_told: bool,
    found: &mut Vec<Line>,
) -> Result<(), AllocError>
    ensures { OnOk result (plain_lines found.new.items
        ≡ plain_lines found.old.items ++ lines_if is_told source.now (function_of fun.now)) }
{
    if is_told {
        let more = lines(alloc, source, &fun.body)?;
        found.extend_from_slice(&more)?;
    }
    Ok(())
}

/// The lines of functions, in the order of the source.
fn lines_in(
    alloc: Global,
    source: &[u8],
    program: &Program,
    funs: &[FunId],
) -> Result<Vec<Line>, AllocError>
    requires { length (program_of program.now) < 2 ^ 32 }
    ensures { IfOk result (λ found. plain_lines found.items ≡ lines_of source.now (ids_of funs.now) 0 (program_of program.now)) }
{
    let mut found = Vec::new(alloc);
    let mut place = 0;
    for fun in &program.funs {
        add_lines(alloc, source, fun, is_in(FunId(place), funs), &mut found)?;
        place += 1;
    }
    Ok(found)
}

/// The lines of a function and of those that it reaches by calls.
pub(crate) fn reached_lines(
    alloc: Global,
    source: &[u8],
    program: &Program,
    fun: FunId,
) -> Result<Vec<Line>, AllocError>
    requires { length (program_of program.now) ≤ 256 }
    ensures { IfOk result (λ found. AreReachedLines source.now (program_of program.now) fun.0 (plain_lines found.items)) }
{
    let funs = reached(alloc, program, fun)?;
    lines_in(alloc, source, program, &funs)
}
