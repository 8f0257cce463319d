// What is told of a function on its name.
ghost use Rattle.std.specs.Prelude.{◌≡◌, ◌∷◌, List, IfOk, string_bytes};
ghost use Rattle.raml_syntax.specs.Tree.{Text};
ghost use Rattle.raml_syntax.specs.Types.{types_of};
ghost use Rattle.raml_syntax.specs.Read.{program_of, function_of};
ghost use Rattle.explain_at.specs.Read.{texts};
ghost use Rattle.explain_bounds.specs.Lines.{AreLines};
ghost use Rattle.explain_bounds.specs.Told.{Nothing};
ghost use Rattle.explain_bounds.specs.Written.{AllCanBeTold};
ghost use Rattle.explain_insight.specs.Hovers.{IsFunctionText};
ghost use Rattle.explain_insight.specs.Header.{header};

use crate::fenced::fenced;
use crate::header::header;
use explain_bounds::{Asked, push_function};
use explain_degrees::Findings;
use raml_syntax::{Fun, Program};
use std::alloc::{AllocError, Global};

/// The header of a function and the lines of `explain bounds`, in Markdown.
pub(crate) fn function_text(
    alloc: Global,
    program: &Program,
    fun: &Fun,
    found: &Findings,
) -> Result<String, AllocError>
    requires { AllCanBeTold (types_of (function_of fun.now)) found.now }
    ensures { IfOk result (λ text. IsFunctionText (program_of program.now) (function_of fun.now) found.now (string_bytes text)) }
{
    let lines = function_lines(alloc, program, fun, found)?;
    fenced(alloc, &lines)
}

/// The header, and behind it the lines of the bounds.
fn function_lines(
    alloc: Global,
    program: &Program,
    fun: &Fun,
    found: &Findings,
) -> Result<Vec<String>, AllocError>
    requires { AllCanBeTold (types_of (function_of fun.now)) found.now }
    ensures { IfOk result (λ lines. (bounds : List Text)
        × AreLines (program_of program.now) (function_of fun.now) Nothing found.now bounds
        × (texts lines.items ≡ header (function_of fun.now) ∷ bounds)) }
{
    let mut lines = Vec::new(alloc);
    lines.push(header(alloc, fun)?)?;
    match push_function(alloc, &mut lines, program, fun, found, &Asked::Nothing) {
        Ok(()) => Ok(lines),
        Err(_) => Err(AllocError),
    }
}
