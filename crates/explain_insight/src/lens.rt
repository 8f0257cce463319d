// The bounds of functions above them, and beside their headers.
ghost use Rattle.std.specs.Prelude.{◌≡◌, ◌<◌, ◌^◌, IfOk};
ghost use Rattle.raml_syntax.specs.Types.{types_of};
ghost use Rattle.raml_syntax.specs.Read.{function_of};
ghost use Rattle.explain_bounds.specs.Written.{AllCanBeTold};
ghost use Rattle.explain_insight.specs.Lenses.{IsLens, IsHint, line_end};

use crate::brief::brief_bounds;
use explain_degrees::Findings;
use explain_places::line_at;
use explain_tokens::starting;
use lsp_language::{Hint, Lens, Span};
use raml_syntax::Fun;
use std::alloc::{AllocError, Global};

/// The bounds of a function above its `fun`.
pub(crate) fn lens(alloc: Global, fun: &Fun, found: &Findings) -> Result<Lens, AllocError>
    requires { AllCanBeTold (types_of (function_of fun.now)) found.now }
    ensures { IfOk result (IsLens (function_of fun.now) found.now) }
{
    let start = fun.at.0 as usize;
    Ok(Lens {
        span: Span {
            start,
            end: start + "fun".len(),
        },
        title: brief_bounds(alloc, fun, found)?,
    })
}

/// The same at the end of the line in which the function begins.
pub(crate) fn hint(
    alloc: Global,
    source: &[u8],
    fun: &Fun,
    found: &Findings,
) -> Result<Hint, AllocError>
    requires { AllCanBeTold (types_of (function_of fun.now)) found.now }
    ensures { IfOk result (IsHint source.now (function_of fun.now) found.now) }
{
    Ok(Hint {
        offset: line_end(source, fun.at.0 as usize),
        label: brief_bounds(alloc, fun, found)?,
    })
}

/// Where the line ends in which a byte stands.
fn line_end(source: &[u8], at: usize) -> usize
    requires { at < 2 ^ 32 }
    ensures { result ≡ line_end source.now at }
{
    at + line_at(starting(source, at), 0).len()
}
