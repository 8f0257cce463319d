// What is shown on the line of a byte.
ghost use Rattle.std.specs.Prelude.{◌≡◌, ◌≤◌, IfOk};
ghost use Rattle.raml_syntax.specs.Read.{program_of};
ghost use Rattle.explain_regions.specs.Counter.{IsLexed};
ghost use Rattle.explain_counts.specs.Hovers as h;
ghost use Rattle.explain_counts.specs.Hovers.{IsLineHover, IsShown, IsToldAt, line_there};
ghost use Rattle.explain_counts.specs.Lines.{first_begun};
ghost use Rattle.explain_counts.specs.Parts.{part_of};
ghost use Rattle.explain_counts.specs.Read.{named_of};

use crate::count::count;
use crate::line::{NamedLine, first_begun};
use crate::part::part_of;
use explain_profile::{Case, program_in};
use lsp_language::{Hover, Span};
use raml_syntax::Program;
use std::alloc::{AllocError, Global};

/// Whether the byte stands on the part.
fn stands_on(part: Span, place: usize) -> bool
    ensures { result ≡ h.stands_on part place }
{
    part.start <= place && place < part.end
}

/// How often a line is run at most by a call of its function, told on a part of the source.
fn hover_of<'a>(
    alloc: Global,
    source: &'a [u8],
    most: u8,
    part: Span,
    found: NamedLine<'a>,
) -> Result<Hover, AllocError>
    requires most { most ≤ 4 }
    requires lexed { IsLexed source.now }
    ensures { IfOk result (IsLineHover most source.now part (named_of found.entry)) }
{
    let case = Case {
        source,
        name: found.name,
        most,
        sizes: None,
    };
    Ok(Hover {
        span: part,
        text: count(alloc, case, found.line.region)?,
    })
}

/// What is shown on the part of a line of a program.
#[tactic(auto, using(crate::proofs::Shown::shown, crate::proofs::Shown::not_shown))]
fn part_hover<'a>(
    alloc: Global,
    source: &'a [u8],
    program: &'a Program,
    most: u8,
    part: Span,
) -> Result<Option<Hover>, AllocError>
    requires most { most ≤ 4 }
    requires lexed { IsLexed source.now }
    ensures { IfOk result (IsShown most source.now part (first_begun source.now part (program_of program.now))) }
{
    match first_begun(alloc, source, part, &program.funs)? {
        Some(found) => Ok(Some(hover_of(alloc, source, most, part, found)?)),
        None => Ok(None),
    }
}

/// What is shown at a byte of the source of a program.
#[tactic(auto, using(crate::proofs::Shown::stands, crate::proofs::Shown::stands_beside))]
fn program_hover<'a>(
    alloc: Global,
    source: &'a [u8],
    program: &'a Program,
    most: u8,
    place: usize,
) -> Result<Option<Hover>, AllocError>
    requires most { most ≤ 4 }
    requires lexed { IsLexed source.now }
    ensures { IfOk result (IsShown most source.now (part_of source.now place) (line_there source.now place (program_of program.now))) }
{
    let part = part_of(source, place);
    if stands_on(part, place) {
        part_hover(alloc, source, program, most, part)
    } else {
        Ok(None)
    }
}

/// What is shown at a byte of a text: on a line of the body of a function, how often it is run at most by a call of that function,
/// by analyses at degrees up to `most`.
pub fn line_hover(
    alloc: Global,
    source: &[u8],
    most: u8,
    place: usize,
) -> Result<Option<Hover>, AllocError>
    requires { most ≤ 4 }
    ensures { IfOk result (IsToldAt most source.now place) }
{
    match program_in(alloc, source)? {
        Some(typed) => program_hover(alloc, source, typed.program(), most, place),
        None => Ok(None),
    }
}
