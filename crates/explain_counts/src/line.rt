// The line of a body that begins on a part of a source.
ghost use Rattle.std.specs.Prelude.{◌≡◌, map, option_map, IfOk};
ghost use Rattle.raml_syntax.specs.Read.{function_of};
ghost use Rattle.explain_regions.specs.Read.{plain_line, plain_lines};
ghost use Rattle.explain_counts.specs.Lines as l;
ghost use Rattle.explain_counts.specs.Lines.{first_begun, line_of};
ghost use Rattle.explain_counts.specs.Read.{named_of};

use explain_regions::{Line, lines};
use lsp_language::Span;
use raml_syntax::Fun;
use std::alloc::{AllocError, Global};

/// A line of the body of the function of this name.
#[derive(Clone, Copy)]
pub(crate) struct NamedLine<'a> {
    pub(crate) name: &'a str,
    pub(crate) line: Line,
}

/// Whether the line begins on the part.
fn begins_on(part: Span, line: Line) -> bool
    ensures { result ≡ l.begins_on part (plain_line line) }
{
    part.start <= line.at.0 as usize && (line.at.0 as usize) < part.end
}

/// The first of the lines that begins on the part.
fn first_of(part: Span, lines: &[Line]) -> Option<Line>
    ensures { option_map plain_line result ≡ l.first_of part (plain_lines lines.now) }
{
    for line in lines {
        if begins_on(part, *line) {
            return Some(*line);
        }
    }
    None
}

/// The first line of the body of a function that begins on the part.
fn line_of(alloc: Global, source: &[u8], part: Span, fun: &Fun) -> Result<Option<Line>, AllocError>
    ensures { IfOk result (λ line. option_map plain_line line ≡ line_of source.now part (function_of fun.now)) }
{
    let lines = lines(alloc, source, &fun.body)?;
    Ok(first_of(part, &lines))
}

/// The first line of the bodies of functions that begins on the part, and the name of its function.
pub(crate) fn first_begun<'a>(
    alloc: Global,
    source: &[u8],
    part: Span,
    funs: &'a [Fun],
) -> Result<Option<NamedLine<'a>>, AllocError>
    ensures { IfOk result (λ found. option_map named_of found ≡ first_begun source.now part (map function_of funs.now)) }
{
    for fun in funs {
        if let Some(line) = line_of(alloc, source, part, fun)? {
            return Ok(Some(NamedLine {
                name: fun.name.text(),
                line,
            }));
        }
    }
    Ok(None)
}
