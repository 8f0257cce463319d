// Lines that are wrapped at a width.
ghost use Rattle.std.specs.Prelude.{◌≡◌, None, string_bytes, IfOk};
ghost use Rattle.explain_text.specs.Wrapped.{break_of, IsWrapped};

use crate::glue::Glue;
use crate::lines::Lines;
use std::alloc::{AllocError, Global};

/// The line, broken at spaces where it would be wider than the width, with as many spaces before each
/// line but the first as `indent` tells. What may not be broken is in one line also where it is wider.
/// Without a width it is the line as it is.
pub fn wrapped(
    alloc: Global,
    line: &str,
    width: Option<usize>,
    indent: usize,
) -> Result<String, AllocError>
    ensures wrapped { IfOk result (λ text. IsWrapped (break_of indent) line.now (string_bytes text)) }
    ensures whole { width ≡ None → IfOk result (λ text. string_bytes text ≡ line.now) }
{
    match width {
        None => String::from_str(alloc, line),
        Some(width) => wrap_at(alloc, line, width, indent),
    }
}

// The line, broken at the width.
fn wrap_at(alloc: Global, line: &str, width: usize, indent: usize) -> Result<String, AllocError>
    ensures { IfOk result (λ text. IsWrapped (break_of indent) line.now (string_bytes text)) }
{
    let mut lines = Lines::new(alloc, width, indent);
    let mut glue = Glue::new();
    let mut rest = line;
    while let Some((word, behind)) = rest.split_once(' ') {
        glue = glue.behind(word, behind);
        lines.read(alloc, word, glue.stays)?;
        rest = behind;
    }
    lines.put(alloc, rest)?;
    Ok(lines.text())
}
