// The lines of declared bounds that are not decided.
ghost use Rattle.std.specs.Prelude.{◌≡◌, ◌++◌, IfOk, string_bytes};
ghost use Rattle.refusal_text.specs.DeclaredLines.{declared_too_large_line, declared_leaves_line};

use crate::places::push_counted;
use std::alloc::{AllocError, Global};

/// With the rows of the bound on this line of the file, a system has more than 2000 rows.
pub fn declared_too_large_line(alloc: Global, line: u32) -> Result<String, AllocError>
    ensures { IfOk result (λ text. string_bytes text ≡ declared_too_large_line line) }
{
    let mut text = String::new(alloc);
    push_counted(&mut text, "raml: too large: bounds line ", line as usize)?;
    text.push_str(": rows\n")?;
    Ok(text)
}

/// A number leaves 128 bits.
pub fn declared_leaves_line(alloc: Global, line: u32) -> Result<String, AllocError>
    ensures { IfOk result (λ text. string_bytes text ≡ declared_leaves_line line) }
{
    let mut text = String::new(alloc);
    push_counted(&mut text, "raml: overflow: bounds line ", line as usize)?;
    text.push_str("\n")?;
    Ok(text)
}
