// Lines that Markdown shows as they are.
ghost use Rattle.std.specs.Prelude.{◌≡◌, ◌++◌, IfOk, OnOk, string_bytes};
ghost use Rattle.explain_at.specs.Read.{texts};
ghost use Rattle.explain_insight.specs.Fenced.{fenced, lined};

use std::alloc::{AllocError, Global};

/// The lines between fences.
pub(crate) fn fenced(alloc: Global, lines: &[String]) -> Result<String, AllocError>
    ensures { IfOk result (λ text. string_bytes text ≡ fenced (texts lines.now)) }
{
    let mut text = String::from_str(alloc, "```\n")?;
    push_lines(&mut text, lines)?;
    text.push_str("```")?;
    Ok(text)
}

fn push_lines(text: &mut String, lines: &[String]) -> Result<(), AllocError>
    ensures { OnOk result (string_bytes text.new ≡ string_bytes text.old ++ lined (texts lines.now)) }
{
    for line in lines {
        text.push_str(line)?;
        text.push_str("\n")?;
    }
    Ok(())
}
