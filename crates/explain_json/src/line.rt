// JSON in a line of its own.
ghost use Rattle.std.specs.Prelude.{◌≡◌, ◌++◌, ◌∷◌, [], OnOk, string_bytes};
ghost use Rattle.json.specs.Print.{print};

use json::Writer;
use std::alloc::AllocError;

/// Appends what was written, with a newline behind it.
pub fn push_line(text: &mut String, writer: Writer) -> Result<(), AllocError>
    requires { writer.before ≡ [] }
    ensures { OnOk result (string_bytes text.new ≡ string_bytes text.old ++ (print writer.tokens ++ 10 ∷ [])) }
{
    let bytes = writer.into_inner();
    match String::from_utf8(bytes) {
        Ok(line) => {
            text.push_str(&line)?;
            text.push('\n')
        }
        Err(_) => unreachable!(),
    }
}
