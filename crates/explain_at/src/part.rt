// Parts of names.
ghost use Rattle.std.specs.Prelude.{◌≡◌, ◌++◌, ◌<◌, IfOk, string_bytes};
ghost use Rattle.raml_syntax.specs.Cut.{cut_at, lent_parts};

use std::alloc::{AllocError, Global};

/// The name of a part: the name of the whole and the step to the part.
pub fn part(alloc: Global, name: &str, step: &str) -> Result<String, AllocError>
    ensures { IfOk result (λ part. string_bytes part ≡ name.now ++ step.now) }
{
    let mut part = String::from_str(alloc, name)?;
    part.push_str(step)?;
    Ok(part)
}

/// What stands before the first such character of a text, and behind it. The character is of ASCII.
pub fn cut_at<'a>(text: &'a str, mark: char) -> Option<(&'a str, &'a str)>
    requires { mark < 128 }
    ensures { lent_parts result ≡ cut_at mark text.now }
{
    text.split_once(mark)
}
