// What the names of sizes mean.
ghost use Rattle.std.specs.Prelude.{◌≡◌, ◌++◌, codes, encode_utf8, string_bytes, OnOk, IfOk};
ghost use Rattle.explain_algebra.specs.Algebra.{equation, equations, legend_text, texts};
ghost use Rattle.explain_algebra.specs.Steps.{marked, still};

use crate::names::name_at;
use std::alloc::AllocError;

/// Appends what the names mean, such as `n = |l|, m = |r|`, of parameters with these names.
pub fn push_legend(
    text: &mut String,
    names: &[Option<char>],
    params: &[&str],
) -> Result<(), AllocError>
    ensures { OnOk result (string_bytes text.new ≡ string_bytes text.old ++ legend_text names.now (texts params.now)) }
{
    let mut is_first = true;
    let mut place = 0;
    for param in params {
        is_first = push_next(text, is_first, name_at(names, place), *param)?;
        place += 1;
    }
    Ok(())
}

// Appends the name and the size that it means, where there is a name, and tells whether it is still
// to come first.
fn push_next(
    text: &mut String,
    is_first: bool,
    name: Option<char>,
    param: &str,
) -> Result<bool, AllocError>
    ensures text { OnOk result (string_bytes text.new ≡ string_bytes text.old ++ marked is_first (codes ", ") (equation name param.now)) }
    ensures first { IfOk result (λ first. first ≡ still is_first (equation name param.now)) }
{
    match name {
        None => Ok(is_first),
        Some(name) => {
            text.push_str(if is_first { "" } else { ", " })?;
            push_equation(text, name, param)?;
            Ok(false)
        }
    }
}

// Appends the name and the size that it means.
fn push_equation(text: &mut String, name: char, param: &str) -> Result<(), AllocError>
    ensures { OnOk result (string_bytes text.new ≡ string_bytes text.old ++ (encode_utf8 name ++ (codes " = |" ++ (param.now ++ codes "|")))) }
{
    text.push(name)?;
    text.push_str(" = |")?;
    text.push_str(param)?;
    text.push_str("|")
}
