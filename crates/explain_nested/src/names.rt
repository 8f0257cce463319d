// Names of parameters and of elements.
ghost use Rattle.std.specs.Prelude.{◌≡◌, ◌++◌, not, filter, take, drop, IfOk, OnOk};
ghost use Rattle.std.specs.List.{list_any};
ghost use Rattle.std.specs.Str.{bytes_eq};
ghost use Rattle.explain_nested.specs.Text.{texts, value_names};

use std::alloc::{AllocError, Global};

/// The letters that name elements.
const LETTERS: [&str; 12] = ["x", "y", "z", "w", "u", "v", "s", "t", "p", "q", "r", "h"];

/// The names of the parameters, and behind them the letters that are no parameter's name.
pub fn value_names<'a>(alloc: Global, params: &[&'a str]) -> Result<Vec<&'a str>, AllocError>
    ensures { IfOk result (λ names. texts names.items ≡ value_names (texts params.now)) }
{
    let mut names = Vec::new(alloc);
    for param in params {
        names.push(*param)?;
    }
    append_free(&mut names, params, &LETTERS)?;
    Ok(names)
}

// Appends the letters that are no parameter's name.
fn append_free<'a>(
    names: &mut Vec<&'a str>,
    params: &[&'a str],
    letters: &[&'a str],
) -> Result<(), AllocError>
    ensures { OnOk result (texts names.new.items
        ≡ texts names.old.items ++ filter (λ x. not (list_any (bytes_eq x) (texts params.now))) (texts letters.now)) }
{
    for letter in letters {
        if !is_among(params, letter) {
            names.push(*letter)?;
        }
    }
    Ok(())
}

fn is_among<'a>(names: &[&'a str], name: &str) -> bool
    ensures { result ≡ list_any (bytes_eq name.now) (texts names.now) }
{
    for one in names {
        if name == *one {
            return true;
        }
    }
    false
}

/// The first of the names, as many as told.
pub fn front<'a, 'b>(names: &'b [&'a str], count: usize) -> &'b [&'a str]
    ensures { texts result.now ≡ take count (texts names.now) }
{
    &names[..count.min(names.len())]
}

/// The names behind these.
pub fn behind<'a, 'b>(names: &'b [&'a str], count: usize) -> &'b [&'a str]
    ensures { texts result.now ≡ drop count (texts names.now) }
{
    &names[count.min(names.len())..]
}
