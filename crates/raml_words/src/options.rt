// Options of a command.
ghost use Rattle.std.specs.Prelude.{◌≡◌};
ghost use Rattle.raml_words.specs.Sorting.{lent, pairs, is_named, once, value_of, has_none};

/// Whether there is no option.
pub fn has_none(values: &[(&str, &str)]) -> bool
    ensures { result ≡ has_none (pairs values.now) }
{
    match values {
        [] => true,
        _ => false,
    }
}

/// Whether no option stands twice.
pub fn once(values: &[(&str, &str)]) -> bool
    ensures { result ≡ once (pairs values.now) }
{
    match values {
        [] => true,
        [(name, _), rest @ ..] => !is_named(*name, rest) && once(rest),
    }
}

// Whether one of the options has the name.
fn is_named(name: &str, values: &[(&str, &str)]) -> bool
    ensures { result ≡ is_named name.now (pairs values.now) }
{
    for (other, _) in values {
        if *other == name {
            return true;
        }
    }
    false
}

/// The first value of that name.
pub fn value_of<'a>(name: &str, values: &[(&str, &'a str)]) -> Option<&'a str>
    ensures { lent result ≡ value_of name.now (pairs values.now) }
{
    for (other, value) in values {
        if *other == name {
            return Some(*value);
        }
    }
    None
}
