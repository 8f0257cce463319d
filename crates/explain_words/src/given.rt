// What is given for arguments.
ghost use Rattle.std.specs.Prelude.{◌≡◌, IfOk};
ghost use Rattle.clap.specs.Walk.{first_of, rows_of};
ghost use Rattle.clap.specs.Matches.{found_of};
ghost use Rattle.explain_words.specs.Commands.{texts, values, is_set};
ghost use Rattle.explain_words.specs.Spelled.{lent};

use clap::ArgMatches;
use std::alloc::{AllocError, Global};

/// The values of an argument, in order.
pub fn texts_of<'a>(
    alloc: Global,
    matches: &ArgMatches<'a>,
    id: &str,
) -> Result<Vec<&'a str>, AllocError>
    ensures { IfOk result (λ found. values id.now (rows_of (found_of matches.now)) ≡ texts found.items) }
{
    match matches.get_strs(id) {
        Some(texts) => Vec::from_slice(alloc, texts),
        None => Ok(Vec::new(alloc)),
    }
}

/// The value of an argument, where it is given.
pub fn text_of<'a>(matches: &ArgMatches<'a>, id: &str) -> Option<&'a str>
    ensures { first_of id.now (rows_of (found_of matches.now)) ≡ lent result }
{
    matches.get_str(id)
}

/// Whether a flag stands among the words.
pub fn is_set(matches: &ArgMatches, id: &str) -> bool
    ensures { is_set id.now (rows_of (found_of matches.now)) ≡ result }
{
    match text_of(matches, id) {
        Some(text) => text == "true",
        None => false,
    }
}
