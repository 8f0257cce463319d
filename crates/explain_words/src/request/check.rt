// What `check` asks for.
ghost use Rattle.std.specs.Prelude.{◌≡◌, ◌∷◌, [], codes, IfOk, IfErr};
ghost use Rattle.clap.specs.Walk.{rows_of};
ghost use Rattle.clap.specs.Matches.{found_of};
ghost use Rattle.explain_words.specs.Commands.{texts, values, MeansCheck};
ghost use Rattle.explain_words.specs.Asking.{RefusesAll};

use super::{Request, WordsFault};
use crate::given::texts_of;
use crate::mistake::Mistake;
use clap::ArgMatches;
use std::alloc::Global;

/// What `check` asks for with what is found for its arguments.
pub fn asked<'a>(alloc: Global, found: &ArgMatches<'a>) -> Result<Request<'a>, WordsFault>
    ensures ok { IfOk result (MeansCheck (values (codes "file") (rows_of (found_of found.now))) (values (codes "data") (rows_of (found_of found.now)))) }
    ensures err { IfErr result (RefusesAll (MeansCheck (values (codes "file") (rows_of (found_of found.now))) (values (codes "data") (rows_of (found_of found.now))))) }
{
    let files = texts_of(alloc, found, "file")?;
    let behind = texts_of(alloc, found, "data")?;
    of_files(alloc, files, &behind)
}

// With these files, and with these words behind `--data`.
fn of_files<'a>(
    alloc: Global,
    files: Vec<&'a str>,
    behind: &[&'a str],
) -> Result<Request<'a>, WordsFault>
    ensures ok { IfOk result (MeansCheck (texts files.entry.items) (texts behind.now)) }
    ensures err { IfErr result (RefusesAll (MeansCheck (texts files.entry.items) (texts behind.now))) }
{
    match behind {
        [] => Ok(Request::Check { files }),
        [name, input] => of_data(alloc, &files, *name, *input),
        _ => Err(Mistake::Data.told(alloc)),
    }
}

// With these files, and with a name and a file of data.
fn of_data<'a>(
    alloc: Global,
    files: &[&'a str],
    name: &'a str,
    input: &'a str,
) -> Result<Request<'a>, WordsFault>
    ensures ok { IfOk result (MeansCheck (texts files.now) (name.entry.now ∷ input.entry.now ∷ [])) }
    ensures err { IfErr result (RefusesAll (MeansCheck (texts files.now) (name.entry.now ∷ input.entry.now ∷ []))) }
{
    match files {
        [file] => Ok(Request::CheckData {
            file: *file,
            name,
            input,
        }),
        _ => Err(Mistake::Data.told(alloc)),
    }
}
