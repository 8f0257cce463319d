// What `profile` asks for.
ghost use Rattle.std.specs.Prelude.{◌≡◌, IfOk, IfErr};
ghost use Rattle.clap.specs.Walk.{rows_of};
ghost use Rattle.clap.specs.Matches.{found_of};
ghost use Rattle.explain_words.specs.Commands.{AreProfile, MeansProfile, Tells};
ghost use Rattle.explain_words.specs.Asking.{RefusesAll};

use super::{Request, WordsFault, degree_or_4};
use crate::given::text_of;
use crate::mistake::Mistake;
use clap::ArgMatches;
use std::alloc::Global;

/// What `profile` is asked to tell.
#[derive(Clone, Copy, Debug)]
pub struct ProfileWords<'a> {
    /// The source of a program.
    pub file: &'a str,
    /// The function whose calls are profiled.
    pub function: &'a str,
    /// The greatest degree to try, 1 to 4.
    pub degree: u8,
    /// The sizes at which counts are told, as they stand behind `--at`.
    pub at: Option<&'a str>,
}

/// What `profile` asks for with what is found for its arguments.
pub fn asked<'a>(alloc: Global, found: &ArgMatches<'a>) -> Result<Request<'a>, WordsFault>
    ensures ok { IfOk result (MeansProfile (rows_of (found_of found.now))) }
    ensures err { IfErr result (RefusesAll (MeansProfile (rows_of (found_of found.now)))) }
{
    match words_of(found) {
        Ok(words) => Ok(Request::Profile(words)),
        Err(mistake) => Err(mistake.told(alloc)),
    }
}

fn words_of<'a>(found: &ArgMatches<'a>) -> Result<ProfileWords<'a>, Mistake>
    ensures { Tells (AreProfile (rows_of (found_of found.now))) result }
{
    let file = text_of(found, "file").ok_or(Mistake::NoFile)?;
    let function = text_of(found, "function").ok_or(Mistake::NoFunction)?;
    let degree = degree_or_4(text_of(found, "degree"))?;
    Ok(ProfileWords {
        file,
        function,
        degree,
        at: text_of(found, "at"),
    })
}
