// What `verify` asks for.
ghost use Rattle.std.specs.Prelude.{IfOk, IfErr};
ghost use Rattle.clap.specs.Walk.{rows_of};
ghost use Rattle.clap.specs.Matches.{found_of};
ghost use Rattle.explain_words.specs.Commands.{MeansVerify, Tells};
ghost use Rattle.explain_words.specs.Asking.{RefusesAll};

use super::{Request, WordsFault};
use crate::given::text_of;
use crate::mistake::Mistake;
use clap::ArgMatches;
use std::alloc::Global;

/// What `verify` asks for with what is found for its arguments.
pub fn asked<'a>(alloc: Global, found: &ArgMatches<'a>) -> Result<Request<'a>, WordsFault>
    ensures ok { IfOk result (MeansVerify (rows_of (found_of found.now))) }
    ensures err { IfErr result (RefusesAll (MeansVerify (rows_of (found_of found.now)))) }
{
    match files_of(found) {
        Ok(request) => Ok(request),
        Err(mistake) => Err(mistake.told(alloc)),
    }
}

// The source and the certificate.
fn files_of<'a>(found: &ArgMatches<'a>) -> Result<Request<'a>, Mistake>
    ensures { Tells (MeansVerify (rows_of (found_of found.now))) result }
{
    let file = text_of(found, "file").ok_or(Mistake::NoFile)?;
    let certificate = text_of(found, "certificate").ok_or(Mistake::NoCertificate)?;
    Ok(Request::Verify { file, certificate })
}
