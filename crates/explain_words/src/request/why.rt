// What `why` asks for.
ghost use Rattle.std.specs.Prelude.{◌≡◌, IfOk, IfErr, option_map};
ghost use Rattle.clap.specs.Walk.{rows_of};
ghost use Rattle.clap.specs.Matches.{found_of};
ghost use Rattle.explain_words.specs.Spelled.{lent, meter_named};
ghost use Rattle.explain_words.specs.Commands.{AreWhy, MeansWhy, Tells, optional, plain_written, right, written_of};
ghost use Rattle.explain_words.specs.Asking.{RefusesAll};

use super::{Request, WordsFault, degree_or_4};
use crate::given::{is_set, text_of};
use crate::mistake::Mistake;
use crate::within::Meter;
use clap::ArgMatches;
use std::alloc::Global;

/// What `why` is asked to tell.
#[derive(Clone, Copy, Debug)]
pub struct WhyWords<'a> {
    /// The source of a program.
    pub file: &'a str,
    /// The greatest degree to try, 1 to 4.
    pub degree: u8,
    /// The one function that is asked about, or each.
    pub function: Option<&'a str>,
    /// The one meter that is asked about, or each.
    pub meter: Option<Meter>,
    /// The file that the changed source is left as.
    pub written: Option<Written<'a>>,
}

/// A file that is to be written.
#[derive(Clone, Copy, Debug)]
pub struct Written<'a> {
    pub name: &'a str,
    /// One that is there is written over.
    pub force: bool,
}

/// What `why` asks for with what is found for its arguments.
pub fn asked<'a>(alloc: Global, found: &ArgMatches<'a>) -> Result<Request<'a>, WordsFault>
    ensures ok { IfOk result (MeansWhy (rows_of (found_of found.now))) }
    ensures err { IfErr result (RefusesAll (MeansWhy (rows_of (found_of found.now)))) }
{
    match words_of(found) {
        Ok(words) => Ok(Request::Why(words)),
        Err(mistake) => Err(mistake.told(alloc)),
    }
}

fn words_of<'a>(found: &ArgMatches<'a>) -> Result<WhyWords<'a>, Mistake>
    ensures { Tells (AreWhy (rows_of (found_of found.now))) result }
{
    let file = text_of(found, "file").ok_or(Mistake::NoFile)?;
    let degree = degree_or_4(text_of(found, "degree"))?;
    let meter = meter(text_of(found, "meter"))?;
    let written = written_by(text_of(found, "write"), is_set(found, "force"))?;
    Ok(WhyWords {
        file,
        degree,
        function: text_of(found, "function"),
        meter,
        written,
    })
}

// The meter, where it is given.
fn meter(word: Option<&str>) -> Result<Option<Meter>, Mistake>
    ensures { right result ≡ optional meter_named (lent word.entry) }
{
    match word {
        Some(word) => match Meter::named(word) {
            Some(meter) => Ok(Some(meter)),
            None => Err(Mistake::Meter),
        },
        None => Ok(None),
    }
}

// The file that is to be written, where it is given.
fn written_by<'a>(name: Option<&'a str>, force: bool) -> Result<Option<Written<'a>>, Mistake>
    ensures { option_map (option_map plain_written) (right result) ≡ written_of (lent name.entry) force }
{
    match name {
        Some(name) => Ok(Some(Written { name, force })),
        None if force => Err(Mistake::Unwritten),
        None => Ok(None),
    }
}
