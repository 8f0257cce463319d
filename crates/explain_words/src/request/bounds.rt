// What `bounds` asks for.
ghost use Rattle.std.specs.Prelude.{◌≡◌, IfOk, IfErr};
ghost use Rattle.clap.specs.Walk.{rows_of};
ghost use Rattle.clap.specs.Matches.{found_of};
ghost use Rattle.explain_words.specs.Spelled.{lent, width_in, within_in};
ghost use Rattle.explain_words.specs.Commands.{AreBounds, MeansBounds, Tells, optional, right};
ghost use Rattle.explain_words.specs.Asking.{RefusesAll};

use super::{Request, WordsFault, degree_or_4};
use crate::given::{is_set, text_of};
use crate::mistake::Mistake;
use crate::number::number_in;
use crate::within::Within;
use clap::ArgMatches;
use std::alloc::Global;

/// What `bounds` is asked to tell.
#[derive(Clone, Copy, Debug)]
pub struct BoundsWords<'a> {
    /// The source of a program.
    pub file: &'a str,
    /// The greatest degree to try, 1 to 4.
    pub degree: u8,
    /// The one function whose bounds are asked for, or each.
    pub function: Option<&'a str>,
    /// The sizes at which bounds are told, as they stand behind `--at`.
    pub at: Option<&'a str>,
    /// How much may be spent, where the greatest size is asked for at which no more is.
    pub within: Option<Within>,
    /// The width of lines, 20 to 99999.
    pub width: Option<u32>,
    /// Objects of JSON are printed.
    pub json: bool,
}

/// What `bounds` asks for with what is found for its arguments.
pub fn asked<'a>(alloc: Global, found: &ArgMatches<'a>) -> Result<Request<'a>, WordsFault>
    ensures ok { IfOk result (MeansBounds (rows_of (found_of found.now))) }
    ensures err { IfErr result (RefusesAll (MeansBounds (rows_of (found_of found.now)))) }
{
    match words_of(found) {
        Ok(words) => Ok(Request::Bounds(words)),
        Err(mistake) => Err(mistake.told(alloc)),
    }
}

fn words_of<'a>(found: &ArgMatches<'a>) -> Result<BoundsWords<'a>, Mistake>
    ensures { Tells (AreBounds (rows_of (found_of found.now))) result }
{
    let file = text_of(found, "file").ok_or(Mistake::NoFile)?;
    let degree = degree_or_4(text_of(found, "degree"))?;
    let within = within(text_of(found, "within"))?;
    let width = width(text_of(found, "width"))?;
    Ok(BoundsWords {
        file,
        degree,
        function: text_of(found, "function"),
        at: text_of(found, "at"),
        within,
        width,
        json: is_set(found, "json"),
    })
}

// How much may be spent, where it is given.
fn within(word: Option<&str>) -> Result<Option<Within>, Mistake>
    ensures { right result ≡ optional within_in (lent word.entry) }
{
    match word {
        Some(word) => match Within::of(word) {
            Some(within) => Ok(Some(within)),
            None => Err(Mistake::Within),
        },
        None => Ok(None),
    }
}

// The width of lines, where it is given.
fn width(word: Option<&str>) -> Result<Option<u32>, Mistake>
    ensures { right result ≡ optional width_in (lent word.entry) }
{
    match word {
        Some(word) => match number_in(5, 20, 99999, word) {
            Some(width) => Ok(Some(width as u32)),
            None => Err(Mistake::Width),
        },
        None => Ok(None),
    }
}
