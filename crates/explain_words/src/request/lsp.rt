// What `lsp` asks for.
ghost use Rattle.std.specs.Prelude.{◌≡◌, IfOk, IfErr};
ghost use Rattle.clap.specs.Walk.{rows_of};
ghost use Rattle.clap.specs.Matches.{found_of};
ghost use Rattle.explain_words.specs.Spelled.{lent};
ghost use Rattle.explain_words.specs.Commands.{AreLsp, MeansLsp, Tells, pivots_or_many, right};
ghost use Rattle.explain_words.specs.Asking.{RefusesAll};

use super::{Request, WordsFault, degree_or_4};
use crate::given::text_of;
use crate::mistake::Mistake;
use crate::number::pivots_in;
use clap::ArgMatches;
use std::alloc::Global;

/// What an editor is served with.
#[derive(Clone, Copy, Debug)]
pub struct LspWords<'a> {
    /// The greatest degree to try, 1 to 4.
    pub degree: u8,
    /// The analysis of a degree that takes more pivots is given up.
    pub pivots: usize,
    /// The file that is left with what the editor sent.
    pub log: Option<&'a str>,
}

/// What `lsp` asks for with what is found for its arguments.
pub fn asked<'a>(alloc: Global, found: &ArgMatches<'a>) -> Result<Request<'a>, WordsFault>
    ensures ok { IfOk result (MeansLsp (rows_of (found_of found.now))) }
    ensures err { IfErr result (RefusesAll (MeansLsp (rows_of (found_of found.now)))) }
{
    match words_of(found) {
        Ok(words) => Ok(Request::Lsp(words)),
        Err(mistake) => Err(mistake.told(alloc)),
    }
}

fn words_of<'a>(found: &ArgMatches<'a>) -> Result<LspWords<'a>, Mistake>
    ensures { Tells (AreLsp (rows_of (found_of found.now))) result }
{
    let degree = degree_or_4(text_of(found, "degree"))?;
    let pivots = pivots_or_many(text_of(found, "budget"))?;
    Ok(LspWords {
        degree,
        pivots,
        log: text_of(found, "log"),
    })
}

// How many pivots an analysis may take where none are told.
const MANY: usize = 20_000;

// The pivots that are given, or many.
fn pivots_or_many(word: Option<&str>) -> Result<usize, Mistake>
    ensures { right result ≡ pivots_or_many (lent word.entry) }
{
    match word {
        Some(word) => pivots_in(word).ok_or(Mistake::Pivots),
        None => Ok(MANY),
    }
}
