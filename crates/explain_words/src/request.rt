// What a call may ask for.
ghost use Rattle.std.specs.Prelude.{◌≡◌, IfOk, IfErr};
ghost use Rattle.clap.specs.Values.{kind_of};
ghost use Rattle.clap.specs.Walk.{rows_of};
ghost use Rattle.clap.specs.Matches.{found_of};
ghost use Rattle.clap.specs.Simple.{subcommand_rows_of};
ghost use Rattle.explain_words.specs.Spelled.{lent};
ghost use Rattle.explain_words.specs.Commands.{degree_or_4, right, texts};
ghost use Rattle.explain_words.specs.Asking.{command_named, MeansBy, Means, Asks, GivesNone, IsTold, RefusesAll};

pub mod bounds;
mod budget;
mod check;
pub mod lsp;
pub mod plot;
pub mod profile;
mod verify;
pub mod why;

use crate::mistake::Mistake;
use crate::number::degree_in;
use bounds::BoundsWords;
use clap::error::ErrorKind;
use clap::{ArgMatches, Error};
use explain_commands::program;
use lsp::LspWords;
use plot::PlotWords;
use profile::ProfileWords;
use std::alloc::{AllocError, Global};
use why::WhyWords;

/// What a call is asked to do.
#[derive(Debug, Drop)]
pub enum Request<'a> {
    /// Say what is wrong with the sources in these files.
    Check {
        files: Vec<&'a str>,
    },
    /// Say what is wrong with the data of the file `input`, as arguments of the function of this name in `file`.
    CheckData {
        file: &'a str,
        name: &'a str,
        input: &'a str,
    },
    /// Say what bounds the functions of a program have.
    Bounds(BoundsWords<'a>),
    /// Say which of the bounds that the file `bounds` declares of the program in `file` are kept.
    Budget {
        file: &'a str,
        bounds: &'a str,
        degree: Option<u8>,
        json: bool,
    },
    /// Write the bounds of the program in `file` to the file `bounds`, over one that is there only where `force` is set.
    WriteBudget {
        file: &'a str,
        bounds: &'a str,
        degree: Option<u8>,
        force: bool,
    },
    /// Say whether the certificate in a file holds of the program in `file`.
    Verify {
        file: &'a str,
        certificate: &'a str,
    },
    /// Say why functions of a program have no bound.
    Why(WhyWords<'a>),
    /// Draw what runs of a function cost, and the bound above them.
    Plot(PlotWords<'a>),
    /// Say how often lines of a program are run at most by a call of a function.
    Profile(ProfileWords<'a>),
    /// Serve an editor.
    Lsp(LspWords<'a>),
}

/// Why words give no request.
#[derive(Debug, Drop)]
pub enum WordsFault {
    /// They ask for help, or for the version: this text.
    Shown { text: String },
    /// They ask for nothing that there is, as this text says.
    Refused { text: String },
    NoMemory,
}

impl From<AllocError> for WordsFault {
    ghost use Rattle.std.specs.Prelude.{◌≡◌};
    ghost use Rattle.explain_words.specs.declared.request.WordsFault.TheVariants.{NoMemory};

    ghost from_gives = { λ _ e. e ≡ NoMemory };

    fn from(_: AllocError) -> Self {
        WordsFault::NoMemory
    }
}

/// What the words ask for. They are those of the command line, without the program's name.
pub fn read_words<'a>(alloc: Global, words: &'a [&'a str]) -> Result<Request<'a>, WordsFault>
    ensures ok { IfOk result (Asks (texts words.now)) }
    ensures err { IfErr result (GivesNone (texts words.now)) }
{
    let command = program(alloc)?;
    match command.try_get_matches_from(words) {
        Ok(matches) => asked_by(alloc, &matches),
        Err(error) => Err(fault_of(alloc, &error)),
    }
}

// Why words are refused, or what is to be shown for them.
fn fault_of(alloc: Global, error: &Error) -> WordsFault
    ensures { IsTold (kind_of error.now) result }
{
    let text = match format!(in alloc; "{error}") {
        Ok(text) => text,
        Err(_) => return WordsFault::NoMemory,
    };
    match error.kind() {
        ErrorKind::OutOfMemory => WordsFault::NoMemory,
        ErrorKind::DisplayHelp | ErrorKind::DisplayVersion => WordsFault::Shown { text },
        _ => WordsFault::Refused { text },
    }
}

// The command that was met. There is one, since the program requires it.
fn asked_by<'a>(alloc: Global, matches: &ArgMatches<'a>) -> Result<Request<'a>, WordsFault>
    ensures ok { IfOk result (Means (subcommand_rows_of matches.now)) }
    ensures err { IfErr result (RefusesAll (Means (subcommand_rows_of matches.now))) }
{
    match matches.subcommand() {
        Some((name, found)) => asked_of(alloc, name, found),
        None => Err(Mistake::NoCommand.told(alloc)),
    }
}

// What the command of this name asks for.
fn asked_of<'a>(
    alloc: Global,
    name: &str,
    found: &ArgMatches<'a>,
) -> Result<Request<'a>, WordsFault>
    ensures ok { IfOk result (MeansBy (command_named name.now) (rows_of (found_of found.now))) }
    ensures err { IfErr result (RefusesAll (MeansBy (command_named name.now) (rows_of (found_of found.now)))) }
{
    match name {
        "check" => check::asked(alloc, found),
        "bounds" => bounds::asked(alloc, found),
        "budget" => budget::asked(alloc, found),
        "verify" => verify::asked(alloc, found),
        "why" => why::asked(alloc, found),
        "plot" => plot::asked(alloc, found),
        "profile" => profile::asked(alloc, found),
        "lsp" => lsp::asked(alloc, found),
        _ => Err(Mistake::NoCommand.told(alloc)),
    }
}

// The degree that is given, or 4.
fn degree_or_4(word: Option<&str>) -> Result<u8, Mistake>
    ensures { right result ≡ degree_or_4 (lent word.entry) }
{
    match word {
        Some(word) => degree_in(word).ok_or(Mistake::Degree),
        None => Ok(4),
    }
}
