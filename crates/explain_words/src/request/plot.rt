// What `plot` asks for.
ghost use Rattle.std.specs.Prelude.{◌≡◌, codes, option_map, IfOk, IfErr};
ghost use Rattle.clap.specs.Walk.{rows_of};
ghost use Rattle.clap.specs.Matches.{found_of};
ghost use Rattle.explain_words.specs.Spelled.{lent};
ghost use Rattle.explain_words.specs.Commands.{ArePlot, MeansPlot, Tells, arguments_of, meter_or_work, plain_arguments, right, seed_or_1, texts, values};
ghost use Rattle.explain_words.specs.Asking.{RefusesAll};

use super::{Request, WordsFault, degree_or_4};
use crate::given::{is_set, text_of, texts_of};
use crate::mistake::Mistake;
use crate::number::seed_in;
use crate::within::Meter;
use clap::ArgMatches;
use std::alloc::Global;

/// The arguments that a function is run on.
#[derive(Debug, Drop)]
pub enum Arguments<'a> {
    /// They are made of these sizes, as they stand behind `--sizes`; random ones from this seed.
    Made { sizes: &'a str, seed: u64 },
    /// They stand in these files, of which there is one at least.
    Given { files: Vec<&'a str> },
}

/// What `plot` is asked to draw.
#[derive(Debug, Drop)]
pub struct PlotWords<'a> {
    /// The source of a program.
    pub file: &'a str,
    /// The function that is run.
    pub name: &'a str,
    /// Its arguments.
    pub arguments: Arguments<'a>,
    /// The parameter whose size is drawn.
    pub parameter: Option<&'a str>,
    /// The greatest degree to try, 1 to 4.
    pub degree: u8,
    /// What is measured.
    pub meter: Meter,
    /// The file that the picture is left as.
    pub output: &'a str,
    /// One that is there is written over.
    pub force: bool,
}

/// What `plot` asks for with what is found for its arguments.
pub fn asked<'a>(alloc: Global, found: &ArgMatches<'a>) -> Result<Request<'a>, WordsFault>
    ensures ok { IfOk result (MeansPlot (rows_of (found_of found.now)) (values (codes "data") (rows_of (found_of found.now)))) }
    ensures err { IfErr result (RefusesAll (MeansPlot (rows_of (found_of found.now)) (values (codes "data") (rows_of (found_of found.now))))) }
{
    let files = texts_of(alloc, found, "data")?;
    of_files(alloc, found, files)
}

// With these files behind `--data`.
fn of_files<'a>(
    alloc: Global,
    found: &ArgMatches<'a>,
    files: Vec<&'a str>,
) -> Result<Request<'a>, WordsFault>
    ensures ok { IfOk result (MeansPlot (rows_of (found_of found.now)) (texts files.entry.items)) }
    ensures err { IfErr result (RefusesAll (MeansPlot (rows_of (found_of found.now)) (texts files.entry.items))) }
{
    match words_of(found, files) {
        Ok(words) => Ok(Request::Plot(words)),
        Err(mistake) => Err(mistake.told(alloc)),
    }
}

fn words_of<'a>(found: &ArgMatches<'a>, files: Vec<&'a str>) -> Result<PlotWords<'a>, Mistake>
    ensures { Tells (ArePlot (rows_of (found_of found.now)) (texts files.entry.items)) result }
{
    let file = text_of(found, "file").ok_or(Mistake::NoFile)?;
    let name = text_of(found, "name").ok_or(Mistake::NoName)?;
    let output = text_of(found, "output").ok_or(Mistake::NoOutput)?;
    let degree = degree_or_4(text_of(found, "degree"))?;
    let meter = meter_or_work(text_of(found, "meter"))?;
    let arguments = arguments_of(text_of(found, "sizes"), text_of(found, "seed"), files)?;
    Ok(PlotWords {
        file,
        name,
        arguments,
        parameter: text_of(found, "of"),
        degree,
        meter,
        output,
        force: is_set(found, "force"),
    })
}

// The arguments that are made, or those of files.
fn arguments_of<'a>(
    sizes: Option<&'a str>,
    seed: Option<&'a str>,
    files: Vec<&'a str>,
) -> Result<Arguments<'a>, Mistake>
    ensures { option_map plain_arguments (right result) ≡ arguments_of (lent sizes.entry) (lent seed.entry) (texts files.entry.items) }
{
    match sizes {
        Some(_) if !files.is_empty() => Err(Mistake::TwoArguments),
        Some(sizes) => Ok(Arguments::Made {
            sizes,
            seed: seed_or_1(seed)?,
        }),
        None if seed.is_some() => Err(Mistake::SeedOfData),
        None if files.is_empty() => Err(Mistake::NoArguments),
        None => Ok(Arguments::Given { files }),
    }
}

// The seed that is given, or 1.
fn seed_or_1(word: Option<&str>) -> Result<u64, Mistake>
    ensures { right result ≡ seed_or_1 (lent word.entry) }
{
    match word {
        Some(word) => seed_in(word).ok_or(Mistake::Seed),
        None => Ok(1),
    }
}

// The meter that is given, or work.
fn meter_or_work(word: Option<&str>) -> Result<Meter, Mistake>
    ensures { right result ≡ meter_or_work (lent word.entry) }
{
    match word {
        Some(word) => Meter::named(word).ok_or(Mistake::Meter),
        None => Ok(Meter::Work),
    }
}
