// What `clap` finds in ordered words.
ghost use Rattle.std.specs.Prelude.{◌≡◌, true, map, option_map, string_bytes};
ghost use Rattle.clap.specs.Values.{kind_of};
ghost use Rattle.clap.specs.Matches.{found_of};
ghost use Rattle.clap.specs.Simple.{app_of};
ghost use Rattle.clap.specs.Faults.{is_simple_and_free};
ghost use Rattle.raml_words.specs.Sorting.{lent, lent_parts};
ghost use Rattle.raml_words.specs.Apps.{one_app, two_app, count_app, bounds_app, run_app, file_degree_app, files_degree_app, spend_app};
ghost use Rattle.raml_words.specs.Clapped.{now_of, taken_as, one_text, two_texts, count_text, bounds_texts, run_texts, values_in, pair_of};
ghost use Rattle.raml_words.specs.Clapped.{bounds_texts_of, run_texts_of, degree_texts, files_texts_of, spend_texts, spend_texts_of, Finds};
ghost use Rattle.raml_words.specs.Clapped.{Refuses};
ghost use Rattle.raml_words.specs.Asked.{Tells};

use crate::commands::{
    bounds_command, count_command, file_degree_command, files_degree_command, one_command,
    run_command, spend_command, two_command,
};
use crate::request::WordsFault;
use clap::error::ErrorKind;
use clap::{ArgMatches, Command, Error};
use std::alloc::Global;

fn fault_of(error: &Error) -> WordsFault
    ensures { Refuses (kind_of error.now) result }
{
    if error.kind() == ErrorKind::OutOfMemory {
        WordsFault::NoMemory
    } else {
        WordsFault::Usage
    }
}

/// What a command finds in words.
fn matches_of<'a>(command: Command<'a>, words: &'a [String]) -> Result<ArgMatches<'a>, WordsFault>
    ensures { is_simple_and_free (app_of command.entry) ≡ true → Finds (app_of command.entry) (map string_bytes words.now) result }
{
    match command.try_get_matches_from(words) {
        Ok(matches) => Ok(matches),
        Err(error) => Err(fault_of(&error)),
    }
}

/// The one operand of ordered words.
pub fn one_matches<'a>(alloc: Global, words: &'a [String]) -> Result<&'a str, WordsFault>
    ensures { Tells now_of result (taken_as one_app one_text (map string_bytes words.now)) }
{
    let matches = matches_of(one_command(alloc)?, words)?;
    one_text(&matches).ok_or(WordsFault::Usage)
}

fn one_text<'a>(matches: &ArgMatches<'a>) -> Option<&'a str>
    ensures { lent result ≡ one_text (values_in (found_of matches.now)) }
{
    matches.get_str("file")
}

/// The two operands of ordered words.
pub fn two_matches<'a>(alloc: Global, words: &'a [String]) -> Result<(&'a str, &'a str), WordsFault>
    ensures { Tells pair_of result (taken_as two_app two_texts (map string_bytes words.now)) }
{
    let matches = matches_of(two_command(alloc)?, words)?;
    two_texts(&matches).ok_or(WordsFault::Usage)
}

fn two_texts<'a>(matches: &ArgMatches<'a>) -> Option<(&'a str, &'a str)>
    ensures { option_map pair_of result ≡ two_texts (values_in (found_of matches.now)) }
{
    let file = matches.get_str("file")?;
    let other = matches.get_str("other")?;
    Some((file, other))
}

/// The number of ordered words.
pub fn count_matches<'a>(alloc: Global, words: &'a [String]) -> Result<&'a str, WordsFault>
    ensures { Tells now_of result (taken_as count_app count_text (map string_bytes words.now)) }
{
    let matches = matches_of(count_command(alloc)?, words)?;
    count_text(&matches).ok_or(WordsFault::Usage)
}

fn count_text<'a>(matches: &ArgMatches<'a>) -> Option<&'a str>
    ensures { lent result ≡ count_text (values_in (found_of matches.now)) }
{
    matches.get_str("count")
}

/// The texts of a command with a degree and a rule.
#[derive(Clone, Copy)]
pub struct BoundsTexts<'a> {
    pub file: &'a str,
    pub degree: &'a str,
    pub pivot: Option<&'a str>,
}

/// What ordered words give a command with a degree and a rule.
pub fn bounds_matches<'a>(alloc: Global, words: &'a [String]) -> Result<BoundsTexts<'a>, WordsFault>
    ensures { Tells bounds_texts_of result (taken_as bounds_app bounds_texts (map string_bytes words.now)) }
{
    let matches = matches_of(bounds_command(alloc)?, words)?;
    bounds_texts(&matches).ok_or(WordsFault::Usage)
}

fn bounds_texts<'a>(matches: &ArgMatches<'a>) -> Option<BoundsTexts<'a>>
    ensures { option_map bounds_texts_of result ≡ bounds_texts (values_in (found_of matches.now)) }
{
    let file = matches.get_str("file")?;
    let degree = matches.get_str("degree")?;
    Some(BoundsTexts {
        file,
        degree,
        pivot: matches.get_str("pivot"),
    })
}

/// The texts of `run`.
#[derive(Clone, Copy)]
pub struct RunTexts<'a> {
    pub file: &'a str,
    pub name: &'a str,
    pub input: &'a str,
    pub steps: Option<&'a str>,
    pub cells: Option<&'a str>,
    pub degree: Option<&'a str>,
}

/// What ordered words give `run`.
pub fn run_matches<'a>(alloc: Global, words: &'a [String]) -> Result<RunTexts<'a>, WordsFault>
    ensures { Tells run_texts_of result (taken_as run_app run_texts (map string_bytes words.now)) }
{
    let matches = matches_of(run_command(alloc)?, words)?;
    run_texts(&matches).ok_or(WordsFault::Usage)
}

fn run_texts<'a>(matches: &ArgMatches<'a>) -> Option<RunTexts<'a>>
    ensures { option_map run_texts_of result ≡ run_texts (values_in (found_of matches.now)) }
{
    let file = matches.get_str("file")?;
    let name = matches.get_str("name")?;
    let input = matches.get_str("input")?;
    Some(RunTexts {
        file,
        name,
        input,
        steps: matches.get_str("steps"),
        cells: matches.get_str("cells"),
        degree: matches.get_str("degree"),
    })
}

/// The operand and the degree of ordered words.
pub fn file_degree_matches<'a>(
    alloc: Global,
    words: &'a [String],
) -> Result<(&'a str, &'a str), WordsFault>
    ensures { Tells pair_of result (taken_as file_degree_app (degree_texts one_text) (map string_bytes words.now)) }
{
    let matches = matches_of(file_degree_command(alloc)?, words)?;
    file_degree_texts(&matches).ok_or(WordsFault::Usage)
}

fn file_degree_texts<'a>(matches: &ArgMatches<'a>) -> Option<(&'a str, &'a str)>
    ensures { option_map pair_of result ≡ degree_texts one_text (values_in (found_of matches.now)) }
{
    let file = matches.get_str("file")?;
    let degree = matches.get_str("degree")?;
    Some((file, degree))
}

/// The texts of a command with two operands and a degree.
#[derive(Clone, Copy)]
pub struct FilesTexts<'a> {
    pub file: &'a str,
    pub other: &'a str,
    pub degree: &'a str,
}

/// The two operands and the degree of ordered words.
pub fn files_degree_matches<'a>(
    alloc: Global,
    words: &'a [String],
) -> Result<FilesTexts<'a>, WordsFault>
    ensures { Tells files_texts_of result (taken_as files_degree_app (degree_texts two_texts) (map string_bytes words.now)) }
{
    let matches = matches_of(files_degree_command(alloc)?, words)?;
    files_degree_texts(&matches).ok_or(WordsFault::Usage)
}

fn files_degree_texts<'a>(matches: &ArgMatches<'a>) -> Option<FilesTexts<'a>>
    ensures { option_map files_texts_of result ≡ degree_texts two_texts (values_in (found_of matches.now)) }
{
    let file = matches.get_str("file")?;
    let other = matches.get_str("other")?;
    let degree = matches.get_str("degree")?;
    Some(FilesTexts {
        file,
        other,
        degree,
    })
}

/// The texts of `spend`.
#[derive(Clone, Copy)]
pub struct SpendTexts<'a> {
    pub file: &'a str,
    pub prices: &'a str,
    pub name: &'a str,
    pub input: &'a str,
    pub steps: Option<&'a str>,
    pub cells: Option<&'a str>,
}

/// What ordered words give `spend`.
pub fn spend_matches<'a>(alloc: Global, words: &'a [String]) -> Result<SpendTexts<'a>, WordsFault>
    ensures { Tells spend_texts_of result (taken_as spend_app spend_texts (map string_bytes words.now)) }
{
    let matches = matches_of(spend_command(alloc)?, words)?;
    spend_texts(&matches).ok_or(WordsFault::Usage)
}

fn spend_texts<'a>(matches: &ArgMatches<'a>) -> Option<SpendTexts<'a>>
    ensures { option_map spend_texts_of result ≡ spend_texts (values_in (found_of matches.now)) }
{
    let file = matches.get_str("file")?;
    let prices = matches.get_str("prices")?;
    let name = matches.get_str("name")?;
    let input = matches.get_str("input")?;
    Some(SpendTexts {
        file,
        prices,
        name,
        input,
        steps: matches.get_str("steps"),
        cells: matches.get_str("cells"),
    })
}
