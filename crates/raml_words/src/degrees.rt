// What the words behind a command with a degree and no rule give it: sorted and tested here, and then
// read by `clap`.
ghost use Rattle.std.specs.Prelude.{◌≡◌, map, string_bytes};
ghost use Rattle.raml_words.specs.Words.{texts};
ghost use Rattle.raml_words.specs.Sorting.{given_of, one_of, two_of, degree_in, given_degree};
ghost use Rattle.raml_words.specs.Apps.{file_degree_app, files_degree_app};
ghost use Rattle.raml_words.specs.Clapped.{one_text, two_texts, files_texts_of};
ghost use Rattle.raml_words.specs.Made.{degree_words, degree_made, degree_read};
ghost use Rattle.raml_words.specs.Asked.{Tells, file_degree_of, files_degree_of};

use crate::clapped::{FilesTexts, file_degree_matches, files_degree_matches};
use crate::limits::MOST_DEGREE;
use crate::made::Files;
use crate::number::{given_number, number_in};
use crate::options::{once, value_of};
use crate::ordered::ordered_degree;
use crate::request::WordsFault;
use crate::sorting::Given;
use std::alloc::Global;

/// A file and a degree.
#[derive(Drop)]
pub struct FileDegree {
    pub file: String,
    pub degree: u8,
}

/// Two files and a degree.
#[derive(Drop)]
pub struct FilesDegree {
    pub files: Files,
    pub degree: u8,
}

/// The operand and the degree behind a command.
pub fn read_file_degree(
    alloc: Global,
    command: &str,
    rest: &[&str],
) -> Result<FileDegree, WordsFault>
    ensures { Tells file_degree_of result (given_degree one_of (texts rest.now)) }
{
    let given = Given::of(alloc, rest, &["degree"])?;
    file_degree_given(alloc, command, &given)
}

fn file_degree_given(alloc: Global, command: &str, given: &Given) -> Result<FileDegree, WordsFault>
    ensures { Tells file_degree_of result (degree_in one_of (given_of given.now)) }
{
    match degree_words(alloc, command, given) {
        Ok(words) => file_degree_read(alloc, &words),
        Err(fault) => Err(fault),
    }
}

fn file_degree_read(alloc: Global, words: &[String]) -> Result<FileDegree, WordsFault>
    ensures { Tells file_degree_of result (degree_read file_degree_app one_text (map string_bytes words.now)) }
{
    match file_degree_matches(alloc, words) {
        Ok((file, degree)) => make_file_degree(alloc, file, degree),
        Err(fault) => Err(fault),
    }
}

fn make_file_degree(alloc: Global, file: &str, degree: &str) -> Result<FileDegree, WordsFault>
    ensures { Tells file_degree_of result (degree_made (file.now, degree.now)) }
{
    let Some(degree) = number_in(1, MOST_DEGREE, degree) else {
        return Err(WordsFault::Usage);
    };
    Ok(FileDegree {
        file: String::from_str(alloc, file)?,
        degree: degree as u8,
    })
}

/// The two operands and the degree behind a command.
pub fn read_files_degree(
    alloc: Global,
    command: &str,
    rest: &[&str],
) -> Result<FilesDegree, WordsFault>
    ensures { Tells files_degree_of result (given_degree two_of (texts rest.now)) }
{
    let given = Given::of(alloc, rest, &["degree"])?;
    files_degree_given(alloc, command, &given)
}

fn files_degree_given(
    alloc: Global,
    command: &str,
    given: &Given,
) -> Result<FilesDegree, WordsFault>
    ensures { Tells files_degree_of result (degree_in two_of (given_of given.now)) }
{
    match degree_words(alloc, command, given) {
        Ok(words) => files_degree_read(alloc, &words),
        Err(fault) => Err(fault),
    }
}

fn files_degree_read(alloc: Global, words: &[String]) -> Result<FilesDegree, WordsFault>
    ensures { Tells files_degree_of result (degree_read files_degree_app two_texts (map string_bytes words.now)) }
{
    match files_degree_matches(alloc, words) {
        Ok(texts) => make_files_degree(alloc, texts),
        Err(fault) => Err(fault),
    }
}

fn make_files_degree(alloc: Global, texts: FilesTexts) -> Result<FilesDegree, WordsFault>
    ensures { Tells files_degree_of result (degree_made (files_texts_of texts.entry)) }
{
    let Some(degree) = number_in(1, MOST_DEGREE, texts.degree) else {
        return Err(WordsFault::Usage);
    };
    Ok(FilesDegree {
        files: Files {
            file: String::from_str(alloc, texts.file)?,
            other: String::from_str(alloc, texts.other)?,
        },
        degree: degree as u8,
    })
}

// By hand: each option once, and its value one to ten digits, since `clap` takes `+1` and any number of
// zeros in front. That the degree is there, and in its range, is for `clap` to say.
fn degree_words(alloc: Global, command: &str, given: &Given) -> Result<Vec<String>, WordsFault>
    ensures { Tells (λ words. map string_bytes words.items) result (degree_words command.now (given_of given.now)) }
{
    let values = given.values.as_slice();
    let degree = value_of("degree", values);
    if once(values) && given_number(degree) {
        Ok(ordered_degree(alloc, command, degree, given.operands.as_slice())?)
    } else {
        Err(WordsFault::Usage)
    }
}
