// What the words behind a command give it: sorted and tested here, and then read by `clap`.
ghost use Rattle.std.specs.Prelude.{◌≡◌, option_and_then, string_bytes};
ghost use Rattle.raml_words.specs.Words.{texts};
ghost use Rattle.raml_words.specs.Sorting.{lent, given_of, number_in, rule_in, rule_named, one_of, two_of, count_of, without_options};
ghost use Rattle.raml_words.specs.Sorting.{bounds_by, bounds_in, given_one, given_two, given_count, given_bounds};
ghost use Rattle.raml_words.specs.Made.{given_rule, bounds_made, bounds_clapped, count_clapped};
ghost use Rattle.raml_words.specs.Clapped.{bounds_texts_of};
ghost use Rattle.raml_words.specs.Asked.{Tells, bounds_of, files_of};

use crate::clapped::{BoundsTexts, bounds_matches, count_matches, one_matches, two_matches};
use crate::limits::{MOST_COUNT, MOST_DEGREE};
use crate::number::{are_numbers, given_number, number_in};
use crate::options::{has_none, once, value_of};
use crate::ordered::{ordered, ordered_bounds};
use crate::request::{Rule, WordsFault};
use crate::sorting::Given;
use std::alloc::Global;

/// A file, a degree and a rule.
#[derive(Drop)]
pub struct Bounds {
    pub file: String,
    pub degree: u8,
    pub rule: Rule,
}

/// Two files.
#[derive(Drop)]
pub struct Files {
    pub file: String,
    pub other: String,
}

/// The one operand behind a command without options.
pub fn read_one(alloc: Global, command: &str, rest: &[&str]) -> Result<String, WordsFault>
    ensures { Tells string_bytes result (given_one (texts rest.now)) }
{
    let given = Given::of(alloc, rest, &[])?;
    one_given(alloc, command, &given)
}

fn one_given(alloc: Global, command: &str, given: &Given) -> Result<String, WordsFault>
    ensures { Tells string_bytes result (without_options one_of (given_of given.now)) }
{
    if has_none(given.values.as_slice()) {
        one_ordered(alloc, command, given.operands.as_slice())
    } else {
        Err(WordsFault::Usage)
    }
}

fn one_ordered(alloc: Global, command: &str, operands: &[&str]) -> Result<String, WordsFault>
    ensures { Tells string_bytes result (one_of (texts operands.now)) }
{
    let words = ordered(alloc, command, &[], operands)?;
    match one_matches(alloc, &words) {
        Ok(file) => Ok(String::from_str(alloc, file)?),
        Err(fault) => Err(fault),
    }
}

/// The two operands behind a command without options.
pub fn read_two(alloc: Global, command: &str, rest: &[&str]) -> Result<Files, WordsFault>
    ensures { Tells files_of result (given_two (texts rest.now)) }
{
    let given = Given::of(alloc, rest, &[])?;
    two_given(alloc, command, &given)
}

fn two_given(alloc: Global, command: &str, given: &Given) -> Result<Files, WordsFault>
    ensures { Tells files_of result (without_options two_of (given_of given.now)) }
{
    if has_none(given.values.as_slice()) {
        two_ordered(alloc, command, given.operands.as_slice())
    } else {
        Err(WordsFault::Usage)
    }
}

fn two_ordered(alloc: Global, command: &str, operands: &[&str]) -> Result<Files, WordsFault>
    ensures { Tells files_of result (two_of (texts operands.now)) }
{
    let words = ordered(alloc, command, &[], operands)?;
    match two_matches(alloc, &words) {
        Ok((file, other)) => Ok(Files {
            file: String::from_str(alloc, file)?,
            other: String::from_str(alloc, other)?,
        }),
        Err(fault) => Err(fault),
    }
}

/// The number behind a command without options.
pub fn read_count(alloc: Global, command: &str, rest: &[&str]) -> Result<u32, WordsFault>
    ensures { Tells (λ count. count) result (given_count (texts rest.now)) }
{
    let given = Given::of(alloc, rest, &[])?;
    count_given(alloc, command, &given)
}

fn count_given(alloc: Global, command: &str, given: &Given) -> Result<u32, WordsFault>
    ensures { Tells (λ count. count) result (without_options count_of (given_of given.now)) }
{
    if has_none(given.values.as_slice()) {
        count_operands(alloc, command, given.operands.as_slice())
    } else {
        Err(WordsFault::Usage)
    }
}

// By hand: each operand has one to ten digits.
fn count_operands(alloc: Global, command: &str, operands: &[&str]) -> Result<u32, WordsFault>
    ensures { Tells (λ count. count) result (count_of (texts operands.now)) }
{
    if are_numbers(operands) {
        count_ordered(alloc, command, operands)
    } else {
        Err(WordsFault::Usage)
    }
}

fn count_ordered(alloc: Global, command: &str, operands: &[&str]) -> Result<u32, WordsFault>
    ensures { Tells (λ count. count) result (option_and_then (number_in 1 100) (count_clapped command.now (texts operands.now))) }
{
    let words = ordered(alloc, command, &[], operands)?;
    match count_matches(alloc, &words) {
        Ok(count) => match number_in(1, MOST_COUNT, count) {
            Some(count) => Ok(count as u32),
            None => Err(WordsFault::Usage),
        },
        Err(fault) => Err(fault),
    }
}

/// The operand, the degree and the rule behind a command.
pub fn read_bounds(alloc: Global, command: &str, rest: &[&str]) -> Result<Bounds, WordsFault>
    ensures { Tells bounds_of result (given_bounds (texts rest.now)) }
{
    let given = Given::of(alloc, rest, &["degree", "pivot"])?;
    bounds_given(alloc, command, &given)
}

// By hand: each option once.
fn bounds_given(alloc: Global, command: &str, given: &Given) -> Result<Bounds, WordsFault>
    ensures { Tells bounds_of result (bounds_in (given_of given.now)) }
{
    let values = given.values.as_slice();
    if once(values) {
        let degree = value_of("degree", values);
        let pivot = value_of("pivot", values);
        bounds_values(alloc, command, degree, pivot, given.operands.as_slice())
    } else {
        Err(WordsFault::Usage)
    }
}

// By hand: a degree of one to ten digits, and a rule that there is.
fn bounds_values(
    alloc: Global,
    command: &str,
    degree: Option<&str>,
    pivot: Option<&str>,
    operands: &[&str],
) -> Result<Bounds, WordsFault>
    ensures { Tells bounds_of result (bounds_by (texts operands.now) (lent degree.entry) (lent pivot.entry)) }
{
    if given_number(degree) && given_rule(pivot) {
        bounds_ordered(alloc, command, degree, pivot, operands)
    } else {
        Err(WordsFault::Usage)
    }
}

fn bounds_ordered(
    alloc: Global,
    command: &str,
    degree: Option<&str>,
    pivot: Option<&str>,
    operands: &[&str],
) -> Result<Bounds, WordsFault>
    ensures { Tells bounds_of result
        (option_and_then bounds_made (bounds_clapped command.now (lent degree.entry) (lent pivot.entry) (texts operands.now))) }
{
    let words = ordered_bounds(alloc, command, degree, pivot, operands)?;
    match bounds_matches(alloc, &words) {
        Ok(texts) => make_bounds(alloc, texts),
        Err(fault) => Err(fault),
    }
}

fn make_bounds(alloc: Global, texts: BoundsTexts) -> Result<Bounds, WordsFault>
    ensures { Tells bounds_of result (bounds_made (bounds_texts_of texts.entry)) }
{
    let Some(degree) = number_in(1, MOST_DEGREE, texts.degree) else {
        return Err(WordsFault::Usage);
    };
    let Some(rule) = rule_in(texts.pivot) else {
        return Err(WordsFault::Usage);
    };
    Ok(Bounds {
        file: String::from_str(alloc, texts.file)?,
        degree: degree as u8,
        rule,
    })
}

fn given_rule(pivot: Option<&str>) -> bool
    ensures { result ≡ given_rule (lent pivot.entry) }
{
    rule_in(pivot).is_some()
}

// The rule that an option names, or the least column.
fn rule_in(pivot: Option<&str>) -> Option<Rule>
    ensures { result ≡ rule_in (lent pivot.entry) }
{
    match pivot {
        Some(word) => rule_named(word),
        None => Some(Rule::Least),
    }
}

fn rule_named(word: &str) -> Option<Rule>
    ensures { result ≡ rule_named word.now }
{
    match word {
        "least" => Some(Rule::Least),
        "greatest" => Some(Rule::Greatest),
        _ => None,
    }
}
