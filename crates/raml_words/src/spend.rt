// What the words behind `spend` give it: sorted and tested here, and then read by `clap`.
ghost use Rattle.std.specs.Prelude.{◌≡◌, option_and_then};
ghost use Rattle.raml_words.specs.Words.{texts};
ghost use Rattle.raml_words.specs.Sorting.{lent, given_of, spend_by, spend_in, given_spend};
ghost use Rattle.raml_words.specs.Clapped.{spend_texts_of};
ghost use Rattle.raml_words.specs.Made.{spend_made, spend_clapped};
ghost use Rattle.raml_words.specs.Asked.{Tells, request_of};

use crate::clapped::{SpendTexts, spend_matches};
use crate::limits::{USUAL_STEPS, cells_in, steps_in};
use crate::number::given_number;
use crate::options::{once, value_of};
use crate::ordered::ordered_spend;
use crate::request::{Request, WordsFault};
use crate::sorting::Given;
use std::alloc::Global;

/// The run under prices that the words behind the command ask for.
pub fn read_spend(alloc: Global, rest: &[&str]) -> Result<Request, WordsFault>
    ensures { Tells request_of result (given_spend (texts rest.now)) }
{
    let given = Given::of(alloc, rest, &["steps", "cells"])?;
    spend_given(alloc, &given)
}

// By hand: each option once.
fn spend_given(alloc: Global, given: &Given) -> Result<Request, WordsFault>
    ensures { Tells request_of result (spend_in (given_of given.now)) }
{
    let values = given.values.as_slice();
    if once(values) {
        let steps = value_of("steps", values);
        let cells = value_of("cells", values);
        spend_values(alloc, steps, cells, given.operands.as_slice())
    } else {
        Err(WordsFault::Usage)
    }
}

// By hand: each value has one to ten digits.
fn spend_values(
    alloc: Global,
    steps: Option<&str>,
    cells: Option<&str>,
    operands: &[&str],
) -> Result<Request, WordsFault>
    ensures { Tells request_of result (spend_by (texts operands.now) (lent steps.entry) (lent cells.entry)) }
{
    if given_number(steps) && given_number(cells) {
        spend_ordered(alloc, steps, cells, operands)
    } else {
        Err(WordsFault::Usage)
    }
}

fn spend_ordered(
    alloc: Global,
    steps: Option<&str>,
    cells: Option<&str>,
    operands: &[&str],
) -> Result<Request, WordsFault>
    ensures { Tells request_of result
        (option_and_then spend_made (spend_clapped (lent steps.entry) (lent cells.entry) (texts operands.now))) }
{
    let words = ordered_spend(alloc, steps, cells, operands)?;
    match spend_matches(alloc, &words) {
        Ok(texts) => make_spend(alloc, texts),
        Err(fault) => Err(fault),
    }
}

fn make_spend(alloc: Global, texts: SpendTexts) -> Result<Request, WordsFault>
    ensures { Tells request_of result (spend_made (spend_texts_of texts.entry)) }
{
    let Some(steps) = steps_in(texts.steps) else {
        return Err(WordsFault::Usage);
    };
    let Some(cells) = cells_in(texts.cells) else {
        return Err(WordsFault::Usage);
    };
    Ok(Request::Spend {
        file: String::from_str(alloc, texts.file)?,
        prices: String::from_str(alloc, texts.prices)?,
        name: String::from_str(alloc, texts.name)?,
        input: String::from_str(alloc, texts.input)?,
        steps: steps.unwrap_or(USUAL_STEPS),
        cells,
    })
}
