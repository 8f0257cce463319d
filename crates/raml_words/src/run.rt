// What the words behind `run` give it: sorted and tested here, and then read by `clap`.
ghost use Rattle.std.specs.Prelude.{◌≡◌, option_and_then};
ghost use Rattle.raml_words.specs.Words.{texts};
ghost use Rattle.raml_words.specs.Sorting.{lent, given_of, run_by, run_in, given_run};
ghost use Rattle.raml_words.specs.Clapped.{run_texts_of};
ghost use Rattle.raml_words.specs.Made.{run_made, run_clapped};
ghost use Rattle.raml_words.specs.Asked.{Tells, request_of};

use crate::clapped::{RunTexts, run_matches};
use crate::limits::{USUAL_STEPS, cells_in, degree_in, steps_in};
use crate::number::given_number;
use crate::options::{once, value_of};
use crate::ordered::ordered_run;
use crate::request::{Request, WordsFault};
use crate::sorting::Given;
use std::alloc::Global;

/// The run that the words behind the command ask for.
pub fn read_run(alloc: Global, rest: &[&str]) -> Result<Request, WordsFault>
    ensures { Tells request_of result (given_run (texts rest.now)) }
{
    let given = Given::of(alloc, rest, &["steps", "cells", "degree"])?;
    run_given(alloc, &given)
}

// By hand: each option once.
fn run_given(alloc: Global, given: &Given) -> Result<Request, WordsFault>
    ensures { Tells request_of result (run_in (given_of given.now)) }
{
    let values = given.values.as_slice();
    if once(values) {
        let steps = value_of("steps", values);
        let cells = value_of("cells", values);
        let degree = value_of("degree", values);
        run_values(alloc, steps, cells, degree, given.operands.as_slice())
    } else {
        Err(WordsFault::Usage)
    }
}

// By hand: each value has one to ten digits.
fn run_values(
    alloc: Global,
    steps: Option<&str>,
    cells: Option<&str>,
    degree: Option<&str>,
    operands: &[&str],
) -> Result<Request, WordsFault>
    ensures { Tells request_of result (run_by (texts operands.now) (lent steps.entry) (lent cells.entry) (lent degree.entry)) }
{
    if given_number(steps) && given_number(cells) && given_number(degree) {
        run_ordered(alloc, steps, cells, degree, operands)
    } else {
        Err(WordsFault::Usage)
    }
}

fn run_ordered(
    alloc: Global,
    steps: Option<&str>,
    cells: Option<&str>,
    degree: Option<&str>,
    operands: &[&str],
) -> Result<Request, WordsFault>
    ensures { Tells request_of result
        (option_and_then run_made (run_clapped (lent steps.entry) (lent cells.entry) (lent degree.entry) (texts operands.now))) }
{
    let words = ordered_run(alloc, steps, cells, degree, operands)?;
    match run_matches(alloc, &words) {
        Ok(texts) => make_run(alloc, texts),
        Err(fault) => Err(fault),
    }
}

fn make_run(alloc: Global, texts: RunTexts) -> Result<Request, WordsFault>
    ensures { Tells request_of result (run_made (run_texts_of texts.entry)) }
{
    let Some(steps) = steps_in(texts.steps) else {
        return Err(WordsFault::Usage);
    };
    let Some(cells) = cells_in(texts.cells) else {
        return Err(WordsFault::Usage);
    };
    let Some(degree) = degree_in(texts.degree) else {
        return Err(WordsFault::Usage);
    };
    Ok(Request::Run {
        file: String::from_str(alloc, texts.file)?,
        name: String::from_str(alloc, texts.name)?,
        input: String::from_str(alloc, texts.input)?,
        steps: steps.unwrap_or(USUAL_STEPS),
        cells,
        degree,
    })
}
