// Which functions have the sizes that are asked for.
ghost use Rattle.std.specs.Prelude.{◌≡◌, ◌≤◌, ◌^◌, true, false, List, IfOk, IfSome};
ghost use Rattle.std.specs.Option.{MatchOption};
ghost use Rattle.raml_syntax.specs.Tree.{Text, Type'};
ghost use Rattle.raml_syntax.specs.Read.{program_of, function_of};
ghost use Rattle.explain_at.specs.Read.{all_given};
ghost use Rattle.explain_bounds.specs.Told.{told};
ghost use Rattle.explain_bounds.specs.Written.{CanBeAsked};
ghost use Rattle.explain_words.specs.Spelled.{lent};
ghost use Rattle.explain_calls.specs.Sizes.{meter_of, fit, is_asked, fits_some};

use cost_free::Meter;
use explain_at::{Given, SizeFault};
use explain_bounds::{Asked, check_sizes};
use explain_words::{BoundsWords, Meter as WordsMeter};
use raml_syntax::{Fun, Program};
use std::alloc::{AllocError, Global};

/// What is asked for with these sizes.
pub(crate) fn asked_of<'a>(words: &BoundsWords<'_>, given: &'a [Given<'a>]) -> Asked<'a>
    requires { IfSome words.now.within (λ within. within.most ≤ 2 ^ 127) }
    ensures fit { (ps : List (Text × Type')) → told result ps ≡ fit words.now.within (lent words.now.at) (all_given given.now) ps }
    ensures asked { CanBeAsked result }
{
    match (words.within, words.at) {
        (Some(within), _) => Asked::Within {
            meter: meter_of(within.meter),
            most: within.most,
            given,
        },
        (None, Some(_)) => Asked::At { given },
        (None, None) => Asked::Nothing,
    }
}

/// The meter that a word names.
pub fn meter_of(meter: WordsMeter) -> Meter
    ensures { result ≡ meter_of meter }
{
    match meter {
        WordsMeter::Ticks => Meter::Ticks,
        WordsMeter::Cells => Meter::Cells,
        WordsMeter::Work => Meter::Work,
    }
}

/// Whether the function is asked for: the one of this name, or each.
pub(crate) fn is_asked(name: Option<&str>, fun: &Fun) -> bool
    ensures { result ≡ is_asked (lent name.entry) (function_of fun.now) }
{
    match name {
        Some(name) => fun.name.text() == name,
        None => true,
    }
}

/// Why no function that is asked for has the sizes; None where one has.
pub(crate) fn misfit(
    alloc: Global,
    program: &Program,
    name: Option<&str>,
    asked: &Asked<'_>,
) -> Result<Option<String>, AllocError>
    requires { CanBeAsked asked.now }
    ensures { IfOk result (λ why. MatchOption why
        (fits_some (lent name.entry) (told asked.now) (program_of program.now) ≡ true)
        (λ _. fits_some (lent name.entry) (told asked.now) (program_of program.now) ≡ false)) }
{
    let mut why = String::from_str(alloc, "there is no function")?;
    for fun in &program.funs {
        if is_asked(name, fun) {
            match check_sizes(alloc, asked, &fun.params) {
                Ok(()) => return Ok(None),
                Err(SizeFault::NoMemory) => return Err(AllocError),
                Err(fault) => why = format!(in alloc; "{}: {fault}", fun.name.text())?,
            }
        }
    }
    Ok(Some(why))
}
