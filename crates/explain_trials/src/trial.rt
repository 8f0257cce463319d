// Trials of texts.
ghost use Rattle.std.specs.Prelude.{◌≡◌, ◌≤◌, IfOk, IfSome};
ghost use Rattle.raml_syntax.specs.Read.{program_of};
ghost use Rattle.explain_check.specs.Checks.{IsProgramOf};
ghost use Rattle.explain_trials.specs.Trials.{FindsUpTo, FindsWithin};
ghost use Rattle.explain_trials.specs.Read.{IsTrialOf};

use explain_check::{MOST_BYTES, typed_source};
use explain_degrees::{LeastBounds, LeastWithin, least_bounds, least_bounds_within};
use normal_program::normal_form;
use simple_types::Typed;
use std::alloc::{AllocError, Global};

/// A text that was tried.
#[derive(Drop)]
pub struct Trial {
    pub text: Vec<u8>,
    /// The program that it spells.
    pub typed: Typed,
    /// What analyses find of it.
    pub found: LeastBounds,
}

/// The typed program that a text spells. None where it spells none, or is longer than a source may be.
pub fn typed_text(alloc: Global, text: &[u8]) -> Result<Option<Typed>, AllocError>
    ensures { IfOk result (λ typed. IfSome typed (λ program. IsProgramOf text.now (program_of program))) }
{
    if text.len() as u64 > MOST_BYTES {
        return Ok(None);
    }
    let mut report = String::new(alloc);
    typed_source(alloc, "", text, &mut report)
}

/// Analyses the program that a text spells, at each degree up to `most`.
pub fn trial_of(alloc: Global, text: Vec<u8>, typed: Typed, most: u8) -> Result<Trial, AllocError>
    requires spelled { IsProgramOf text.items (program_of typed) }
    requires most { most ≤ 4 }
    ensures trial { IfOk result (IsTrialOf most) }
    ensures text { IfOk result (λ trial. trial.text.items ≡ text.items) }
    ensures typed { IfOk result (λ trial. trial.typed ≡ typed) }
{
    let found = found_of(alloc, &typed, most)?;
    Ok(Trial { text, typed, found })
}

/// What analyses up to a degree find of a typed program, each with no more pivots than the budget, if there is one: up to the
/// first degree whose analysis takes more.
pub fn found_within(
    alloc: Global,
    typed: &Typed,
    most: u8,
    budget: Option<usize>,
) -> Result<LeastWithin, AllocError>
    requires { most ≤ 4 }
    ensures { IfOk result (FindsWithin (program_of typed.now) most budget) }
{
    let _program = typed.program();
    let program = normal_form(alloc, typed)?;
    let _source = program.source();
    least_bounds_within(alloc, &program, most, budget)
}

/// What analyses up to a degree find of a typed program.
pub fn found_of(alloc: Global, typed: &Typed, most: u8) -> Result<LeastBounds, AllocError>
    requires { most ≤ 4 }
    ensures { IfOk result (FindsUpTo (program_of typed.now) most) }
{
    let _program = typed.program();
    let program = normal_form(alloc, typed)?;
    let _source = program.source();
    least_bounds(alloc, &program, most)
}
