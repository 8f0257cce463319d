// Whether two programs give the same values.
ghost use Rattle.std.specs.Prelude.{◌≤◌, ◌<◌, IfOk, MatchBool, map, length, string_bytes};
ghost use Rattle.raml_syntax.specs.Read.{program_of};
ghost use Rattle.explain_runs.specs.Measure.{CanRun};
ghost use Rattle.explain_runs.specs.Agree.{AreSame, AreSameRuns, AgreeOn, DifferOn, AgreeOnAll, DifferOnSome};

use crate::measuring::measure;
use crate::outcome::{Limits, Measured, Outcome};
use raml_syntax::FunId;
use simple_types::Typed;
use std::alloc::{AllocError, Global};

/// Whether the function gives the same value in both programs on each of these texts of arguments, or one of them does not
/// halt within the limits. A text that spells no arguments is not agreed on.
pub fn agree(
    alloc: Global,
    first: &Typed,
    second: &Typed,
    fun: FunId,
    texts: &[String],
    limits: Limits,
) -> Result<bool, AllocError>
    requires first { CanRun (program_of first.now) }
    requires second { CanRun (program_of second.now) }
    requires fun { (fun.0 < length (program_of first.now)) × (fun.0 < length (program_of second.now)) }
    requires steps { limits.steps ≤ 1000000000 }
    requires cells { limits.cells ≤ 16777216 }
    ensures { IfOk result (λ same. MatchBool same
        (AgreeOnAll (program_of first.now) (program_of second.now) fun.0 limits (map string_bytes texts.now))
        (DifferOnSome (program_of first.now) (program_of second.now) fun.0 limits (map string_bytes texts.now))) }
{
    match texts {
        [] => Ok(true),
        [text, rest @ ..] => {
            if !agree_on(alloc, first, second, fun, text.as_bytes(), limits)? {
                return Ok(false);
            }
            agree(alloc, first, second, fun, rest, limits)
        }
    }
}

/// Whether the function gives the same value in both programs on this data.
fn agree_on(
    alloc: Global,
    first: &Typed,
    second: &Typed,
    fun: FunId,
    data: &[u8],
    limits: Limits,
) -> Result<bool, AllocError>
    requires first { CanRun (program_of first.now) }
    requires second { CanRun (program_of second.now) }
    requires fun { (fun.0 < length (program_of first.now)) × (fun.0 < length (program_of second.now)) }
    requires steps { limits.steps ≤ 1000000000 }
    requires cells { limits.cells ≤ 16777216 }
    ensures { IfOk result (λ same. MatchBool same
        (AgreeOn (program_of first.now) (program_of second.now) fun.0 limits data.now)
        (DifferOn (program_of first.now) (program_of second.now) fun.0 limits data.now)) }
{
    let one = measure(alloc, first, fun, data, limits)?;
    let other = measure(alloc, second, fun, data, limits)?;
    Ok(are_same_runs(&one, &other))
}

/// Whether both runs were made, and are the same.
fn are_same_runs(one: &Option<Measured>, other: &Option<Measured>) -> bool
    ensures { MatchBool result (AreSameRuns one.now other.now) (AreSameRuns one.now other.now → ⊥) }
{
    match one {
        Some(first) => match other {
            Some(second) => are_same(&first.outcome, &second.outcome),
            None => false,
        },
        None => false,
    }
}

/// Whether two runs of one function on the same arguments end with the same value, as far as both end with one.
fn are_same(one: &Outcome, other: &Outcome) -> bool
    ensures { MatchBool result (AreSame one.now other.now) (AreSame one.now other.now → ⊥) }
{
    match one {
        Outcome::Halted { value } => match other {
            Outcome::Halted { value: found } => value == found,
            Outcome::TooLong => false,
            Outcome::Stopped => true,
            Outcome::HeapFull => true,
        },
        Outcome::TooLong => match other {
            Outcome::Halted { .. } => false,
            Outcome::TooLong => true,
            Outcome::Stopped => true,
            Outcome::HeapFull => true,
        },
        Outcome::Stopped => true,
        Outcome::HeapFull => true,
    }
}
