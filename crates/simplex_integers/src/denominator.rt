// The least common denominator.
ghost use Rattle.std.specs.Prelude.{◌≡◌, ◌<◌, MatchOption, MatchResult};
ghost use Rattle.frac128.specs.Values.{denominator};
ghost use Rattle.simplex_integers.specs.Wholes.{most};
ghost use Rattle.simplex_integers.specs.Denominators.{denominators, IsDenominator, DenominatorLeaves};
ghost use Rattle.simplex_integers.specs.Next.{IsNext, NoNext};

use frac128::Frac;
use raml_num::lcm;

fn denominator_of(fraction: &Frac) -> u128
    ensures is { result ≡ denominator fraction.now }
    ensures positive { 0 < result }
{
    fraction.den().unsigned_abs()
}

/// The least common multiple with one denominator more.
fn with_denominator(so_far: u128, fraction: &Frac) -> Option<u128>
    requires positive { 0 < so_far }
    requires fits { so_far < most }
    ensures { MatchOption result (NoNext so_far (denominator fraction.now)) (IsNext so_far (denominator fraction.now)) }
{
    let denominator = denominator_of(fraction);
    if denominator == 1 {
        return Some(so_far);
    }
    match lcm(so_far, denominator) {
        None => None,
        Some(next) => {
            if next > i128::MAX as u128 {
                None
            } else {
                Some(next)
            }
        }
    }
}

/// The least common denominator of fractions, which is below `2^127`, or the first entry up to which it
/// is not.
pub fn least_denominator(fractions: &[Frac]) -> Result<u128, usize>
    ensures { MatchResult result (IsDenominator (denominators fractions.now)) (DenominatorLeaves (denominators fractions.now)) }
{
    let mut so_far: u128 = 1;
    for entry in 0..fractions.len() {
        match with_denominator(so_far, &fractions[entry]) {
            Some(next) => so_far = next,
            None => return Err(entry),
        }
    }
    Ok(so_far)
}
