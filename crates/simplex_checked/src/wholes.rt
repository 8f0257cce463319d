// Fractions taken to whole numbers.
ghost use Rattle.std.specs.Prelude.{◌≡◌, ◌<◌, ◌^◌, ℕ, pos, length, map, IfOk, IfErr, slice_index_or};
ghost use Rattle.simplex_integers.specs.Wholes.{most};
ghost use Rattle.simplex_integers.specs.Denominators.{denominators, IsDenominator, all_over};
ghost use Rattle.simplex_checked.specs.Wholes.{AreTaken, EntryIsRefused, HaveWholes};

use crate::fault::AnswerFault;
use frac128::Frac;
use simplex_integers::{WholeFault, laws, least_denominator, wholes};
use std::alloc::{AllocError, Global};

/// The least common denominator of these fractions.
pub(crate) fn common_denominator(fractions: &[Frac]) -> Result<u128, AnswerFault>
    requires { length fractions.now < 2 ^ 32 }
    ensures denominator { IfOk result (IsDenominator (denominators fractions.now)) }
    ensures fault { IfErr result (EntryIsRefused fractions.now) }
{
    match least_denominator(fractions) {
        Ok(denominator) => Ok(denominator),
        Err(entry) => Err(AnswerFault::Scale {
            entry: entry as u32,
        }),
    }
}

/// These fractions over their least common denominator.
pub(crate) fn numbers_over(
    alloc: Global,
    fractions: &[Frac],
    denominator: u128,
) -> Result<Vec<i128>, AnswerFault>
    requires few { length fractions.now < 2 ^ 32 }
    requires denominator { IsDenominator (denominators fractions.now) denominator }
    ensures taken { IfOk result (λ numbers. AreTaken fractions.now denominator) }
    ensures numbers { IfOk result (λ numbers. numbers.items ≡ map pos (all_over denominator fractions.now)) }
    ensures fault { IfErr result (EntryIsRefused fractions.now) }
{
    match wholes(alloc, fractions, denominator) {
        Ok(numbers) => Ok(numbers),
        Err(WholeFault::Leaves { entry }) => Err(AnswerFault::Scale {
            entry: entry as u32,
        }),
        Err(WholeFault::NoMemory) => Err(AnswerFault::NoMemory),
    }
}

/// The least common denominator of fractions that have whole numbers.
pub(crate) fn own_denominator(fractions: &[Frac]) -> u128
    requires { HaveWholes fractions.now }
    ensures { IsDenominator (denominators fractions.now) result }
{
    laws::refused_entries_leave();
    match least_denominator(fractions) {
        Ok(denominator) => denominator,
        Err(_) => unreachable!(),
    }
}

/// Fractions that have whole numbers over their least common denominator.
pub(crate) fn own_numbers(
    alloc: Global,
    fractions: &[Frac],
    denominator: u128,
) -> Result<Vec<i128>, AllocError>
    requires wholes { HaveWholes fractions.now }
    requires denominator { IsDenominator (denominators fractions.now) denominator }
    ensures { IfOk result (λ numbers. numbers.items ≡ map pos (all_over denominator fractions.now)) }
{
    laws::refused_entries_leave();
    match wholes(alloc, fractions, denominator) {
        Ok(numbers) => Ok(numbers),
        Err(WholeFault::Leaves { .. }) => unreachable!(),
        Err(WholeFault::NoMemory) => Err(AllocError),
    }
}
