// The limits that options name, and their ranges.
ghost use Rattle.std.specs.Prelude.{◌≡◌};
ghost use Rattle.raml_words.specs.Sorting.{lent, optional};

use crate::number::number_in;

/// The greatest number of instructions that may be asked for.
const MOST_STEPS: u64 = 1_000_000_000;

/// The number of instructions where none is asked for.
pub const USUAL_STEPS: u64 = 10_000_000;

/// The greatest number of cells that may be asked for.
const MOST_CELLS: u64 = 16_777_216;

/// The greatest degree of polynomials.
pub const MOST_DEGREE: u64 = 4;

/// The greatest number of pairs of functions.
pub const MOST_COUNT: u64 = 100;

/// The number of instructions, where it is given.
pub fn steps_in(value: Option<&str>) -> Option<Option<u64>>
    ensures { result ≡ optional 1 1000000000 (lent value.entry) }
{
    match value {
        Some(word) => match number_in(1, MOST_STEPS, word) {
            Some(number) => Some(Some(number)),
            None => None,
        },
        None => Some(None),
    }
}

/// The number of cells, where it is given.
pub fn cells_in(value: Option<&str>) -> Option<Option<u32>>
    ensures { result ≡ optional 0 16777216 (lent value.entry) }
{
    match value {
        Some(word) => match number_in(0, MOST_CELLS, word) {
            Some(number) => Some(Some(number as u32)),
            None => None,
        },
        None => Some(None),
    }
}

/// The degree, where it is given.
pub fn degree_in(value: Option<&str>) -> Option<Option<u8>>
    ensures { result ≡ optional 1 4 (lent value.entry) }
{
    match value {
        Some(word) => match number_in(1, MOST_DEGREE, word) {
            Some(number) => Some(Some(number as u8)),
            None => None,
        },
        None => Some(None),
    }
}
