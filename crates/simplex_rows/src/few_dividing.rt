//! What the numbers of a row have in common.

ghost use Rattle.std.specs.Prelude.{◌≡◌, ◌^◌, ◌-◌, map, pos, ◌<ℤ◌, ◌≤ℤ◌};
ghost use Rattle.simplex_rows.specs.ShortRows.{AreWithin};
ghost use Rattle.simplex_rows.specs.Multiples.{IsMultiple, AreMultiples, quotients};

use crate::dividing::common_with;

/// What a positive number and others all have in common.
pub(crate) fn common_divisor(first: i64, numbers: &[(u32, i64)]) -> i64
    requires { pos 0 <ℤ first }
    ensures positive { pos 0 <ℤ result }
    ensures first { IsMultiple result first }
    ensures each { AreMultiples result (map (λ e. e.1) numbers.now) }
{
    let mut common = first;
    for entry in numbers {
        if common == 1 {
            break;
        }
        common = common_with(common, entry.1);
    }
    common
}

/// Divides each number by a positive one.
pub(crate) fn divide_each(numbers: &mut [(u32, i64)], by: i64)
    requires { pos 0 <ℤ by }
    ensures { numbers.new ≡ quotients by numbers.old }
{
    for place in 0..numbers.len() {
        let (column, n) = numbers[place];
        numbers[place] = (column, n / by);
    }
}

/// The greatest of a number and others without their signs.
pub(crate) fn greatest(first: i64, numbers: &[(u32, i64)]) -> i64
    requires { AreWithin (pos (2 ^ 63 - 1)) numbers.now }
    ensures first { first ≤ℤ result }
    ensures each { AreWithin result numbers.now }
{
    let mut bound = first;
    for entry in numbers {
        bound = bound.max(entry.1.abs());
    }
    bound
}
