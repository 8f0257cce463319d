// The rows of a declared bound.
ghost use Rattle.std.specs.Prelude.{◌≡◌, ◌≢◌, [], ◌∷◌, neg_ℤ, SomeIff, ◌≤◌, ◌<◌, ◌+◌, ◌*◌, ◌≤ℤ◌, ◌<ℤ◌, ◌^◌, ℕ, pos, unsigned_abs, IfOk};
ghost use Rattle.std.specs.Prelude.{IfSome, IfNone, OnOk};
ghost use Rattle.simplex_integers.specs.Wholes.{most};
ghost use Rattle.bound_file.specs.Lines.{numerator_at, denominator_at};
ghost use Rattle.bound_contract.specs.System.{at_most, line_rows, with_rows};
ghost use Rattle.bound_contract.specs.Places.{RightLeaves};
ghost use Rattle.bound_file.specs.Read.{coefficients_of};
ghost use Rattle.bound_contract.specs.Read.{AllPositive, numerator_in, denominator_in};
ghost use Rattle.bound_contract.specs.declared.rows.LineFault.TheVariants as f;

use linear_rows::{Row, RowFault, System};
use std::alloc::{AllocError, Global};

/// Why the rows of a declared bound are not made.
#[derive(Clone, Copy, Debug)]
pub(crate) enum LineFault {
    /// The numerator at this position, times the scale, leaves 128 bits.
    Right { position: u32 },
    NoMemory,
}

// What is declared at a position; 0 where nothing is.
fn numerator_in(bound: &[(u32, i128, i128)], position: u32) -> i128
    ensures { result ≡ numerator_in position bound.now }
{
    for &(place, numerator, _) in bound {
        if place == position {
            return numerator;
        }
    }
    0
}

// 1 where nothing is.
fn denominator_in(bound: &[(u32, i128, i128)], position: u32) -> i128
    ensures { result ≡ denominator_in position bound.now }
{
    for &(place, _, denominator) in bound {
        if place == position {
            return denominator;
        }
    }
    1
}

fn negated(number: i128) -> i128
    requires { pos 0 ≤ℤ number }
    ensures { result ≡ neg_ℤ (pos (unsigned_abs number)) }
{
    -number
}

// The number of an unknown of a row that has no terms yet.
fn add_first(row: &mut Row, unknown: u32, number: i128) -> Result<(), AllocError>
    requires none { row.old.terms ≡ [] }
    requires some { number ≢ pos 0 }
    ensures { OnOk result (row.new ≡ record { terms = (unknown, number) ∷ []; right = row.old.right }) }
{
    match row.add(unknown, number) {
        Ok(()) => {
            let _terms = row.terms();
            Ok(())
        }
        Err(RowFault::NoMemory) => Err(AllocError),
        // it has no number of the unknown yet
        Err(RowFault::LeavesRow) => unreachable!(),
    }
}

// The right side of a row that has none yet.
fn set_right(row: &mut Row, right: i128)
    requires { row.old.right ≡ pos 0 }
    ensures right { row.new.right ≡ right }
    ensures terms { row.new.terms ≡ row.old.terms }
{
    row.add_right(right).unwrap();
}

// The row that bounds an unknown; none where its right side leaves 128 bits.
fn row_for(
    alloc: Global,
    unknown: u32,
    numerator: i128,
    denominator: i128,
    scale: i128,
) -> Result<Option<Row>, AllocError>
    requires natural { pos 0 ≤ℤ numerator }
    requires positive { pos 0 <ℤ denominator }
    requires scaled { pos 0 ≤ℤ scale }
    ensures made { IfOk result
        (λ made. IfSome made (λ row. row ≡ at_most unknown (unsigned_abs numerator) (unsigned_abs denominator) (unsigned_abs scale))) }
    ensures fits { IfOk result (λ made. IfSome made (λ row. unsigned_abs numerator * unsigned_abs scale < most)) }
    ensures leaves { IfOk result (λ made. IfNone made (most ≤ unsigned_abs numerator * unsigned_abs scale)) }
{
    let Some(product) = product(numerator, scale) else {
        return Ok(None);
    };
    let mut row = Row::new(alloc);
    set_right(&mut row, negated(product));
    add_first(&mut row, unknown, negated(denominator))?;
    Ok(Some(row))
}

// None where it leaves 128 bits.
fn product(first: i128, second: i128) -> Option<i128>
    requires first { pos 0 ≤ℤ first }
    requires second { pos 0 ≤ℤ second }
    ensures { SomeIff result (unsigned_abs first * unsigned_abs second < most) (pos (unsigned_abs first * unsigned_abs second)) }
{
    first.checked_mul(second)
}

// The row of a position; none where its right side leaves 128 bits.
fn row_at(
    alloc: Global,
    bound: &[(u32, i128, i128)],
    first: u32,
    position: u32,
    scale: i128,
) -> Result<Option<Row>, AllocError>
    requires positive { AllPositive bound.now }
    requires scaled { pos 0 ≤ℤ scale }
    requires fits { first + position < 2 ^ 32 }
    ensures made { IfOk result (λ made. IfSome made (λ row. row
        ≡ at_most (first + position) (numerator_at (coefficients_of bound.now) position)
        (denominator_at (coefficients_of bound.now) position) (unsigned_abs scale))) }
    ensures fits { IfOk result
        (λ made. IfSome made (λ row. numerator_at (coefficients_of bound.now) position * unsigned_abs scale < most)) }
    ensures leaves { IfOk result (λ made. IfNone made (most ≤ numerator_at (coefficients_of bound.now) position * unsigned_abs scale)) }
{
    let numerator = numerator_in(bound, position);
    let denominator = denominator_in(bound, position);
    row_for(alloc, first + position, numerator, denominator, scale)
}

/// Adds a row for each of so many positions, whose unknowns begin with `first`: at prices times `scale` the
/// unknown is at most what is declared.
pub(crate) fn add_rows(
    alloc: Global,
    system: &mut System,
    bound: &[(u32, i128, i128)],
    first: u32,
    count: u32,
    scale: i128,
) -> Result<(), LineFault>
    requires positive { AllPositive bound.now }
    requires scaled { pos 0 ≤ℤ scale }
    requires unknowns { first + count ≤ system.old.unknowns }
    ensures added { OnOk result
        (system.new ≡ with_rows system.old (line_rows (coefficients_of bound.now) first count (unsigned_abs scale))) }
    ensures fit { OnOk result ((k : ℕ) → k < count → numerator_at (coefficients_of bound.now) k * unsigned_abs scale < most) }
    ensures leaves { (position : ℕ) → result ≡ Err (f.Right position) →
        RightLeaves (coefficients_of bound.now) count (unsigned_abs scale) position }
{
    let _unknowns = system.unknowns();
    for position in 0..count {
        match row_at(alloc, bound, first, position, scale) {
            Err(_) => return Err(LineFault::NoMemory),
            Ok(None) => return Err(LineFault::Right { position }),
            Ok(Some(row)) => {
                if let Err(_) = system.add_row(row) {
                    return Err(LineFault::NoMemory);
                }
            }
        }
    }
    Ok(())
}
