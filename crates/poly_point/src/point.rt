// Polynomials at the values of words.
ghost use Rattle.std.specs.Prelude.{◌≡◌, ◌≤◌, ◌<◌, ◌+◌, ◌*◌, ◌^◌, ℕ, List, All, [], ◌∷◌, map, length, unsigned_abs, IfOk, IsErrOf, SomeIff};
ghost use Rattle.raml_syntax.specs.Value.{Value, size};
ghost use Rattle.base_poly.specs.Plain.{degrees};
ghost use Rattle.base_poly.specs.Base.{total, bases};
ghost use Rattle.base_poly.specs.Poly.{magnitudes, terms_of, IsPoly};
ghost use Rattle.base_poly.specs.Read.{plains_of};
ghost use Rattle.value_text.specs.Heap.{IsBelow, NameEarlier};
ghost use Rattle.value_text.specs.Stands.{StandForAll};
ghost use Rattle.poly_point.specs.Point.{worth, AreArguments, AreLow, IsPoint};
ghost use Rattle.poly_point.specs.Walk.{value};

use crate::base::base;
use crate::fault::PointFault;
use base_poly::{Index, Poly, Tuple};
use std::alloc::{AllocError, Global};
use value_text::{DataHeap, Word};

/// What a polynomial is at values: the sum of its coefficients times the base polynomials of its
/// tuples, and the whole part of that sum over the denominator.
#[derive(Clone, Copy, Debug, PartialEq, Eq)]
pub struct Point {
    pub numerator: u128,
    pub floor: u128,
}

/// The polynomial at the values of the words.
///
/// `Leaves` where the numerator does not fit 128 bits.
pub fn at(alloc: Global, poly: &Poly, heap: &DataHeap, args: &[Word]) -> Result<Point, PointFault>
    requires poly { IsPoly poly.now }
    requires low { AreLow poly.now }
    requires args { AreArguments heap.now.cells args.now }
    ensures point { IfOk result (λ point. (vs : List Value) → StandForAll heap.now.cells args.now vs → IsPoint poly.now vs point) }
    ensures leaves { IsErrOf result PointFault.Leaves → (vs : List Value) →
        StandForAll heap.now.cells args.now vs → 2 ^ 128 ≤ worth (terms_of poly.now) vs }
{
    names_earlier(heap);
    let numerator = numerator(alloc, &poly.terms, heap, args)?;
    Ok(Point {
        numerator,
        floor: numerator / poly.den.unsigned_abs(),
    })
}

// Tells that each cell of the heap names only cells before it.
fn names_earlier(heap: &DataHeap)
    ensures { NameEarlier heap.now.cells }
{
    heap.len();
}

// The sum of the base polynomials, each times its coefficient.
fn numerator(
    alloc: Global,
    terms: &[(Tuple, i128)],
    heap: &DataHeap,
    args: &[Word],
) -> Result<u128, PointFault>
    requires there { All (IsBelow (length heap.now.cells)) args.now }
    requires small { total size (map (value heap.now.cells) args.now) ≤ 2 ^ 20 }
    requires low { All (λ t. degrees t.0 ≤ 4) terms.now }
    ensures sum { IfOk result (λ n. n ≡ worth (magnitudes terms.now) (map (value heap.now.cells) args.now)) }
    ensures leaves { IsErrOf result PointFault.Leaves → 2 ^ 128 ≤ worth (magnitudes terms.now) (map (value heap.now.cells) args.now) }
{
    let mut sum: u128 = 0;
    for (tuple, number) in terms {
        let count = bases(alloc, heap, tuple.parts(), args)?;
        match with_term(sum, number.unsigned_abs(), count) {
            Some(more) => sum = more,
            None => return Err(PointFault::Leaves),
        }
    }
    Ok(sum)
}

// The sum with the product.
fn with_term(sum: u128, number: u128, count: u128) -> Option<u128>
    ensures { SomeIff result (sum + number * count < 2 ^ 128) (sum + number * count) }
{
    number.checked_mul(count)?.checked_add(sum)
}

// The product of the base polynomials of the indices, each at its argument.
fn bases(
    alloc: Global,
    heap: &DataHeap,
    indices: &[Index],
    args: &[Word],
) -> Result<u128, AllocError>
    requires there { All (IsBelow (length heap.now.cells)) args.now }
    requires small { total size (map (value heap.now.cells) args.now) ≤ 2 ^ 20 }
    requires low { degrees (plains_of indices.now) ≤ 4 }
    ensures { IfOk result (λ n. n ≡ bases (plains_of indices.now) (map (value heap.now.cells) args.now)) }
{
    match indices {
        [] => Ok(1),
        [index, rest @ ..] => match args {
            [] => Ok(0),
            [word, others @ ..] => {
                let count = base(alloc, heap, index, *word)?;
                Ok(count * bases(alloc, heap, rest, others)?)
            }
        },
    }
}
