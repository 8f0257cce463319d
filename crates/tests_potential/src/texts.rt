// Texts of small polynomials.
ghost use Rattle.std.specs.Prelude.{◌≡◌, ◌≤◌, ◌<◌, ◌<ℤ◌, ◌≤ℤ◌, ◌^◌, pos, [], ◌∷◌, map, length, All, IfOk};
ghost use Rattle.std.specs.List.{IsDistinct};
ghost use Rattle.base_poly.specs.Plain.{Unit', End, Then, alike, deg, degrees};
ghost use Rattle.base_poly.specs.Read.{index_of};

use base_poly::{Index, Poly, Tuple};
use poly_text::print;
use std::alloc::{AllocError, Global};
use std::test::Fail;

// The tuple of the empty list index.
fn none(alloc: Global) -> Result<Tuple, AllocError>
    ensures { IfOk result (λ made. made ≡ End ∷ []) }
{
    let empty = Tuple::new(Vec::new(alloc)).into_list();
    Tuple::new(Vec::new(alloc)).with_first(alloc, &empty)
}

// The tuple of the list index with a unit alone.
fn one(alloc: Global) -> Result<Tuple, AllocError>
    ensures { IfOk result (λ made. made ≡ Then Unit' End ∷ []) }
{
    let entry = Tuple::new(Vec::new(alloc))
        .with_first(alloc, &Index::Unit)?
        .into_list();
    Tuple::new(Vec::new(alloc)).with_first(alloc, &entry)
}

// The tuple of the list index with two units.
fn two(alloc: Global) -> Result<Tuple, AllocError>
    ensures { IfOk result (λ made. made ≡ Then Unit' (Then Unit' End) ∷ []) }
{
    let entry = Tuple::new(Vec::new(alloc))
        .with_first(alloc, &Index::Unit)?
        .with_first(alloc, &Index::Unit)?
        .into_list();
    Tuple::new(Vec::new(alloc)).with_first(alloc, &entry)
}

// The option index with a unit.
fn some_unit(alloc: Global) -> Result<Index, AllocError>
    ensures { IfOk result (λ made. deg (index_of made) ≡ 1) }
{
    Ok(Index::Opt(Some(Box::new(alloc, Index::Unit)?)))
}

// The tuple with a pair of both a list and an option before the others.
fn paired(alloc: Global, tuple: Tuple) -> Result<Tuple, AllocError>
    requires { degrees tuple ≤ 8 }
    ensures { IfOk result (λ made. degrees made ≤ 10) }
{
    let entry = Tuple::new(Vec::new(alloc))
        .with_first(alloc, &Index::Unit)?
        .into_list();
    let pair = Index::Pair(Box::new(alloc, entry)?, Box::new(alloc, some_unit(alloc)?)?);
    tuple.with_first(alloc, &pair)
}

// The terms of these tuples, with these numbers in this order.
fn with_numbers(
    alloc: Global,
    tuples: Vec<Tuple>,
    numbers: &[u32],
) -> Result<Vec<(Tuple, i128)>, AllocError>
    ensures natural { IfOk result (λ terms. All (λ t. pos 0 ≤ℤ t.1) terms.items) }
    ensures tuples { IfOk result (λ terms. map (λ t. t.0) terms.items ≡ tuples.items) }
{
    let mut terms = Vec::new(alloc);
    for tuple in tuples {
        let number = numbers.get(terms.len()).copied().unwrap_or(0);
        terms.push((tuple, i128::from(number)))?;
    }
    Ok(terms)
}

// Their text over the denominator.
fn text_of(
    alloc: Global,
    den: i128,
    tuples: Vec<Tuple>,
    numbers: &[u32],
) -> Result<String, AllocError>
    requires positive { pos 0 <ℤ den }
    requires low { All (λ t. degrees t < 2 ^ 32) tuples.items }
    requires distinct { IsDistinct alike tuples.items }
{
    let terms = with_numbers(alloc, tuples, numbers)?;
    print(alloc, &Poly { den, terms })
}

// The text of three terms, given in another order than theirs.
fn of_three(alloc: Global, den: i128, numbers: [u32; 3]) -> Result<String, AllocError>
    requires { pos 0 <ℤ den }
{
    let tuples = vec![in alloc; two(alloc)?, none(alloc)?, one(alloc)?]?;
    text_of(alloc, den, tuples, &[numbers[2], numbers[0], numbers[1]])
}

// A denominator, the numbers of three terms, and their text.
const THREE: [(u32, [u32; 3], &str); 6] = [
    (1, [3, 0, 0], "3"),
    (7, [0, 0, 0], "0"),
    (2, [0, 1, 0], "1/2*<[_]>"),
    (4, [6, 8, 1], "3/2 + 2*<[_]> + 1/4*<[_, _]>"),
    (1, [0, 0, 1], "1*<[_, _]>"),
    (1, [0, 2, 3], "2*<[_]> + 3*<[_, _]>"),
];

#[test]
fn sums_are_in_order(rt: HostRuntime) -> Result<(), Fail> {
    for (den, numbers, want) in &THREE {
        assert!(rt; *den > 0);
        let found = of_three(rt.alloc(), i128::from(*den), *numbers)?;
        assert_eq!(rt; found.as_str(), *want);
    }
    Ok(())
}

// The tuple of a list index with a unit, and of an empty one.
fn one_and_none(alloc: Global) -> Result<Tuple, AllocError>
    ensures { IfOk result (λ made. (degrees made ≡ 1) × (length made ≡ 2)) }
{
    let entry = Tuple::new(Vec::new(alloc))
        .with_first(alloc, &Index::Unit)?
        .into_list();
    none(alloc)?.with_first(alloc, &entry)
}

// The tuple of a unit, and of a list index with a unit.
fn unit_and_one(alloc: Global) -> Result<Tuple, AllocError>
    ensures { IfOk result (λ made. (degrees made ≡ 1) × (length made ≡ 2)) }
{
    one(alloc)?.with_first(alloc, &Index::Unit)
}

// The text of a constant and the term of a tuple of two indices.
fn with_constant(
    alloc: Global,
    constant: u32,
    number: u32,
    tuple: Tuple,
) -> Result<String, AllocError>
    requires low { degrees tuple < 2 ^ 32 }
    requires two { length tuple ≡ 2 }
{
    let tuples = vec![in alloc; tuple, none(alloc)?]?;
    text_of(alloc, 1, tuples, &[number, constant])
}

// The same of a tuple whose first index is a unit, or a list index with a unit.
fn cost_text(
    alloc: Global,
    constant: u32,
    number: u32,
    is_unit: bool,
) -> Result<String, AllocError> {
    if is_unit {
        with_constant(alloc, constant, number, unit_and_one(alloc)?)
    } else {
        with_constant(alloc, constant, number, one_and_none(alloc)?)
    }
}

// A constant, the number of a term, whether its first index is a unit, and the text.
const COSTS: [(u32, u32, bool, &str); 3] = [
    (0, 1, false, "1*<[_], []>"),
    (0, 1, true, "1*<_, [_]>"),
    (1, 2, true, "1 + 2*<_, [_]>"),
];

#[test]
fn costs_of_lists_are_printed(rt: HostRuntime) -> Result<(), Fail> {
    for (constant, number, is_unit, want) in &COSTS {
        let found = cost_text(rt.alloc(), *constant, *number, *is_unit)?;
        assert_eq!(rt; found.as_str(), *want);
    }
    Ok(())
}

// The text of a tuple of three components.
fn of_components(alloc: Global) -> Result<String, AllocError> {
    let tuple = paired(alloc, two(alloc)?)?.with_first(alloc, &Index::Opt(None))?;
    let tuples = vec![in alloc; tuple]?;
    text_of(alloc, 1, tuples, &[1])
}

#[test]
fn components_are_in_order(rt: HostRuntime) -> Result<(), Fail> {
    let text = of_components(rt.alloc())?;
    assert_eq!(rt; text.as_str(), "1*<[], ([_], [_]), [_, _]>");
    Ok(())
}
