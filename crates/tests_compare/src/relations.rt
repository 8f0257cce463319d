//! How polynomials stand to each other.
ghost use Rattle.std.specs.Prelude.{◌≡◌, ◌<ℤ◌, pos, [], ◌∷◌, IfOk};
ghost use Rattle.base_poly.specs.Plain.{Unit', End, Then};
ghost use Rattle.base_poly.specs.Poly.{IsPoly};

use crate::polys::poly_of;
use base_poly::{Index, Poly, Tuple};
use bound_compare::compare;
use std::alloc::{AllocError, Global};
use std::test::Fail;
use tests_support::types::context;

// A denominator, and the numbers of the tuples.
type Given = (i128, &'static [i128]);

// Polynomials in two lists: the numbers of `<[], []>`, `<[], [_]>`, `<[_], []>`, and of the tuples of
// degree 2 behind them. How the first stands to the second.
const RELATIONS: [(Given, Given, &str); 18] = [
    ((1, &[0, 0, 0]), (1, &[0, 0, 1]), "below"),
    ((1, &[0, 0, 1]), (1, &[0, 0, 1]), "equal"),
    ((1, &[4, 0, 7]), (1, &[4, 0, 8]), "below"),
    ((1, &[4, 0, 8]), (1, &[4, 0, 7]), "above"),
    ((1, &[0, 0, 2]), (1, &[9, 0, 1]), "mixed"),
    ((1, &[0, 1, 0]), (1, &[0, 0, 1]), "mixed"),
    ((1, &[0, 0, 1]), (1, &[0, 0, 0, 0, 0, 1]), "mixed"),
    ((1, &[]), (5, &[0, 0]), "equal"),
    ((1, &[]), (5, &[0, 1]), "below"),
    ((2, &[1, 0, 3]), (4, &[2, 0, 6]), "equal"),
    ((3, &[1, 0, 1]), (2, &[1, 0, 1]), "below"),
    ((2, &[1, 0, 1]), (3, &[1, 0, 1]), "above"),
    ((3, &[1, 0, 2]), (2, &[1, 0, 1]), "mixed"),
    ((2, &[1]), (1, &[1]), "below"),
    ((1, &[1]), (2, &[1]), "above"),
    (
        (i128::MAX - 1, &[i128::MAX]),
        (i128::MAX - 2, &[i128::MAX - 1]),
        "below",
    ),
    (
        (i128::MAX - 2, &[i128::MAX - 1]),
        (i128::MAX - 1, &[i128::MAX]),
        "above",
    ),
    ((i128::MAX, &[i128::MAX]), (1, &[1]), "equal"),
];

#[test]
fn relations_are_those_of_the_table(rt: HostRuntime) -> Result<(), Fail> {
    let params = context(rt.alloc(), "int list int list")?;
    for ((den, numbers), (other_den, others), want) in &RELATIONS {
        assert!(rt; *den > 0 && *other_den > 0);
        let first = poly_of(rt.alloc(), &params, 2, *den, numbers)?;
        let second = poly_of(rt.alloc(), &params, 2, *other_den, others)?;
        assert_eq!(rt; compare(&first, &second).word(), *want);
    }
    Ok(())
}

// The tuple that picks an element.
fn one(alloc: Global) -> Result<Tuple, AllocError>
    ensures { IfOk result (λ made. made ≡ Then Unit' End ∷ []) }
{
    let entry = Tuple::new(Vec::new(alloc))
        .with_first(alloc, &Index::Unit)?
        .into_list();
    Tuple::new(Vec::new(alloc)).with_first(alloc, &entry)
}

// The tuple that picks none.
fn none(alloc: Global) -> Result<Tuple, AllocError>
    ensures { IfOk result (λ made. made ≡ End ∷ []) }
{
    let empty = Tuple::new(Vec::new(alloc)).into_list();
    Tuple::new(Vec::new(alloc)).with_first(alloc, &empty)
}

// The second of the tuples in their order before the first.
fn one_before_none(alloc: Global, den: i128) -> Result<Poly, AllocError>
    requires { pos 0 <ℤ den }
    ensures { IfOk result IsPoly }
{
    let terms = vec![in alloc; (one(alloc)?, 3), (none(alloc)?, 2)]?;
    Ok(Poly { den, terms })
}

#[test]
fn terms_may_stand_in_any_order(rt: HostRuntime) -> Result<(), Fail> {
    let params = context(rt.alloc(), "int list")?;
    let first = one_before_none(rt.alloc(), 1)?;
    let same = poly_of(rt.alloc(), &params, 1, 1, &[2, 3])?;
    assert_eq!(rt; compare(&first, &same).word(), "equal");
    assert_eq!(rt; compare(&same, &first).word(), "equal");
    Ok(())
}
