//! Power forms of small polynomials, as texts.
ghost use Rattle.std.specs.Prelude.{◌≤◌, ◌<ℤ◌, pos, All, IsTrue};
ghost use Rattle.base_poly.specs.Plain.{degrees};
ghost use Rattle.base_poly.specs.Indices.{AreIndices};
ghost use Rattle.base_poly.specs.Poly.{IsPoly};
ghost use Rattle.base_poly.specs.Read.{context_of};
ghost use Rattle.bound_compare.specs.Powers.{are_flat};

use crate::polys::poly_of;
use base_poly::Poly;
use bound_compare::{PowerFault, is_flat, powers, push_powers};
use raml_syntax::Ty;
use std::alloc::{AllocError, Global};
use std::test::Fail;
use tests_support::types::context;

/// The powers of the polynomial with these numbers of the tuples of the types, over a denominator, or
/// why there are none.
pub fn powers_text(
    alloc: Global,
    types: &str,
    degree: u8,
    den: i128,
    numbers: &[i128],
) -> Result<String, Fail>
    requires degree { degree ≤ 4 }
    requires den { pos 0 <ℤ den }
{
    let params = context(alloc, types)?;
    if !is_flat(&params) {
        return Ok(String::from_str(alloc, "not flat")?);
    }
    let poly = poly_of(alloc, &params, degree, den, numbers)?;
    Ok(text_of(alloc, &poly, &params)?)
}

fn text_of(alloc: Global, poly: &Poly, params: &[Ty]) -> Result<String, AllocError>
    requires poly { IsPoly poly.now }
    requires flat { IsTrue (are_flat (context_of params.now)) }
    requires tuples { All (λ t. AreIndices t.0 (context_of params.now)) poly.now.terms.items }
    requires low { All (λ t. degrees t.0 ≤ 4) poly.now.terms.items }
{
    match powers(alloc, poly, params) {
        Ok(form) => {
            let mut text = String::new(alloc);
            push_powers(&mut text, &form)?;
            Ok(text)
        }
        Err(PowerFault::Leaves) => String::from_str(alloc, "leaves"),
        Err(PowerFault::NoMemory) => Err(AllocError),
    }
}

// Five parameters, of which the second, the third and the last have elements.
const FIVE: &str = "bool int list bool tree int bool list";

// The types of parameters, a degree, a denominator, the numbers of the tuples up to that degree in their
// order, and the text. With one list these are the numbers of 0 picked elements, 1, 2 and so on.
const FORMS: [(&str, u8, i128, &[i128], &str); 31] = [
    ("int list", 1, 1, &[0, 1], "1*n1"),
    ("int list", 1, 1, &[4, 5], "4 + 5*n1"),
    ("bool tree", 1, 1, &[2, 5], "2 + 5*n1"),
    ("int list", 1, 2, &[14, 1], "7 + 1/2*n1"),
    ("int list", 1, 2, &[10, 7], "5 + 7/2*n1"),
    ("int list", 2, 1, &[0, 0, 1], "-1/2*n1 + 1/2*n1^2"),
    ("int list", 2, 1, &[0, 1, 1], "1/2*n1 + 1/2*n1^2"),
    ("int list", 2, 1, &[4, 11, 12], "4 + 5*n1 + 6*n1^2"),
    ("int list", 2, 1, &[0, 2, 3], "1/2*n1 + 3/2*n1^2"),
    ("int list", 2, 1, &[4, 24, 23], "4 + 25/2*n1 + 23/2*n1^2"),
    ("int list", 2, 1, &[0, 1, 2], "1*n1^2"),
    ("int list", 2, 1, &[0, 0, 2], "-1*n1 + 1*n1^2"),
    ("int list", 2, 3, &[0, 15, 76], "-23/3*n1 + 38/3*n1^2"),
    (
        "int list",
        2,
        6,
        &[24, 591, 2960],
        "4 - 889/6*n1 + 740/3*n1^2",
    ),
    (
        "bool list",
        3,
        1,
        &[0, 0, 0, 1],
        "1/3*n1 - 1/2*n1^2 + 1/6*n1^3",
    ),
    (
        "int list",
        3,
        1,
        &[4, 10, 10, 5],
        "4 + 20/3*n1 + 5/2*n1^2 + 5/6*n1^3",
    ),
    (
        "int tree",
        4,
        1,
        &[0, 0, 0, 0, 1],
        "-1/4*n1 + 11/24*n1^2 - 1/4*n1^3 + 1/24*n1^4",
    ),
    (
        "int list",
        4,
        1,
        &[4, 10, 10, 10, 5],
        "4 + 85/12*n1 + 55/24*n1^2 + 5/12*n1^3 + 5/24*n1^4",
    ),
    ("int list int list", 1, 4, &[0, 4, 3], "1*n2 + 3/4*n1"),
    ("int list int list", 1, 1, &[7, 5, 3], "7 + 5*n2 + 3*n1"),
    (
        "bool list bool tree",
        2,
        1,
        &[0, 0, 2, 0, 5, 0],
        "2*n1 + 5*n1*n2",
    ),
    (
        "int list int list",
        2,
        1,
        &[0, 0, 0, 0, 1, 1],
        "-1/2*n1 + 1*n1*n2 + 1/2*n1^2",
    ),
    (
        "int list int list",
        2,
        1,
        &[4, 0, 12, 0, 12, 12],
        "4 + 6*n1 + 12*n1*n2 + 6*n1^2",
    ),
    ("int int list", 1, 1, &[6, 12], "6 + 12*n2"),
    ("int bool", 4, 1, &[12], "12"),
    ("", 1, 1, &[3], "3"),
    ("int list", 4, 7, &[], "0"),
    (
        FIVE,
        3,
        1,
        &[0, 0, 0, 0, 0, 0, 0, 2, 0, 0, 0, 0, 0, 0, 0, 5],
        "2*n2*n5 + 5*n2*n3*n5",
    ),
    (
        FIVE,
        3,
        1,
        &[8, 0, 0, 15, 0, 0, 0, 12, 0, 0, 0, 0, 0, 0, 0, 12],
        "8 + 15*n2 + 12*n2*n5 + 12*n2*n3*n5",
    ),
    ("int list list", 1, 1, &[1], "not flat"),
    ("int int pair list", 1, 1, &[1], "not flat"),
];

#[test]
fn forms_are_those_of_the_tables(rt: HostRuntime) -> Result<(), Fail> {
    for (types, degree, den, numbers, want) in &FORMS {
        assert!(rt; *degree <= 4 && *den > 0);
        let text = powers_text(rt.alloc(), types, *degree, *den, numbers)?;
        assert_eq!(rt; text.as_str(), *want);
    }
    Ok(())
}

// Types, and whether a function with these parameters is flat.
const FLAT: [(&str, bool); 12] = [
    ("", true),
    ("int bool", true),
    ("int list bool list int tree bool tree", true),
    ("int option", false),
    ("int list option", false),
    ("int int pair", false),
    ("int int pair list", false),
    ("int list list", false),
    ("int tree list", false),
    ("int list tree", false),
    ("int option list", false),
    ("int list int option", false),
];

#[test]
fn flat_functions_are_told(rt: HostRuntime) -> Result<(), Fail> {
    for (types, want) in &FLAT {
        let params = context(rt.alloc(), types)?;
        assert!(rt; is_flat(&params) == *want);
    }
    Ok(())
}
