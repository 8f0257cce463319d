//! Products of indices as sums.
ghost use Rattle.std.specs.Prelude.{◌≤◌, [], ◌∷◌, All};
ghost use Rattle.raml_syntax.specs.Tree.{Type'};
ghost use Rattle.base_poly.specs.Plain.{deg, degrees};
ghost use Rattle.base_poly.specs.Indices.{IsIndex, AreIndices};
ghost use Rattle.base_poly.specs.Read.{index_of};

use base_poly::{Index, IndexFault, Tuple, indices, multiply};
use indexmap::IndexMap;
use raml_syntax::Ty;
use std::alloc::{AllocError, Global};
use std::fmt::Write;
use std::test::Fail;
use tests_support::index_text::write_index;
use tests_support::types::last_type;

mod tables;

// The sum that a product is.
fn write_sum(out: &mut String, found: &IndexMap<Index, u64>) -> Result<(), AllocError> {
    let mut first = true;
    for (index, number) in found.iter() {
        out.push_str(if first { " = " } else { " + " })?;
        first = false;
        write!(out, "{number} ")?;
        write_index(out, index)?;
    }
    out.push_str("\n")
}

// The line of a product, its sum in order.
fn write_product(
    out: &mut String,
    alloc: Global,
    left: &Index,
    right: &Index,
) -> Result<(), AllocError>
    requires one_type { (A : Type') × IsIndex (index_of left.now) A × IsIndex (index_of right.now) A }
    requires low { (deg (index_of left.now) ≤ 4) × (deg (index_of right.now) ≤ 4) }
{
    write_index(out, left)?;
    out.push_str(" * ")?;
    write_index(out, right)?;
    let mut found = multiply(alloc, left, right)?;
    found.sort_keys()?;
    write_sum(out, &found)
}

// The lines of the products with each of the others, where both have at most degree 4 together.
fn write_products(
    out: &mut String,
    alloc: Global,
    left: &Index,
    others: &[Tuple],
) -> Result<(), AllocError>
    requires one_type { (A : Type') × IsIndex (index_of left.now) A × All (λ t. AreIndices t (A ∷ []) × (degrees t ≤ 3)) others.now }
    requires low { deg (index_of left.now) ≤ 3 }
{
    for other in others {
        let right = &other.parts()[0];
        if left.degree() + right.degree() <= 4 {
            write_product(out, alloc, left, right)?;
        }
    }
    Ok(())
}

// The lines of the products of these tuples of one index.
fn multiplied(alloc: Global, tuples: &[Tuple]) -> Result<String, AllocError>
    requires { (A : Type') × All (λ t. AreIndices t (A ∷ []) × (degrees t ≤ 3)) tuples.now }
{
    let mut out = String::new(alloc);
    for tuple in tuples {
        write_products(&mut out, alloc, &tuple.parts()[0], tuples)?;
    }
    Ok(out)
}

// The lines of the products of indices of the type.
fn products_of(alloc: Global, ty: Ty) -> Result<String, IndexFault> {
    let types = [ty];
    let found = indices(alloc, &types, 3, 2000)?;
    Ok(multiplied(alloc, &found)?)
}

// Types, and the products of their indices.
const PRODUCTS: [(&str, &str); 7] = [
    ("int list", tables::LIST_PRODUCTS),
    ("int list list", tables::NESTED_PRODUCTS),
    ("int tree", tables::LIST_PRODUCTS),
    ("int list int list pair", tables::PAIR_PRODUCTS),
    ("int int list pair list", tables::LIST_OF_PAIRS_PRODUCTS),
    ("int list option", tables::OPTION_PRODUCTS),
    ("int option list", tables::LIST_OF_OPTIONS_PRODUCTS),
];

#[test]
fn products_are_sums(rt: HostRuntime) -> Result<(), Fail> {
    for (words, table) in &PRODUCTS {
        let ty = last_type(rt.alloc(), words)?;
        let products = products_of(rt.alloc(), ty)?;
        assert_eq!(rt; products.as_str(), *table, "of {words}");
    }
    Ok(())
}
