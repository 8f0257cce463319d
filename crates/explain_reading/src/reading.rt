// A bound in algebra.
ghost use Rattle.std.specs.Prelude.{◌≡◌, ◌<ℤ◌, [], pos, unsigned_abs, All, IfOk, string_bytes};
ghost use Rattle.base_poly.specs.Indices.{AreIndices};
ghost use Rattle.base_poly.specs.Poly.{den_of, terms_of, IsPoly};
ghost use Rattle.base_poly.specs.Read.{context_of};
ghost use Rattle.poly_point.specs.Point.{AreLow};
ghost use Rattle.explain_algebra.specs.Algebra.{algebra_text, legend_text, size_names, texts};
ghost use Rattle.explain_nested.specs.Text.{value_names, IsNestedText};
ghost use Rattle.explain_reading.specs.Reading.{used_names, IsReading};

use crate::used::used_names;
use base_poly::Poly;
use bound_compare::{PowerFault, PowerForm, powers};
use explain_algebra::{are_shallow, push_algebra, push_legend, size_names};
use explain_nested::{nested_sum, value_names};
use raml_syntax::Ty;
use std::alloc::{AllocError, Global};

/// A bound in algebra.
#[derive(Debug, Drop)]
pub struct Reading {
    /// The sum, such as `3/2·n² + 1/2·n`.
    pub sum: String,
    /// What the names in it mean, such as `n = |l|`; empty where nothing has to be said.
    pub legend: String,
}

/// The bound in algebra of a function whose parameters have these types and names: in powers of their sizes where
/// nothing that they hold has a size, and else as a sum over elements, also where a number of the powers leaves
/// 128 bits.
pub fn read_bound(
    alloc: Global,
    poly: &Poly,
    types: &[Ty],
    params: &[&str],
) -> Result<Reading, AllocError>
    requires poly { IsPoly poly.now }
    requires tuples { All (λ t. AreIndices t.0 (context_of types.now)) poly.now.terms.items }
    requires low { AreLow poly.now }
    ensures { IfOk result (λ reading. IsReading (context_of types.now) (texts params.now) poly.now
        (string_bytes reading.sum) (string_bytes reading.legend)) }
{
    if are_shallow(types) {
        match powers(alloc, poly, types) {
            Ok(form) => in_powers(alloc, &form, types, params),
            Err(PowerFault::NoMemory) => Err(AllocError),
            Err(PowerFault::Leaves) => over_elements(alloc, poly, params),
        }
    } else {
        over_elements(alloc, poly, params)
    }
}

// The powers, with what the names of sizes mean that occur.
fn in_powers(
    alloc: Global,
    form: &PowerForm,
    types: &[Ty],
    params: &[&str],
) -> Result<Reading, AllocError>
    requires { pos 0 <ℤ form.now.den }
    ensures sum { IfOk result (λ reading. string_bytes reading.sum
        ≡ algebra_text (unsigned_abs form.now.den) (size_names (texts params.now) (context_of types.now)) form.now.terms.items) }
    ensures legend { IfOk result (λ reading. string_bytes reading.legend
        ≡ legend_text (used_names form.now.terms.items (size_names (texts params.now) (context_of types.now))) (texts params.now)) }
{
    let names = size_names(alloc, types, params)?;
    let mut sum = String::new(alloc);
    push_algebra(&mut sum, form, &names)?;
    let used = used_names(alloc, &form.terms, &names)?;
    let mut legend = String::new(alloc);
    push_legend(&mut legend, &used, params)?;
    Ok(Reading { sum, legend })
}

// The sum over elements, which needs no legend.
fn over_elements(alloc: Global, poly: &Poly, params: &[&str]) -> Result<Reading, AllocError>
    requires poly { IsPoly poly.now }
    requires low { AreLow poly.now }
    ensures sum { IfOk result (λ reading. IsNestedText (den_of poly.now) (value_names (texts params.now)) (terms_of poly.now)
        (string_bytes reading.sum)) }
    ensures legend { IfOk result (λ reading. string_bytes reading.legend ≡ []) }
{
    let names = value_names(alloc, params)?;
    let sum = nested_sum(alloc, poly, &names)?;
    let legend = String::new(alloc);
    Ok(Reading { sum, legend })
}
