// What a line declares, at tuples.
ghost use Rattle.std.specs.Prelude.{◌≡◌, ◌≤◌, IfOk, map, length};
ghost use Rattle.raml_syntax.specs.Types.{types_of};
ghost use Rattle.raml_syntax.specs.Read.{function_of};
ghost use Rattle.base_poly.specs.Read.{context_of};
ghost use Rattle.base_poly.specs.Indices.{index_list};
ghost use Rattle.bound_file.specs.Lines.{AreBelow};
ghost use Rattle.bound_file.specs.Read.{coefficients_of, line_of, IsSound};
ghost use Rattle.explain_verdicts.specs.Fractions.{fraction_at, fractions_of, ArePlaced};
ghost use Rattle.explain_verdicts.specs.Written.{AreFractions};

use crate::laws::lines_have_fractions;
use base_poly::{IndexFault, Tuple, indices};
use bound_file::DeclLine;
use explain_bounds::parameter_types;
use raml_syntax::{Fun, Ty};
use std::alloc::{AllocError, Global};

/// The greatest number of tuples of a function with a declared bound.
const MOST_TUPLES: usize = 2000;

/// What is declared at a tuple: a numerator over a denominator.
#[derive(Debug, Drop)]
pub struct Fraction {
    pub tuple: Tuple,
    pub numerator: u128,
    pub denominator: u128,
}

/// What a line declares of this function, at a degree.
pub(crate) fn fractions_of(
    alloc: Global,
    fun: &Fun,
    degree: u8,
    line: &DeclLine,
) -> Result<Vec<Fraction>, AllocError>
    requires degree { degree ≤ 4 }
    requires sound { IsSound line.now }
    requires placed { ArePlaced (types_of (function_of fun.now)) degree (line_of line.now).bound }
    ensures is { IfOk result (λ fractions.
        fractions.items ≡ fractions_of (types_of (function_of fun.now)) degree (line_of line.now).bound) }
    ensures are { IfOk result (λ fractions. AreFractions (types_of (function_of fun.now)) fractions.items) }
{
    lines_have_fractions();
    let types = parameter_types(alloc, &fun.params)?;
    fractions(alloc, &types, degree, &line.bound)
}

// What a bound declares of parameters of these types, at a degree.
fn fractions(
    alloc: Global,
    types: &[Ty],
    degree: u8,
    bound: &[(u32, i128, i128)],
) -> Result<Vec<Fraction>, AllocError>
    requires { ArePlaced (context_of types.now) degree (coefficients_of bound.now) }
    ensures { IfOk result (λ fractions. fractions.items ≡ fractions_of (context_of types.now) degree (coefficients_of bound.now)) }
{
    if bound.is_empty() {
        return Ok(Vec::new(alloc));
    }
    match indices(alloc, types, degree, MOST_TUPLES) {
        Ok(tuples) => at_positions(alloc, &tuples, bound),
        Err(IndexFault::NoMemory) => Err(AllocError),
        Err(IndexFault::TooMany) => unreachable!(),
    }
}

// The coefficients with the tuples at their positions.
fn at_positions(
    alloc: Global,
    tuples: &[Tuple],
    bound: &[(u32, i128, i128)],
) -> Result<Vec<Fraction>, AllocError>
    requires { AreBelow (length tuples.now) (coefficients_of bound.now) }
    ensures { IfOk result (λ fractions. fractions.items ≡ map (fraction_at tuples.now) (coefficients_of bound.now)) }
{
    let mut fractions = Vec::with_capacity(alloc, bound.len())?;
    for (position, numerator, denominator) in bound {
        fractions.push(Fraction {
            tuple: tuples[*position as usize].copy(alloc)?,
            numerator: numerator.unsigned_abs(),
            denominator: denominator.unsigned_abs(),
        })?;
    }
    Ok(fractions)
}
