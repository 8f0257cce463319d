// The bound of a function and a meter.
ghost use Rattle.std.specs.Prelude.{◌≡◌, ◌++◌, All, IfOk, OnOk, string_bytes};
ghost use Rattle.raml_syntax.specs.Tree.{Text};
ghost use Rattle.raml_syntax.specs.Types.{types_of};
ghost use Rattle.raml_syntax.specs.Read.{function_of};
ghost use Rattle.base_poly.specs.Read.{context_of};
ghost use Rattle.base_poly.specs.Poly.{IsPoly};
ghost use Rattle.base_poly.specs.Indices.{AreIndices};
ghost use Rattle.poly_point.specs.Point.{AreLow};
ghost use Rattle.explain_algebra.specs.Algebra.{texts};
ghost use Rattle.explain_bounds.specs.Lines.{legend_behind, TellsBound};
ghost use Rattle.explain_bounds.specs.Read.{names_in, told_of, CanBeFitted};
ghost use Rattle.report_text.specs.Report.{types_in};

use crate::fitted::Fitted;
use crate::tail::push_tail;
use base_poly::Poly;
use cost_free::Meter;
use explain_reading::read_bound;
use raml_syntax::{Fun, Param, Ty};
use std::alloc::{AllocError, Global};

/// Appends what a bound tells of a function and a meter.
pub(crate) fn push_bound(
    alloc: Global,
    text: &mut String,
    fun: &Fun,
    meter: Meter,
    poly: &Poly,
    fitted: &Fitted<'_>,
) -> Result<(), AllocError>
    requires poly { IsPoly poly.now }
    requires tuples { All (λ t. AreIndices t.0 (types_of (function_of fun.now))) poly.now.terms.items }
    requires low { AreLow poly.now }
    requires most { CanBeFitted fitted.now }
    ensures { OnOk result ((told : Text) × TellsBound (function_of fun.now) (told_of fitted.now) meter poly.now told
        × (string_bytes text.new ≡ string_bytes text.old ++ told)) }
{
    let types = parameter_types(alloc, &fun.params)?;
    let names = parameter_names(alloc, &fun.params)?;
    let reading = read_bound(alloc, poly, &types, &names)?;
    text.push_str(" ≤ ")?;
    text.push_str(&reading.sum)?;
    push_tail(alloc, text, &fun.params, meter, poly, fitted)?;
    push_legend(text, &reading.legend)
}

/// Appends what the names mean behind three spaces, where something has to be said.
pub fn push_legend(text: &mut String, legend: &str) -> Result<(), AllocError>
    ensures { OnOk result (string_bytes text.new ≡ string_bytes text.old ++ legend_behind legend.now) }
{
    if legend.is_empty() {
        Ok(())
    } else {
        text.push_str("   ")?;
        text.push_str(legend)
    }
}

/// The types of parameters.
pub fn parameter_types(alloc: Global, params: &[Param]) -> Result<Vec<Ty>, AllocError>
    ensures { IfOk result (λ types. context_of types.items ≡ types_in params.now) }
{
    let mut types = Vec::with_capacity(alloc, params.len())?;
    for param in params {
        types.push(param.ty.copy(alloc)?)?;
    }
    Ok(types)
}

/// The names of parameters.
pub fn parameter_names<'a>(alloc: Global, params: &'a [Param]) -> Result<Vec<&'a str>, AllocError>
    ensures { IfOk result (λ names. texts names.items ≡ names_in params.now) }
{
    let mut names = Vec::with_capacity(alloc, params.len())?;
    for param in params {
        names.push(param.name.text())?;
    }
    Ok(names)
}
