// The parameter whose size is drawn.
ghost use Rattle.std.specs.Prelude.{◌≡◌, ◌<◌, ◌++◌, length, IfSome, OnOk, string_bytes};
ghost use Rattle.raml_syntax.specs.Read.{parameter_of, ty_of};
ghost use Rattle.explain_words.specs.Spelled.{lent};
ghost use Rattle.explain_plot.specs.Along.{has_size, is_named, no_parameter, parameters_of, sized};

use explain_words::PlotWords;
use raml_syntax::{Param, Ty};
use std::alloc::AllocError;
use std::fmt::Write;

/// The place of the first parameter of the name, or of any where there is none, that is a list or a tree.
pub(crate) fn sized(params: &[Param], name: Option<&str>) -> Option<usize>
    ensures place { result ≡ sized (lent name.entry) (parameters_of params.now) }
    ensures within { IfSome result (λ place. place < length params.now) }
{
    match params {
        [] => None,
        [first, rest @ ..] => {
            if is_named(first, name) && has_size(&first.ty) {
                Some(0)
            } else {
                Some(sized(rest, name)? + 1)
            }
        }
    }
}

/// Whether a parameter has this name, where there is one.
fn is_named(param: &Param, name: Option<&str>) -> bool
    ensures { result ≡ is_named (lent name.entry) (parameter_of param.now) }
{
    match name {
        Some(name) => param.name.text() == name,
        None => true,
    }
}

/// Whether values of a type are lists or trees.
fn has_size(ty: &Ty) -> bool
    ensures { result ≡ has_size (ty_of ty.now) }
{
    match ty {
        Ty::List(_) => true,
        Ty::Tree(_) => true,
        Ty::Int => false,
        Ty::Bool => false,
        Ty::Pair(..) => false,
        Ty::Opt(_) => false,
    }
}

/// Appends that the function has no such parameter.
pub(crate) fn push_no_parameter(
    words: &PlotWords<'_>,
    report: &mut String,
) -> Result<(), AllocError>
    ensures { OnOk result (string_bytes report.new ≡ string_bytes report.old ++ no_parameter words.now) }
{
    let file = words.file;
    let function = words.name;
    match words.parameter {
        Some(name) => write!(
            report,
            "{file}: error: {function} has no parameter {name} that is a list or a tree\n"
        ),
        None => write!(
            report,
            "{file}: error: {function} has no parameter that is a list or a tree\n"
        ),
    }
}
