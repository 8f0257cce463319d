// The headers of functions.
ghost use Rattle.std.specs.Prelude.{◌≡◌, ◌++◌, map, IfOk, OnOk, string_bytes};
ghost use Rattle.raml_syntax.specs.Read.{function_of, parameter_of};
ghost use Rattle.explain_insight.specs.Header.{header, parameter_text, parameters_text, parameters_behind};

use raml_syntax::{Fun, Param};
use simple_types::push_type;
use std::alloc::{AllocError, Global};

/// A function's header, as a source has it.
pub(crate) fn header(alloc: Global, fun: &Fun) -> Result<String, AllocError>
    ensures { IfOk result (λ text. string_bytes text ≡ header (function_of fun.now)) }
{
    let mut text = String::from_str(alloc, "fun ")?;
    text.push_str(fun.name.text())?;
    text.push_str("(")?;
    push_parameters(&mut text, &fun.params)?;
    text.push_str(") : ")?;
    push_type(&mut text, &fun.result)?;
    Ok(text)
}

fn push_parameters(text: &mut String, params: &[Param]) -> Result<(), AllocError>
    ensures { OnOk result (string_bytes text.new ≡ string_bytes text.old ++ parameters_text (map parameter_of params.now)) }
{
    let [first, rest @ ..] = params else {
        return Ok(());
    };
    push_parameter(text, first)?;
    push_parameters_behind(text, rest)
}

fn push_parameters_behind(text: &mut String, params: &[Param]) -> Result<(), AllocError>
    ensures { OnOk result (string_bytes text.new ≡ string_bytes text.old ++ parameters_behind (map parameter_of params.now)) }
{
    for param in params {
        text.push_str(", ")?;
        push_parameter(text, param)?;
    }
    Ok(())
}

/// Appends a parameter with its type.
pub(crate) fn push_parameter(text: &mut String, param: &Param) -> Result<(), AllocError>
    ensures { OnOk result (string_bytes text.new ≡ string_bytes text.old ++ parameter_text (parameter_of param.now)) }
{
    text.push_str(param.name.text())?;
    text.push_str(" : ")?;
    push_type(text, &param.ty)
}
