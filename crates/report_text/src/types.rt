// The types of functions.
ghost use Rattle.std.specs.Prelude.{◌≡◌, ◌++◌, IfOk, OnOk, string_bytes};
ghost use Rattle.raml_syntax.specs.Read.{function_of, program_of};
ghost use Rattle.report_text.specs.Report.{types_in, types_behind, types_text, type_line, type_lines};

use raml_syntax::{Fun, Param, Program};
use simple_types::push_type;
use std::alloc::{AllocError, Global};

/// The lines of the functions of a program: each function's name and types.
pub fn type_lines(alloc: Global, program: &Program) -> Result<String, AllocError>
    ensures { IfOk result (λ text. string_bytes text ≡ type_lines (program_of program.now)) }
{
    let mut text = String::new(alloc);
    for fun in &program.funs {
        push_type_line(&mut text, fun)?;
    }
    Ok(text)
}

fn push_type_line(text: &mut String, fun: &Fun) -> Result<(), AllocError>
    ensures { OnOk result (string_bytes text.new ≡ string_bytes text.old ++ type_line (function_of fun.now)) }
{
    text.push_str(fun.name.text())?;
    text.push_str(" (")?;
    push_types(text, &fun.params)?;
    text.push_str(") : ")?;
    push_type(text, &fun.result)?;
    text.push_str("\n")
}

fn push_types(text: &mut String, params: &[Param]) -> Result<(), AllocError>
    ensures { OnOk result (string_bytes text.new ≡ string_bytes text.old ++ types_text (types_in params.now)) }
{
    let [first, rest @ ..] = params else {
        return Ok(());
    };
    push_type(text, &first.ty)?;
    push_types_behind(text, rest)
}

fn push_types_behind(text: &mut String, params: &[Param]) -> Result<(), AllocError>
    ensures { OnOk result (string_bytes text.new ≡ string_bytes text.old ++ types_behind (types_in params.now)) }
{
    for param in params {
        text.push_str(", ")?;
        push_type(text, &param.ty)?;
    }
    Ok(())
}
