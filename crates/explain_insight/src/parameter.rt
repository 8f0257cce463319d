// What is told of a parameter on its name.
ghost use Rattle.std.specs.Prelude.{◌≡◌, ◌++◌, ◌<◌, All, IfOk, OnOk, codes, length, string_bytes};
ghost use Rattle.raml_syntax.specs.Read.{parameter_of};
ghost use Rattle.explain_algebra.specs.Algebra.{led};
ghost use Rattle.explain_at.specs.Asked.{names_of};
ghost use Rattle.explain_at.specs.Read.{texts};
ghost use Rattle.explain_insight.specs.Header.{parameter_text};
ghost use Rattle.explain_insight.specs.Hovers.{IsOnParameter, sizes_text};
ghost use Rattle.explain_insight.specs.Read.{IsHoverIn};
ghost use Rattle.raml_syntax.specs.Read.{ty_of};

use crate::analysed::Analysed;
use crate::fenced::fenced;
use crate::header::push_parameter;
use explain_at::size_names;
use lsp_language::{Hover, Span};
use raml_syntax::Param;
use std::alloc::{AllocError, Global};
use std::slice;

/// Appends what is told of the parameters of a program.
pub(crate) fn push_parameter_hovers(
    alloc: Global,
    hovers: &mut Vec<Hover>,
    analysed: &Analysed<'_>,
) -> Result<(), AllocError>
    requires { All (IsHoverIn analysed.now) hovers.old.items }
    ensures { OnOk result (All (IsHoverIn analysed.now) hovers.new.items) }
{
    for place in 0..analysed.program.funs.len() {
        push_hovers_of(alloc, hovers, analysed, place)?;
    }
    Ok(())
}

/// Appends what is told of those of the function at a place.
fn push_hovers_of(
    alloc: Global,
    hovers: &mut Vec<Hover>,
    analysed: &Analysed<'_>,
    place: usize,
) -> Result<(), AllocError>
    requires place { place < length analysed.now.program.now.funs.items }
    requires hovers { All (IsHoverIn analysed.now) hovers.old.items }
    ensures { OnOk result (All (IsHoverIn analysed.now) hovers.new.items) }
{
    let fun = &analysed.program.funs[place];
    for index in 0..fun.params.len() {
        hovers.push(parameter_hover(alloc, &fun.params[index])?)?;
    }
    Ok(())
}

/// What is told of a parameter: its type, and the names of its sizes.
fn parameter_hover(alloc: Global, param: &Param) -> Result<Hover, AllocError>
    ensures { IfOk result (IsOnParameter (parameter_of param.now)) }
{
    let start = param.at.0 as usize;
    let mut lines = Vec::new(alloc);
    lines.push(typed_name(alloc, param)?)?;
    lines.push(sizes(alloc, param)?)?;
    Ok(Hover {
        span: Span {
            start,
            end: start + param.name.text().len(),
        },
        text: fenced(alloc, &lines)?,
    })
}

/// A parameter with its type.
fn typed_name(alloc: Global, param: &Param) -> Result<String, AllocError>
    ensures { IfOk result (λ text. string_bytes text ≡ parameter_text (parameter_of param.now)) }
{
    let mut text = String::new(alloc);
    push_parameter(&mut text, param)?;
    Ok(text)
}

/// The names of its sizes.
fn sizes(alloc: Global, param: &Param) -> Result<String, AllocError>
    ensures { IfOk result (λ text. string_bytes text ≡ sizes_text (names_of param.now.name (ty_of param.now.ty))) }
{
    let names = size_names(alloc, slice::from_ref(param))?;
    sizes_of(alloc, &names)
}

fn sizes_of(alloc: Global, names: &[String]) -> Result<String, AllocError>
    ensures { IfOk result (λ text. string_bytes text ≡ sizes_text (texts names.now)) }
{
    match names {
        [] => String::from_str(alloc, "no size"),
        [first, rest @ ..] => {
            let mut text = String::from_str(alloc, "sizes: ")?;
            text.push_str(first)?;
            push_more(&mut text, rest)?;
            Ok(text)
        }
    }
}

fn push_more(text: &mut String, names: &[String]) -> Result<(), AllocError>
    ensures { OnOk result (string_bytes text.new ≡ string_bytes text.old ++ led (codes ", ") (texts names.now)) }
{
    for name in names {
        text.push_str(", ")?;
        text.push_str(name)?;
    }
    Ok(())
}
