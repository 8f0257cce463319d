// Made arguments.
ghost use Rattle.std.specs.Prelude.{◌≡◌, ◌*◌, ◌+◌, IfOk, OnOk, map, length, string_bytes, vec_len};
ghost use Rattle.std.specs.List.{All};
ghost use Rattle.raml_syntax.specs.Read.{ty_of, function_of};
ghost use Rattle.raml_syntax.specs.Types.{types_of};
ghost use Rattle.explain_made.specs.Made.{types_in, AreArguments, AddsValue, AddsMore, AddsArguments};

use crate::maker::{Maker, Shape};
use crate::values::push_value;
use raml_syntax::{Fun, Param};
use std::alloc::{AllocError, Global};

/// The text of arguments of a function, as a run reads them. Its lists and trees have `size` elements at the
/// outside, and a few inside; their numbers are at most twice `size`. Where there is a place `along`, the parameter there
/// alone has this size, and the others have 8 elements. The seed alone decides what is random.
pub fn made_arguments(
    alloc: Global,
    function: &Fun,
    along: Option<usize>,
    size: u32,
    shape: Shape,
    seed: u64,
) -> Result<String, AllocError>
    ensures { IfOk result (λ text. AreArguments (types_of (function_of function.now)) (string_bytes text)) }
{
    let mut text = String::new(alloc);
    let mut maker = Maker::new(along, size, shape, seed);
    push_arguments(&mut text, &mut maker, &function.params)?;
    Ok(text)
}

/// Appends arguments of these parameters: a value, or several in parentheses.
fn push_arguments(text: &mut String, maker: &mut Maker, params: &[Param]) -> Result<(), AllocError>
    ensures { OnOk result (AddsArguments (types_in params.now) (string_bytes text.old) (string_bytes text.new)) }
{
    match params {
        [] => Ok(()),
        [one] => push_argument(text, maker, one, 0),
        [first, rest @ ..] => {
            text.push_str("(")?;
            push_argument(text, maker, first, 0)?;
            push_more(text, maker, rest, 1)
        }
    }
}

/// Appends an argument of the parameter at the place.
fn push_argument(
    text: &mut String,
    maker: &mut Maker,
    param: &Param,
    place: usize,
) -> Result<(), AllocError>
    ensures { OnOk result (AddsValue (ty_of param.now.ty) (string_bytes text.old) (string_bytes text.new)) }
{
    let most = maker.size();
    let before = maker.up_to(most);
    let size = maker.size_at(place);
    push_value(text, maker, &param.ty, size, before)
}

/// Appends the arguments from the place on, which is not the first of several.
fn push_more(
    text: &mut String,
    maker: &mut Maker,
    params: &[Param],
    place: usize,
) -> Result<(), AllocError>
    ensures { OnOk result (AddsMore (types_in params.now) (string_bytes text.old) (string_bytes text.new)) }
{
    match params {
        [] => text.push_str(")"),
        [first, rest @ ..] => {
            text.push_str(", ")?;
            push_argument(text, maker, first, place)?;
            push_more(text, maker, rest, place.saturating_add(1))
        }
    }
}

/// The texts of arguments of a function, of each of these sizes in each shape.
pub fn made_texts(
    alloc: Global,
    function: &Fun,
    sizes: &[u32],
    seed: u64,
) -> Result<Vec<String>, AllocError>
    ensures arguments { IfOk result
        (λ texts. All (λ text. AreArguments (types_of (function_of function.now)) (string_bytes text)) texts.items) }
    ensures count { IfOk result (λ texts. length texts.items ≡ 3 * length sizes.now) }
{
    let mut texts = Vec::new(alloc);
    for size in sizes {
        push_texts(alloc, &mut texts, function, *size, seed)?;
    }
    Ok(texts)
}

/// Appends the texts of arguments of a function of one size.
fn push_texts(
    alloc: Global,
    texts: &mut Vec<String>,
    function: &Fun,
    size: u32,
    seed: u64,
) -> Result<(), AllocError>
    requires { All (λ text. AreArguments (types_of (function_of function.now)) (string_bytes text)) texts.old.items }
    ensures arguments { OnOk result (All (λ text. AreArguments (types_of (function_of function.now)) (string_bytes text)) texts.new.items) }
    ensures count { OnOk result (length texts.new.items ≡ length texts.old.items + 3) }
{
    for shape in [Shape::Random, Shape::Ascending, Shape::Descending] {
        texts.push(made_arguments(alloc, function, None, size, shape, seed)?)?;
    }
    Ok(())
}
