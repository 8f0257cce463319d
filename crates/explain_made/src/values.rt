// The texts of made values.
ghost use Rattle.std.specs.Prelude.{OnOk, string_bytes};
ghost use Rattle.raml_syntax.specs.Tree.{Integer, Boolean, PairOf, ListOf, TreeOf, OptionOf};
ghost use Rattle.raml_syntax.specs.Read.{ty_of};
ghost use Rattle.explain_made.specs.Made.{AddsValue, AddsItems};

use crate::maker::{Maker, inner_size};
use itoa::Buffer;
use raml_syntax::Ty;
use std::alloc::AllocError;

/// Appends the text of a made value of the type. Its lists and trees have `size` elements at the outside, and it
/// is an element with so many before it.
#[cycle(values)]
pub fn push_value(
    text: &mut String,
    maker: &mut Maker,
    ty: &Ty,
    size: u32,
    before: u32,
) -> Result<(), AllocError>
    ensures { OnOk result (AddsValue (ty_of ty.now) (string_bytes text.old) (string_bytes text.new)) }
{
    match ty {
        Ty::Int => push_number(text, i64::from(maker.number(before))),
        Ty::Bool => push_truth(text, maker.up_to(1) == 1),
        Ty::Pair(first, second) => push_pair(text, maker, first, second, size, before),
        Ty::List(element) => push_list(text, maker, element, size),
        Ty::Tree(element) => push_tree(text, maker, element, size, 0),
        Ty::Opt(content) => push_option(text, maker, content, size, before),
    }
}

/// Appends a number.
fn push_number(text: &mut String, number: i64) -> Result<(), AllocError>
    ensures { OnOk result (AddsValue Integer (string_bytes text.old) (string_bytes text.new)) }
{
    text.push_str(Buffer::new().format(number))
}

/// Appends a truth.
fn push_truth(text: &mut String, truth: bool) -> Result<(), AllocError>
    ensures { OnOk result (AddsValue Boolean (string_bytes text.old) (string_bytes text.new)) }
{
    if truth {
        text.push_str("true")
    } else {
        text.push_str("false")
    }
}

/// Appends a pair, both of whose parts are elements with so many before them.
#[cycle(values)]
fn push_pair(
    text: &mut String,
    maker: &mut Maker,
    first: &Ty,
    second: &Ty,
    size: u32,
    before: u32,
) -> Result<(), AllocError>
    ensures { OnOk result (AddsValue (PairOf (ty_of first.now) (ty_of second.now)) (string_bytes text.old) (string_bytes text.new)) }
{
    let _ = maker.takes_cell();
    text.push_str("(")?;
    push_value(text, maker, first, size, before)?;
    text.push_str(", ")?;
    push_value(text, maker, second, size, before)?;
    text.push_str(")")
}

/// Appends a list of so many elements, or of fewer where no more cells may be made.
#[cycle(values)]
fn push_list(
    text: &mut String,
    maker: &mut Maker,
    element: &Ty,
    count: u32,
) -> Result<(), AllocError>
    ensures { OnOk result (AddsValue (ListOf (ty_of element.now)) (string_bytes text.old) (string_bytes text.new)) }
{
    if count == 0 {
        return text.push_str("[]");
    }
    if !maker.takes_cell() {
        return text.push_str("[]");
    }
    text.push_str("[")?;
    push_value(text, maker, element, inner_size(count), 0)?;
    push_others(text, maker, element, count)?;
    text.push_str("]")
}

/// Appends the elements of a list of so many behind its first, each behind a comma.
#[cycle(values)]
fn push_others(
    text: &mut String,
    maker: &mut Maker,
    element: &Ty,
    count: u32,
) -> Result<(), AllocError>
    ensures { OnOk result (AddsItems (ty_of element.now) (string_bytes text.old) (string_bytes text.new)) }
{
    'elements: for before in 1..count {
        if !maker.takes_cell() {
            return Ok(());
        }
        text.push_str(", ")?;
        push_value(text, maker, element, inner_size(count), before)?;
    }
    Ok(())
}

/// Appends a balanced tree of so many elements, or of fewer where no more cells may be made. So many elements
/// stand before it, in the order of left tree, element, right tree.
#[cycle(values)]
fn push_tree(
    text: &mut String,
    maker: &mut Maker,
    element: &Ty,
    count: u32,
    before: u32,
) -> Result<(), AllocError>
    ensures { OnOk result (AddsValue (TreeOf (ty_of element.now)) (string_bytes text.old) (string_bytes text.new)) }
{
    if count == 0 {
        return text.push_str("leaf");
    }
    if !maker.takes_cell() {
        return text.push_str("leaf");
    }
    let left = (count - 1) / 2;
    let place = before.saturating_add(left);
    text.push_str("node(")?;
    push_value(text, maker, element, inner_size(count), place)?;
    text.push_str(", ")?;
    push_tree(text, maker, element, left, before)?;
    text.push_str(", ")?;
    push_tree(
        text,
        maker,
        element,
        count - 1 - left,
        place.saturating_add(1),
    )?;
    text.push_str(")")
}

/// Appends an option, which has a content seven times in eight.
#[cycle(values)]
fn push_option(
    text: &mut String,
    maker: &mut Maker,
    content: &Ty,
    size: u32,
    before: u32,
) -> Result<(), AllocError>
    ensures { OnOk result (AddsValue (OptionOf (ty_of content.now)) (string_bytes text.old) (string_bytes text.new)) }
{
    if maker.up_to(7) == 0 {
        return text.push_str("none");
    }
    if !maker.takes_cell() {
        return text.push_str("none");
    }
    text.push_str("some(")?;
    push_value(text, maker, content, size, before)?;
    text.push_str(")")
}
