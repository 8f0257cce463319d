// Texts of types.
ghost use Rattle.std.specs.Prelude.{◌≡◌, ◌++◌, OnOk, string_bytes};
ghost use Rattle.raml_syntax.specs.Read.{ty_of};
ghost use Rattle.simple_types.specs.Read.{kind_of};
ghost use Rattle.simple_types.specs.Text.{text_as, type_text, kind_text};

use crate::fault::Shape;
use raml_syntax::Ty;
use std::alloc::AllocError;

/// Appends a type, which may be an operand: then a pair has parentheses.
fn push_operand(text: &mut String, ty: &Ty, operand: bool) -> Result<(), AllocError>
    ensures { OnOk result (string_bytes text.new ≡ string_bytes text.old ++ text_as operand (ty_of ty.now)) }
{
    match ty {
        Ty::Int => text.push_str("int"),
        Ty::Bool => text.push_str("bool"),
        Ty::Pair(first, second) => {
            text.push_str(if operand { "(" } else { "" })?;
            push_operand(text, first, true)?;
            text.push_str(" * ")?;
            push_operand(text, second, false)?;
            text.push_str(if operand { ")" } else { "" })
        }
        Ty::List(element) => {
            push_operand(text, element, true)?;
            text.push_str(" list")
        }
        Ty::Tree(element) => {
            push_operand(text, element, true)?;
            text.push_str(" tree")
        }
        Ty::Opt(content) => {
            push_operand(text, content, true)?;
            text.push_str(" option")
        }
    }
}

/// Appends the text of a type, with the fewest parentheses.
pub fn push_type(text: &mut String, ty: &Ty) -> Result<(), AllocError>
    ensures { OnOk result (string_bytes text.new ≡ string_bytes text.old ++ type_text (ty_of ty.now)) }
{
    push_operand(text, ty, false)
}

/// Appends the text of a shape: that of its type, or `some list`, `some tree`, `some option`,
/// `some pair`.
pub fn push_shape(text: &mut String, shape: &Shape) -> Result<(), AllocError>
    ensures { OnOk result (string_bytes text.new ≡ string_bytes text.old ++ kind_text (kind_of shape.now)) }
{
    match shape {
        Shape::Is(ty) => push_type(text, ty),
        Shape::SomeList => text.push_str("some list"),
        Shape::SomeTree => text.push_str("some tree"),
        Shape::SomeOption => text.push_str("some option"),
        Shape::SomePair => text.push_str("some pair"),
    }
}
