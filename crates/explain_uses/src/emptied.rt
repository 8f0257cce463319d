// Uses that are emptied.
ghost use Rattle.std.specs.Prelude.{◌≡◌, ◌++◌, IfOk, OnOk, map, string_bytes};
ghost use Rattle.raml_syntax.specs.Read.{ty_of};
ghost use Rattle.explain_edits.specs.Edits.{with_edits};
ghost use Rattle.explain_edits.specs.Read.{edit_of, edits_of};
ghost use Rattle.explain_uses.specs.Emptied as e;
ghost use Rattle.explain_uses.specs.Read.{use_of, uses_of};

use crate::later::LaterUse;
use explain_edits::{Edit, edited};
use raml_syntax::Ty;
use simple_types::push_type;
use std::alloc::{AllocError, Global};

/// The source in which some uses, in their order, are emptied: an empty value of its type stands in place of each variable. All
/// else is kept, layout and comments too.
pub fn emptied_text(alloc: Global, source: &[u8], uses: &[LaterUse]) -> Result<Vec<u8>, AllocError>
    ensures { IfOk result (λ text. text.items ≡ with_edits source.now (map e.edit (uses_of uses.now))) }
{
    edited(alloc, source, &emptying(alloc, uses)?)
}

/// The edits that empty some uses.
pub(crate) fn emptying(alloc: Global, uses: &[LaterUse]) -> Result<Vec<Edit>, AllocError>
    ensures { IfOk result (λ edits. edits_of edits.items ≡ map e.edit (uses_of uses.now)) }
{
    let mut edits = Vec::new(alloc);
    for later in uses {
        edits.push(edit(alloc, later)?)?;
    }
    Ok(edits)
}

/// The edit that empties a use.
fn edit(alloc: Global, later: &LaterUse) -> Result<Edit, AllocError>
    ensures { IfOk result (λ edit. edit_of edit ≡ e.edit (use_of later.now)) }
{
    Ok(Edit {
        at: later.at.0 as usize,
        length: later.variable.text().len(),
        text: typed_empty(alloc, later.ty)?,
    })
}

/// An empty value of a type, with the type.
fn typed_empty(alloc: Global, ty: &Ty) -> Result<String, AllocError>
    ensures { IfOk result (λ text. string_bytes text ≡ e.typed_empty (ty_of ty.now)) }
{
    let mut text = String::from_str(alloc, "(")?;
    push_empty(&mut text, ty)?;
    text.push_str(" : ")?;
    push_type(&mut text, ty)?;
    text.push_str(")")?;
    Ok(text)
}

/// Appends an empty value of a type.
fn push_empty(text: &mut String, ty: &Ty) -> Result<(), AllocError>
    ensures { OnOk result (string_bytes text.new ≡ string_bytes text.old ++ e.empty (ty_of ty.now)) }
{
    match ty {
        Ty::Int => text.push_str("0"),
        Ty::Bool => text.push_str("false"),
        Ty::Pair(first, second) => {
            text.push_str("(")?;
            push_empty(text, first)?;
            text.push_str(", ")?;
            push_empty(text, second)?;
            text.push_str(")")
        }
        Ty::List(_) => text.push_str("nil"),
        Ty::Tree(_) => text.push_str("leaf"),
        Ty::Opt(_) => text.push_str("none"),
    }
}
