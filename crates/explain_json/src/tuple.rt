// Tuples as text.
ghost use Rattle.std.specs.Prelude.{◌≡◌, ◌++◌, string_bytes, OnOk};
ghost use Rattle.base_poly.specs.Plain.{many};
ghost use Rattle.base_poly.specs.Read.{index_of, plains_of};
ghost use Rattle.poly_text.specs.Text.{index_text, entries_text};
ghost use Rattle.explain_json.specs.Terms.{tuple_text};

use base_poly::{Index, Tuple};
use std::alloc::AllocError;

/// Appends a tuple as it is printed, such as `<[_, _], []>`, also that of degree 0.
pub fn push_tuple(text: &mut String, tuple: &Tuple) -> Result<(), AllocError>
    ensures { OnOk result (string_bytes text.new ≡ string_bytes text.old ++ tuple_text tuple.now) }
{
    text.push_str("<")?;
    push_entries(text, tuple.parts())?;
    text.push_str(">")
}

#[cycle(index)]
fn push_index(text: &mut String, index: &Index) -> Result<(), AllocError>
    ensures { OnOk result (string_bytes text.new ≡ string_bytes text.old ++ index_text (index_of index.now)) }
{
    match index {
        Index::Unit => text.push_str("_"),
        Index::Pair(first, second) => {
            text.push_str("(")?;
            push_index(text, first)?;
            text.push_str(", ")?;
            push_index(text, second)?;
            text.push_str(")")
        }
        Index::List(entries) => push_list(text, entries),
        Index::Opt(None) => text.push_str("[]"),
        Index::Opt(Some(entry)) => {
            text.push_str("[")?;
            push_index(text, entry)?;
            text.push_str("]")
        }
    }
}

#[cycle(index)]
fn push_list(text: &mut String, entries: &[Index]) -> Result<(), AllocError>
    ensures { OnOk result (string_bytes text.new ≡ string_bytes text.old ++ index_text (many (plains_of entries.now))) }
{
    text.push_str("[")?;
    push_entries(text, entries)?;
    text.push_str("]")
}

#[cycle(index)]
fn push_entries(text: &mut String, entries: &[Index]) -> Result<(), AllocError>
    ensures { OnOk result (string_bytes text.new ≡ string_bytes text.old ++ entries_text (many (plains_of entries.now))) }
{
    let mut first = true;
    for entry in entries {
        if !first {
            text.push_str(", ")?;
        }
        first = false;
        push_index(text, entry)?;
    }
    Ok(())
}
