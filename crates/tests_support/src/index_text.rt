//! The text of indices and tuples, as the tables have it.
use base_poly::{Index, Tuple};
use std::alloc::AllocError;

/// Appends the text of an index.
#[cycle(write)]
pub fn write_index(out: &mut String, index: &Index) -> Result<(), AllocError> {
    match index {
        Index::Unit => out.push_str("_"),
        Index::Pair(first, second) => {
            out.push_str("(")?;
            write_index(out, first)?;
            out.push_str(", ")?;
            write_index(out, second)?;
            out.push_str(")")
        }
        Index::List(entries) => {
            out.push_str("[")?;
            write_all(out, entries)?;
            out.push_str("]")
        }
        Index::Opt(None) => out.push_str("[]"),
        Index::Opt(Some(entry)) => {
            out.push_str("[")?;
            write_index(out, entry)?;
            out.push_str("]")
        }
    }
}

/// Appends the texts of indices, with commas between.
#[cycle(write)]
pub fn write_all(out: &mut String, indices: &[Index]) -> Result<(), AllocError> {
    let mut first = true;
    for index in indices {
        if !first {
            out.push_str(", ")?;
        }
        first = false;
        write_index(out, index)?;
    }
    Ok(())
}

/// Appends a line with the text of a tuple.
pub fn write_tuple(out: &mut String, tuple: &Tuple) -> Result<(), AllocError> {
    out.push_str("<")?;
    write_all(out, tuple.parts())?;
    out.push_str(">\n")
}
