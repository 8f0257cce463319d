// The report of a fault of data.
ghost use Rattle.std.specs.Prelude.{◌≡◌, ◌++◌, OnOk, string_bytes};
ghost use Rattle.raml_syntax.specs.Tree.{Text};
ghost use Rattle.explain_data.specs.Data.{data_place, ToldAt};

use crate::message::{TOO_DEEP, not_utf8, wrong_shape};
use explain_check::{push_error, push_fault};
use raml_syntax::Ty;
use std::alloc::{AllocError, Global};
use value_text::DataFault;

/// Appends why the data of this name spells no arguments of the types.
pub fn push_data_fault(
    alloc: Global,
    name: &str,
    bytes: &[u8],
    types: &[Ty],
    fault: DataFault,
    report: &mut String,
) -> Result<(), AllocError>
    ensures told { OnOk result ((part : Text) × ToldAt name.now bytes.now (data_place fault) part
        × (string_bytes report.new ≡ string_bytes report.old ++ part)) }
    ensures memory { OnOk result (fault ≡ DataFault.NoMemory → ⊥) }
{
    match fault {
        DataFault::NotUtf8 { at } => {
            let at = at.0 as usize;
            let text = not_utf8(alloc, bytes, at)?;
            push_fault(alloc, name, bytes, at, text.as_str(), report)
        }
        DataFault::Shape { at } => {
            let at = at.0 as usize;
            let text = wrong_shape(alloc, bytes, types, at)?;
            push_fault(alloc, name, bytes, at, text.as_str(), report)
        }
        DataFault::TooDeep { at } => {
            push_fault(alloc, name, bytes, at.0 as usize, TOO_DEEP, report)
        }
        DataFault::TooManyCells => push_error(name, "more than 1048576 cells", report),
        DataFault::NoMemory => Err(AllocError),
    }
}
