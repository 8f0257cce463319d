// Checks of the bytes of data, and of a file of data.
ghost use Rattle.std.specs.Prelude.{◌≡◌, ◌≤◌, ◌++◌, IfOk, length, map, string_bytes};
ghost use Rattle.raml_syntax.specs.Tree.{Text};
ghost use Rattle.raml_syntax.specs.Read.{ty_of};
ghost use Rattle.explain_check.specs.Stores.{store_of};
ghost use Rattle.explain_data.specs.Data.{DataIs, DataFileIs};

use crate::finding::Finding;
use crate::report::push_data_fault;
use explain_check::read_file;
use raml_io::Store;
use raml_syntax::Ty;
use std::alloc::{AllocError, Global};
use value_text::{DataHeap, read_args};

/// The limit of data, in bytes.
pub const MOST_BYTES: u64 = 4_194_304;

/// Checks that the file of this name holds data that spells arguments of the types. Where it does not, this is appended to
/// the report.
pub fn check_data_file<S: Store>(
    alloc: Global,
    store: &mut S,
    name: &str,
    types: &[Ty],
    report: &mut String,
) -> Result<Finding, AllocError>
    requires { (1 ≤ length types.now) × (length types.now ≤ 8) }
    ensures told { IfOk result (λ finding. (part : Text)
        × DataFileIs (store_of (S.holds store.old) (S.faults store.old) (S.faults store.new)) name.now (map ty_of types.now) finding part
        × (string_bytes report.new ≡ string_bytes report.old ++ part)) }
    ensures kept { S.holds store.new ≡ S.holds store.old }
    ensures later { (other : Text) → S.faults store.old other ≤ S.faults store.new other }
{
    match read_file(alloc, store, name, MOST_BYTES, report)? {
        Some(data) => check_data(alloc, name, &data, types, report),
        None => Ok(Finding::Refused),
    }
}

/// Checks that these bytes of a file of this name spell arguments of the types. Where they do not, this is appended to the
/// report.
pub fn check_data(
    alloc: Global,
    name: &str,
    bytes: &[u8],
    types: &[Ty],
    report: &mut String,
) -> Result<Finding, AllocError>
    requires types { (1 ≤ length types.now) × (length types.now ≤ 8) }
    requires short { length bytes.now ≤ 4194304 }
    ensures { IfOk result (λ finding. (part : Text) × DataIs name.now bytes.now (map ty_of types.now) finding part
        × (string_bytes report.new ≡ string_bytes report.old ++ part)) }
{
    let mut heap = DataHeap::new(alloc);
    match read_args(alloc, bytes, types, &mut heap) {
        Ok(_) => Ok(Finding::Fits),
        Err(fault) => {
            push_data_fault(alloc, name, bytes, types, fault, report)?;
            Ok(Finding::Refused)
        }
    }
}
