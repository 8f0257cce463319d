// Files of a store, within their limits.
ghost use Rattle.std.specs.Prelude.{◌≡◌, ◌≤◌, ◌<◌, ◌^◌, ◌++◌, ℕ, IfOk, option_map, string_bytes, vec_items};
ghost use Rattle.raml_syntax.specs.Tree.{Text};
ghost use Rattle.explain_check.specs.Stores.{store_of, FileGives};

use crate::report::{push_error, push_too_long};
use raml_io::{Store, StoreFault};
use std::alloc::{AllocError, Global};

/// What the file of this name holds. Where it can't be read, or holds more than so many bytes, this is appended to the
/// report.
pub fn read_file<S: Store>(
    alloc: Global,
    store: &mut S,
    name: &str,
    most: u64,
    report: &mut String,
) -> Result<Option<Vec<u8>>, AllocError>
    requires { most < 2 ^ 31 }
    ensures told { IfOk result (λ found. (part : Text)
        × FileGives (store_of (S.holds store.old) (S.faults store.old) (S.faults store.new)) most name.now (option_map vec_items found) part
        × (string_bytes report.new ≡ string_bytes report.old ++ part)) }
    ensures kept { S.holds store.new ≡ S.holds store.old }
    ensures later { (other : Text) → S.faults store.old other ≤ S.faults store.new other }
{
    match store.read(alloc, name, most + 1) {
        Ok(content) => {
            if content.len() as u64 > most {
                push_too_long(name, most, report)?;
                return Ok(None);
            }
            Ok(Some(content))
        }
        Err(StoreFault::Failed) => {
            push_error(name, "cannot be read", report)?;
            Ok(None)
        }
        Err(StoreFault::NoMemory) => Err(AllocError),
    }
}
