// Programs in files.
ghost use Rattle.std.specs.Prelude.{◌≡◌, ◌≤◌, ◌++◌, IfOk, string_bytes};
ghost use Rattle.raml_syntax.specs.Tree.{Text};
ghost use Rattle.explain_check.specs.Checks.{ProgramGives};
ghost use Rattle.explain_check.specs.Stores.{store_of};

use crate::files::MOST_BYTES;
use crate::read::read_file;
use crate::source::typed_source;
use raml_io::Store;
use simple_types::Typed;
use std::alloc::{AllocError, Global};

/// The source of a typed program.
#[derive(Drop)]
pub struct Source {
    pub bytes: Vec<u8>,
    /// The program that it spells.
    pub typed: Typed,
}

/// The source that the file of this name holds. Where it can't be read, or spells no typed program, this is appended to the
/// report.
pub fn read_program<S: Store>(
    alloc: Global,
    store: &mut S,
    file: &str,
    report: &mut String,
) -> Result<Option<Source>, AllocError>
    ensures told { IfOk result (λ source. (part : Text)
        × ProgramGives (store_of (S.holds store.old) (S.faults store.old) (S.faults store.new)) file.now source part
        × (string_bytes report.new ≡ string_bytes report.old ++ part)) }
    ensures kept { S.holds store.new ≡ S.holds store.old }
    ensures later { (other : Text) → S.faults store.old other ≤ S.faults store.new other }
{
    let Some(bytes) = read_file(alloc, store, file, MOST_BYTES, report)? else {
        return Ok(None);
    };
    match typed_source(alloc, file, &bytes, report)? {
        Some(typed) => Ok(Some(Source { bytes, typed })),
        None => Ok(None),
    }
}
