// Checks of files.
ghost use Rattle.std.specs.Prelude.{◌≡◌, ◌≤◌, ◌++◌, IfOk, string_bytes};
ghost use Rattle.raml_syntax.specs.Tree.{Text};
ghost use Rattle.explain_check.specs.Checks.{FileIs, FilesAre, texts};
ghost use Rattle.explain_check.specs.Stores.{store_of};

use crate::read::read_file;
use crate::report::push_error;
use crate::source::check_source;
use crate::verdict::Verdict;
use raml_io::Store;
use std::alloc::{AllocError, Global};

/// The limit of a source, in bytes.
pub const MOST_BYTES: u64 = 1_048_576;

/// Checks the files of these names, one by one, and gives the worst that is found. What is wrong with them is appended
/// to the report, in order.
pub fn check_files<S: Store>(
    alloc: Global,
    store: &mut S,
    names: &[&str],
    report: &mut String,
) -> Result<Verdict, AllocError>
    ensures told { IfOk result (λ verdict. (part : Text)
        × FilesAre (store_of (S.holds store.old) (S.faults store.old) (S.faults store.new)) (texts names.now) verdict part
        × (string_bytes report.new ≡ string_bytes report.old ++ part)) }
    ensures kept { S.holds store.new ≡ S.holds store.old }
    ensures later { (name : Text) → S.faults store.old name ≤ S.faults store.new name }
{
    let mut verdict = Verdict::Typed;
    for name in names {
        let next = check_file(alloc, store, *name, report)?;
        verdict = verdict.worse(next);
    }
    Ok(verdict)
}

/// Checks the file of this name.
fn check_file<S: Store>(
    alloc: Global,
    store: &mut S,
    name: &str,
    report: &mut String,
) -> Result<Verdict, AllocError>
    ensures told { IfOk result (λ verdict. (part : Text)
        × FileIs (store_of (S.holds store.old) (S.faults store.old) (S.faults store.new)) name.now verdict part
        × (string_bytes report.new ≡ string_bytes report.old ++ part)) }
    ensures kept { S.holds store.new ≡ S.holds store.old }
    ensures later { (other : Text) → S.faults store.old other ≤ S.faults store.new other }
{
    match read_file(alloc, store, name, MOST_BYTES, report)? {
        Some(source) => check_source(alloc, name, &source, report),
        None => Ok(Verdict::Unread),
    }
}
