// Files of arguments.
ghost use Rattle.std.specs.Prelude.{◌≡◌, ◌≤◌, ◌++◌, length, map, IfOk, string_bytes};
ghost use Rattle.raml_syntax.specs.Tree.{Text};
ghost use Rattle.raml_syntax.specs.Read.{ty_of};
ghost use Rattle.explain_check.specs.Stores.{store_of};
ghost use Rattle.explain_words.specs.Commands.{texts};
ghost use Rattle.explain_plot.specs.Files.{AreShort, AreRead, Fit, ReadsOn, names_of};

use explain_check::read_file;
use explain_data::{Finding, MOST_BYTES, check_data};
use explain_marks::Given;
use explain_words::Arguments;
use raml_io::Store;
use raml_syntax::Ty;
use std::alloc::{AllocError, Global};

/// What the files of the arguments hold; there are none where arguments are made. That one is not read is appended to the
/// report.
pub(crate) fn read_files<'a, S: Store>(
    alloc: Global,
    store: &mut S,
    arguments: &Arguments<'a>,
    report: &mut String,
) -> Result<Option<Vec<Given<'a>>>, AllocError>
    ensures told { IfOk result (λ found. (part : Text)
        × AreRead (store_of (S.holds store.old) (S.faults store.old) (S.faults store.new)) (names_of arguments.now) found part
        × (string_bytes report.new ≡ string_bytes report.old ++ part)) }
    ensures kept { S.holds store.new ≡ S.holds store.old }
    ensures later { (other : Text) → S.faults store.old other ≤ S.faults store.new other }
{
    match arguments {
        Arguments::Made { .. } => Ok(Some(Vec::new(alloc))),
        Arguments::Given { files } => read_all(alloc, store, files, report),
    }
}

/// What these files hold.
fn read_all<'a, S: Store>(
    alloc: Global,
    store: &mut S,
    names: &[&'a str],
    report: &mut String,
) -> Result<Option<Vec<Given<'a>>>, AllocError>
    ensures told { IfOk result (λ found. (part : Text)
        × AreRead (store_of (S.holds store.old) (S.faults store.old) (S.faults store.new)) (texts names.now) found part
        × (string_bytes report.new ≡ string_bytes report.old ++ part)) }
    ensures kept { S.holds store.new ≡ S.holds store.old }
    ensures later { (other : Text) → S.faults store.old other ≤ S.faults store.new other }
{
    let mut read = Vec::new(alloc);
    if read_on(alloc, store, names, &mut read, report)? {
        Ok(Some(read))
    } else {
        Ok(None)
    }
}

/// Appends what these files hold, and tells whether all were read.
fn read_on<'a, S: Store>(
    alloc: Global,
    store: &mut S,
    names: &[&'a str],
    read: &mut Vec<Given<'a>>,
    report: &mut String,
) -> Result<bool, AllocError>
    ensures told { IfOk result (λ ok. (part : Text)
        × ReadsOn (store_of (S.holds store.old) (S.faults store.old) (S.faults store.new)) (texts names.now) ok
        read.old.items read.new.items part
        × (string_bytes report.new ≡ string_bytes report.old ++ part)) }
    ensures kept { S.holds store.new ≡ S.holds store.old }
    ensures later { (other : Text) → S.faults store.old other ≤ S.faults store.new other }
{
    match names {
        [] => Ok(true),
        [name, rest @ ..] => match read_file(alloc, store, *name, MOST_BYTES, report)? {
            Some(bytes) => {
                read.push(Given { name: *name, bytes })?;
                read_on(alloc, store, rest, read, report)
            }
            None => Ok(false),
        },
    }
}

/// Whether each file spells arguments of the types. What is wrong with the first that does not is appended to the report.
pub(crate) fn all_fit(
    alloc: Global,
    files: &[Given<'_>],
    types: &[Ty],
    report: &mut String,
) -> Result<bool, AllocError>
    requires types { (1 ≤ length types.now) × (length types.now ≤ 8) }
    requires short { AreShort files.now }
    ensures { IfOk result (λ ok. (part : Text) × Fit (map ty_of types.now) files.now ok part
        × (string_bytes report.new ≡ string_bytes report.old ++ part)) }
{
    match files {
        [] => Ok(true),
        [first, rest @ ..] => match check_data(alloc, first.name, &first.bytes, types, report)? {
            Finding::Fits => all_fit(alloc, rest, types, report),
            Finding::Untyped => Ok(false),
            Finding::Refused => Ok(false),
        },
    }
}
