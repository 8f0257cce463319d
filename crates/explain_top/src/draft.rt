// The bounds of a program, left as a file that declares them.
ghost use Rattle.std.specs.Prelude.{◌≡◌, ◌≤◌, ◌++◌, IfOk, OnErr, IfSome, string_bytes};
ghost use Rattle.raml_syntax.specs.Tree.{Text};
ghost use Rattle.explain_check.specs.Stores.{store_of};
ghost use Rattle.explain_words.specs.Laws.{IsDegree};
ghost use Rattle.explain_top.specs.Answers.{IsDraftLeft, IsFileRefused, IsSourceRefused, IsTextLeft, EndsBy};
ghost use Rattle.explain_top.specs.Shelves.{KeepsFiles, shelf_of};
ghost use Rattle.explain_top.specs.Sinks.{sink_of};

use crate::asked::{no_memory, write_report};
use crate::status::Status;
use explain_calls::{Draft, draft_bounds};
use explain_check::push_error;
use explain_files::{Shelf, ShelfFault};
use raml_io::{Sink, Store};
use std::alloc::{AllocError, Global};

/// Leaves the bounds of the program in `file` as the file `bounds`, which is written over only where `force` is set. What is
/// wrong is written to `err`.
#[tactic(auto, using(crate::proofs::Shelves::untouched))]
pub(crate) fn leave_draft<S: Store, W: Shelf, E: Sink>(
    alloc: Global,
    file: &str,
    bounds: &str,
    degree: Option<u8>,
    force: bool,
    store: &mut S,
    shelf: &mut W,
    err: &mut E,
) -> Status
    requires { IfSome degree IsDegree }
    ensures left { IsDraftLeft (store_of (S.holds store.old) (S.faults store.old) (S.faults store.new))
        (shelf_of (W.faults shelf.old) (W.faults shelf.new) (W.holds shelf.old) (W.holds shelf.new))
        file.now bounds.now degree force
        (sink_of (E.faults err.old) (E.faults err.new) (E.written err.old) (E.written err.new)) result }
    ensures kept { S.holds store.new ≡ S.holds store.old }
    ensures later { (name : Text) → S.faults store.old name ≤ S.faults store.new name }
{
    if file == bounds {
        return refuse_source(alloc, bounds, err);
    }
    let mut report = String::new(alloc);
    match draft_bounds(alloc, store, file, degree, &mut report) {
        Ok(draft) => match leave(alloc, shelf, bounds, &draft, force, &mut report) {
            Ok(status) => {
                write_report(err, &report);
                status
            }
            Err(AllocError) => no_memory(err),
        },
        Err(AllocError) => no_memory(err),
    }
}

/// Says that the file that is to be left would be the source.
pub(crate) fn refuse_source<E: Sink>(alloc: Global, bounds: &str, err: &mut E) -> Status
    ensures { IsSourceRefused bounds.now (sink_of (E.faults err.old) (E.faults err.new) (E.written err.old) (E.written err.new)) result }
{
    refuse_file(alloc, bounds, "is the source itself", err)
}

/// Says why a file is not left.
pub(crate) fn refuse_file<E: Sink>(alloc: Global, name: &str, why: &str, err: &mut E) -> Status
    ensures { IsFileRefused name.now why.now
        (sink_of (E.faults err.old) (E.faults err.new) (E.written err.old) (E.written err.new)) result }
{
    let mut report = String::new(alloc);
    match push_error(name, why, &mut report) {
        Ok(()) => {
            write_report(err, &report);
            Status::Refused
        }
        Err(AllocError) => no_memory(err),
    }
}

// Leaves the text of a draft. Where it can't be left, that is appended to the report.
#[tactic(auto, using(crate::proofs::Shelves::untouched))]
fn leave<W: Shelf>(
    alloc: Global,
    shelf: &mut W,
    bounds: &str,
    draft: &Draft,
    force: bool,
    report: &mut String,
) -> Result<Status, AllocError>
    ensures ends { IfOk result (λ status. (part : Text)
        × EndsBy (shelf_of (W.faults shelf.old) (W.faults shelf.new) (W.holds shelf.old) (W.holds shelf.new)) bounds.now force draft.now
        status part
        × (string_bytes report.new ≡ string_bytes report.old ++ part)) }
    ensures nothing { OnErr result
        (KeepsFiles (shelf_of (W.faults shelf.old) (W.faults shelf.new) (W.holds shelf.old) (W.holds shelf.new))) }
{
    match draft {
        Draft::Made { text, .. } => leave_text(
            alloc,
            shelf,
            bounds,
            text.as_bytes(),
            force,
            report,
        ),
        Draft::Refused => Ok(Status::Refused),
        Draft::NotAnalysed => Ok(Status::NotAnalysed),
    }
}

/// Leaves a text. Where it can't be left, that is appended to the report.
#[tactic(auto, using(crate::proofs::Shelves::leaves))]
pub(crate) fn leave_text<W: Shelf>(
    alloc: Global,
    shelf: &mut W,
    bounds: &str,
    text: &[u8],
    force: bool,
    report: &mut String,
) -> Result<Status, AllocError>
    ensures ends { IfOk result (λ status. (part : Text)
        × IsTextLeft (shelf_of (W.faults shelf.old) (W.faults shelf.new) (W.holds shelf.old) (W.holds shelf.new)) bounds.now force text.now
        status part
        × (string_bytes report.new ≡ string_bytes report.old ++ part)) }
    ensures nothing { OnErr result
        (KeepsFiles (shelf_of (W.faults shelf.old) (W.faults shelf.new) (W.holds shelf.old) (W.holds shelf.new))) }
{
    match shelf.leave(alloc, bounds, text, force) {
        Ok(()) => Ok(Status::Done),
        Err(ShelfFault::Taken) => {
            push_error(bounds, "is there already; --force writes over it", report)?;
            Ok(Status::Refused)
        }
        Err(ShelfFault::Failed) => {
            push_error(bounds, "cannot be written", report)?;
            Ok(Status::WriteFault)
        }
        Err(ShelfFault::NoMemory) => Err(AllocError),
    }
}
