// Why functions have no bounds, and the changed source that is left.
ghost use Rattle.std.specs.Prelude.{◌≡◌, ◌≤◌, ◌++◌, IfOk, OnErr, string_bytes};
ghost use Rattle.raml_syntax.specs.Tree.{Text};
ghost use Rattle.explain_check.specs.Stores.{store_of};
ghost use Rattle.explain_why.specs.Read.{bytes_in};
ghost use Rattle.explain_top.specs.Answers.{IsWhyTold, LeavesChange, LeavesWritten};
ghost use Rattle.explain_top.specs.Shelves.{KeepsFiles, shelf_of};
ghost use Rattle.explain_top.specs.Sinks.{sink_of};

use crate::asked::{no_memory, put_text, write_report};
use crate::draft::{leave_text, refuse_source};
use crate::status::Status;
use explain_calls::End;
use explain_check::push_error;
use explain_files::Shelf;
use explain_reasons::Progress;
use explain_why::{Told, tell_why};
use explain_words::{WhyWords, Written};
use raml_io::{Sink, Store};
use std::alloc::{AllocError, Global};

/// Tells why functions of a program have no bounds on `out`, and on `err` what is wrong. The source that the first change
/// gives is left where the words name a file for it.
#[tactic(auto, using(crate::proofs::Shelves::untouched))]
pub(crate) fn why<S: Store, W: Shelf, P: Progress, O: Sink, E: Sink>(
    alloc: Global,
    words: &WhyWords<'_>,
    store: &mut S,
    shelf: &mut W,
    progress: &mut P,
    out: &mut O,
    err: &mut E,
) -> Status
    ensures told { IsWhyTold (store_of (S.holds store.old) (S.faults store.old) (S.faults store.new))
        (shelf_of (W.faults shelf.old) (W.faults shelf.new) (W.holds shelf.old) (W.holds shelf.new)) words.now
        (sink_of (O.faults out.old) (O.faults out.new) (O.written out.old) (O.written out.new))
        (sink_of (E.faults err.old) (E.faults err.new) (E.written err.old) (E.written err.new)) result }
    ensures kept { S.holds store.new ≡ S.holds store.old }
    ensures later { (name : Text) → S.faults store.old name ≤ S.faults store.new name }
{
    match words.written {
        Some(written) if written.name == words.file => refuse_source(alloc, written.name, err),
        _ => told(alloc, words, store, shelf, progress, out, err),
    }
}

/// Tells it, where the words name no source as the file that is left.
#[tactic(auto, using(crate::proofs::Shelves::untouched))]
fn told<S: Store, W: Shelf, P: Progress, O: Sink, E: Sink>(
    alloc: Global,
    words: &WhyWords<'_>,
    store: &mut S,
    shelf: &mut W,
    progress: &mut P,
    out: &mut O,
    err: &mut E,
) -> Status
    ensures told { IsWhyTold (store_of (S.holds store.old) (S.faults store.old) (S.faults store.new))
        (shelf_of (W.faults shelf.old) (W.faults shelf.new) (W.holds shelf.old) (W.holds shelf.new)) words.now
        (sink_of (O.faults out.old) (O.faults out.new) (O.written out.old) (O.written out.new))
        (sink_of (E.faults err.old) (E.faults err.new) (E.written err.old) (E.written err.new)) result }
    ensures kept { S.holds store.new ≡ S.holds store.old }
    ensures later { (name : Text) → S.faults store.old name ≤ S.faults store.new name }
{
    let mut text = String::new(alloc);
    let mut report = String::new(alloc);
    match tell_why(alloc, store, words, progress, &mut text, &mut report) {
        Ok(told) => match leave(alloc, shelf, words.written, &told, &mut report) {
            Ok(done) => {
                write_report(err, &report);
                put_text(out, &text, done)
            }
            Err(AllocError) => no_memory(err),
        },
        Err(AllocError) => no_memory(err),
    }
}

/// Leaves the changed source where a file for it is named. Where it can't be left, that is appended to the report.
#[tactic(auto, using(crate::proofs::Shelves::untouched))]
fn leave<W: Shelf>(
    alloc: Global,
    shelf: &mut W,
    written: Option<Written<'_>>,
    told: &Told,
    report: &mut String,
) -> Result<Status, AllocError>
    ensures ends { IfOk result (λ status. (part : Text)
        × LeavesChange (shelf_of (W.faults shelf.old) (W.faults shelf.new) (W.holds shelf.old) (W.holds shelf.new)) written.entry
        told.now.end (bytes_in told.now.changed) status part
        × (string_bytes report.new ≡ string_bytes report.old ++ part)) }
    ensures nothing { OnErr result
        (KeepsFiles (shelf_of (W.faults shelf.old) (W.faults shelf.new) (W.holds shelf.old) (W.holds shelf.new))) }
{
    match written {
        Some(written) => match told.end {
            End::Told => leave_change(alloc, shelf, written, told, report),
            End::Refused | End::NotAnalysed => Ok(Status::from(told.end)),
        },
        None => Ok(Status::from(told.end)),
    }
}

/// Leaves the changed source, where there is a change.
#[tactic(auto, using(crate::proofs::Shelves::untouched))]
fn leave_change<W: Shelf>(
    alloc: Global,
    shelf: &mut W,
    written: Written<'_>,
    told: &Told,
    report: &mut String,
) -> Result<Status, AllocError>
    ensures ends { IfOk result (λ status. (part : Text)
        × LeavesWritten (shelf_of (W.faults shelf.old) (W.faults shelf.new) (W.holds shelf.old) (W.holds shelf.new)) written.entry
        (bytes_in told.now.changed) status part
        × (string_bytes report.new ≡ string_bytes report.old ++ part)) }
    ensures nothing { OnErr result
        (KeepsFiles (shelf_of (W.faults shelf.old) (W.faults shelf.new) (W.holds shelf.old) (W.holds shelf.new))) }
{
    match &told.changed {
        Some(text) => leave_text(alloc, shelf, written.name, text, written.force, report),
        None => {
            push_error(
                written.name,
                "is not written: no change was found that gives bounds",
                report,
            )?;
            Ok(Status::Refused)
        }
    }
}
