// What a request asks for.
ghost use Rattle.std.specs.Prelude.{◌≡◌, ◌≤◌, IfSome};
ghost use Rattle.raml_syntax.specs.Tree.{Text};
ghost use Rattle.explain_check.specs.Stores.{store_of};
ghost use Rattle.explain_words.specs.Laws.{AreInRange, IsDegree, IsInRange};
ghost use Rattle.explain_top.specs.Answers.{width_or, IsAnswer, AreBoundsTold, IsBudgetTold, IsVerified, IsChecked, IsDataChecked};
ghost use Rattle.explain_top.specs.Answers.{LacksMemory, Puts, editor_of};
ghost use Rattle.explain_top.specs.Shelves.{shelf_of};
ghost use Rattle.explain_top.specs.Sinks.{sink_of, Writes};

use crate::draft::leave_draft;
use crate::editor::serve_editor;
use crate::plot::plot;
use crate::profile::profile;
use crate::status::Status;
use crate::why::why;
use explain_budget::tell_budget;
use explain_calls::tell_bounds;
use explain_check::check_files;
use explain_data::check_call;
use explain_files::Shelf;
use explain_reasons::Progress;
use explain_verify::verify_certificate;
use explain_words::{BoundsWords, Request};
use raml_io::{Sink, Store, put_all};
use std::alloc::{AllocError, Global};
use std::io::Read;

/// The line where no memory is left.
const NO_MEMORY: &str = "explain: out of memory\n";

/// Does what a request asks for: writes what is told to `out`, where lines have at most so many columns, what is wrong to
/// `err`, and leaves a file on the shelf where that is asked for. An editor is served where that is asked for.
#[tactic(auto, using(crate::proofs::Shelves::untouched))]
pub fn answer<S: Store, W: Shelf, I: Read, P: Progress, O: Sink, E: Sink>(
    alloc: Global,
    request: &Request,
    columns: Option<u32>,
    store: &mut S,
    shelf: &mut W,
    input: &mut I,
    progress: &mut P,
    out: &mut O,
    err: &mut E,
) -> Status
    requires { IsInRange request.now }
    ensures done { IsAnswer (store_of (S.holds store.old) (S.faults store.old) (S.faults store.new))
        (shelf_of (W.faults shelf.old) (W.faults shelf.new) (W.holds shelf.old) (W.holds shelf.new))
        (editor_of (I.remaining input.old) (I.remaining input.new)) request.now columns
        (sink_of (O.faults out.old) (O.faults out.new) (O.written out.old) (O.written out.new))
        (sink_of (E.faults err.old) (E.faults err.new) (E.written err.old) (E.written err.new)) result }
    ensures kept { S.holds store.new ≡ S.holds store.old }
    ensures later { (name : Text) → S.faults store.old name ≤ S.faults store.new name }
{
    match request {
        Request::Check { files } => check(alloc, files, store, err),
        Request::CheckData { file, name, input } => {
            check_data(alloc, *file, *name, *input, store, err)
        }
        Request::Bounds(words) => bounds(alloc, words, columns, store, out, err),
        Request::Budget {
            file,
            bounds,
            degree,
            json,
        } => budget(
            alloc, *file, *bounds, *degree, *json, columns, store, out, err,
        ),
        Request::WriteBudget {
            file,
            bounds,
            degree,
            force,
        } => leave_draft(alloc, *file, *bounds, *degree, *force, store, shelf, err),
        Request::Verify { file, certificate } => {
            verify(alloc, *file, *certificate, store, out, err)
        }
        Request::Why(words) => why(alloc, words, store, shelf, progress, out, err),
        Request::Plot(words) => plot(alloc, words, store, shelf, out, err),
        Request::Profile(words) => profile(alloc, words, store, out, err),
        Request::Lsp(words) => serve_editor(alloc, *words, shelf, input, out, err),
    }
}

/// Tells the bounds of a program on `out`, and on `err` what is wrong.
fn bounds<S: Store, O: Sink, E: Sink>(
    alloc: Global,
    words: &BoundsWords<'_>,
    columns: Option<u32>,
    store: &mut S,
    out: &mut O,
    err: &mut E,
) -> Status
    requires { AreInRange words.now }
    ensures told { AreBoundsTold (store_of (S.holds store.old) (S.faults store.old) (S.faults store.new)) words.now columns
        (sink_of (O.faults out.old) (O.faults out.new) (O.written out.old) (O.written out.new))
        (sink_of (E.faults err.old) (E.faults err.new) (E.written err.old) (E.written err.new)) result }
    ensures kept { S.holds store.new ≡ S.holds store.old }
    ensures later { (name : Text) → S.faults store.old name ≤ S.faults store.new name }
{
    let mut text = String::new(alloc);
    let mut report = String::new(alloc);
    let width = width_or(words.width, columns);
    match tell_bounds(alloc, store, words, width, &mut text, &mut report) {
        Ok(end) => {
            write_report(err, &report);
            put_text(out, &text, Status::from(end))
        }
        Err(AllocError) => no_memory(err),
    }
}

/// Tells which declared bounds a program keeps on `out`, and on `err` what is wrong.
fn budget<S: Store, O: Sink, E: Sink>(
    alloc: Global,
    file: &str,
    bounds: &str,
    degree: Option<u8>,
    json: bool,
    columns: Option<u32>,
    store: &mut S,
    out: &mut O,
    err: &mut E,
) -> Status
    requires { IfSome degree IsDegree }
    ensures told { IsBudgetTold (store_of (S.holds store.old) (S.faults store.old) (S.faults store.new))
        file.now bounds.now degree json columns
        (sink_of (O.faults out.old) (O.faults out.new) (O.written out.old) (O.written out.new))
        (sink_of (E.faults err.old) (E.faults err.new) (E.written err.old) (E.written err.new)) result }
    ensures kept { S.holds store.new ≡ S.holds store.old }
    ensures later { (name : Text) → S.faults store.old name ≤ S.faults store.new name }
{
    let mut text = String::new(alloc);
    let mut report = String::new(alloc);
    match tell_budget(
        alloc,
        store,
        file,
        bounds,
        degree,
        columns,
        json,
        &mut text,
        &mut report,
    ) {
        Ok(end) => {
            write_report(err, &report);
            put_text(out, &text, Status::from(end))
        }
        Err(AllocError) => no_memory(err),
    }
}

/// Tells on `out` that a certificate holds of a program, and on `err` where it does not, or what is wrong.
fn verify<S: Store, O: Sink, E: Sink>(
    alloc: Global,
    file: &str,
    certificate: &str,
    store: &mut S,
    out: &mut O,
    err: &mut E,
) -> Status
    ensures told { IsVerified (store_of (S.holds store.old) (S.faults store.old) (S.faults store.new)) file.now certificate.now
        (sink_of (O.faults out.old) (O.faults out.new) (O.written out.old) (O.written out.new))
        (sink_of (E.faults err.old) (E.faults err.new) (E.written err.old) (E.written err.new)) result }
    ensures kept { S.holds store.new ≡ S.holds store.old }
    ensures later { (name : Text) → S.faults store.old name ≤ S.faults store.new name }
{
    let mut text = String::new(alloc);
    let mut report = String::new(alloc);
    match verify_certificate(alloc, store, file, certificate, &mut text, &mut report) {
        Ok(end) => {
            write_report(err, &report);
            put_text(out, &text, Status::from(end))
        }
        Err(AllocError) => no_memory(err),
    }
}

/// The width that the words tell, or else that of the terminal.
fn width_or(width: Option<u32>, columns: Option<u32>) -> Option<u32>
    ensures { result ≡ width_or width columns }
{
    width.or(columns)
}

/// Writes a report of what is wrong.
pub(crate) fn write_report<E: Sink>(err: &mut E, report: &str)
    ensures { Writes report.now (sink_of (E.faults err.old) (E.faults err.new) (E.written err.old) (E.written err.new)) }
{
    let _ = put_all(err, report.as_bytes());
}

/// Writes what was asked for. The status is that of the call, or that out was not written as a whole.
pub(crate) fn put_text<O: Sink>(out: &mut O, text: &str, done: Status) -> Status
    ensures { Puts text.now (sink_of (O.faults out.old) (O.faults out.new) (O.written out.old) (O.written out.new)) done result }
{
    match put_all(out, text.as_bytes()) {
        Ok(()) => done,
        Err(_) => Status::WriteFault,
    }
}

/// Checks the files of these names, and writes what is wrong with them to `err`.
fn check<S: Store, E: Sink>(alloc: Global, names: &[&str], store: &mut S, err: &mut E) -> Status
    ensures checked { IsChecked (store_of (S.holds store.old) (S.faults store.old) (S.faults store.new)) names.now
        (sink_of (E.faults err.old) (E.faults err.new) (E.written err.old) (E.written err.new)) result }
    ensures kept { S.holds store.new ≡ S.holds store.old }
    ensures later { (name : Text) → S.faults store.old name ≤ S.faults store.new name }
{
    let mut report = String::new(alloc);
    match check_files(alloc, store, names, &mut report) {
        Ok(verdict) => {
            write_report(err, &report);
            Status::from(verdict)
        }
        Err(AllocError) => no_memory(err),
    }
}

/// Checks the data in the file `input` for the function of this name in `file`, and writes what is wrong to `err`.
fn check_data<S: Store, E: Sink>(
    alloc: Global,
    file: &str,
    name: &str,
    input: &str,
    store: &mut S,
    err: &mut E,
) -> Status
    ensures checked { IsDataChecked (store_of (S.holds store.old) (S.faults store.old) (S.faults store.new)) file.now name.now input.now
        (sink_of (E.faults err.old) (E.faults err.new) (E.written err.old) (E.written err.new)) result }
    ensures kept { S.holds store.new ≡ S.holds store.old }
    ensures later { (name : Text) → S.faults store.old name ≤ S.faults store.new name }
{
    let mut report = String::new(alloc);
    match check_call(alloc, store, file, name, input, &mut report) {
        Ok(finding) => {
            write_report(err, &report);
            Status::from(finding)
        }
        Err(AllocError) => no_memory(err),
    }
}

/// Says that no memory is left.
pub(crate) fn no_memory<E: Sink>(err: &mut E) -> Status
    ensures { LacksMemory (sink_of (E.faults err.old) (E.faults err.new) (E.written err.old) (E.written err.new)) result }
{
    let _ = put_all(err, NO_MEMORY.as_bytes());
    Status::NoMemory
}
