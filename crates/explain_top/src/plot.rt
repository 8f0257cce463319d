// What runs of a function cost, and the picture that is left.
ghost use Rattle.std.specs.Prelude.{◌≡◌, ◌≤◌, ◌++◌, None, IfOk, OnErr, string_bytes};
ghost use Rattle.raml_syntax.specs.Tree.{Text};
ghost use Rattle.explain_check.specs.Stores.{store_of};
ghost use Rattle.explain_plot.specs.Files.{names_of};
ghost use Rattle.explain_plot.specs.Read.{text_in};
ghost use Rattle.explain_words.specs.Commands.{texts};
ghost use Rattle.explain_words.specs.Laws.{IsDegree};
ghost use Rattle.explain_words.specs.Spelled.{lent};
ghost use Rattle.explain_top.specs.Answers.{IsPlotTold, LeavesPicture, is_among, over_read};
ghost use Rattle.explain_top.specs.Shelves.{KeepsFiles, shelf_of};
ghost use Rattle.explain_top.specs.Sinks.{sink_of};

use crate::asked::{no_memory, put_text, write_report};
use crate::draft::{leave_text, refuse_file};
use crate::status::Status;
use explain_files::Shelf;
use explain_plot::{Told, tell_plot};
use explain_words::{Arguments, PlotWords};
use raml_io::{Sink, Store};
use std::alloc::{AllocError, Global};

/// Draws what runs of a function cost, and the bound above them; the picture is left as the file that the words name. The
/// table is written to `out`, and what is wrong to `err`.
#[tactic(auto, using(crate::proofs::Shelves::untouched))]
pub(crate) fn plot<S: Store, W: Shelf, O: Sink, E: Sink>(
    alloc: Global,
    words: &PlotWords<'_>,
    store: &mut S,
    shelf: &mut W,
    out: &mut O,
    err: &mut E,
) -> Status
    requires { IsDegree words.now.degree }
    ensures told { IsPlotTold (store_of (S.holds store.old) (S.faults store.old) (S.faults store.new))
        (shelf_of (W.faults shelf.old) (W.faults shelf.new) (W.holds shelf.old) (W.holds shelf.new)) words.now
        (sink_of (O.faults out.old) (O.faults out.new) (O.written out.old) (O.written out.new))
        (sink_of (E.faults err.old) (E.faults err.new) (E.written err.old) (E.written err.new)) result }
    ensures kept { S.holds store.new ≡ S.holds store.old }
    ensures later { (name : Text) → S.faults store.old name ≤ S.faults store.new name }
{
    match over_read(words) {
        Some(why) => refuse_file(alloc, words.output, why, err),
        None => drawn(alloc, words, store, shelf, out, err),
    }
}

/// Why the picture is not left as the file that is named, where the call reads that.
fn over_read(words: &PlotWords<'_>) -> Option<&'static str>
    ensures { lent result ≡ over_read words.now }
{
    if words.output == words.file {
        Some("is the source itself")
    } else if is_argument(&words.arguments, words.output) {
        Some("is a file of arguments itself")
    } else {
        None
    }
}

/// Whether arguments stand in the file of this name.
fn is_argument(arguments: &Arguments<'_>, name: &str) -> bool
    ensures { result ≡ is_among (names_of arguments.now) name.now }
{
    match arguments {
        Arguments::Made { .. } => false,
        Arguments::Given { files } => is_among(files, name),
    }
}

/// Whether one of the names is this one.
fn is_among(names: &[&str], name: &str) -> bool
    ensures { result ≡ is_among (texts names.now) name.now }
{
    match names {
        [] => false,
        [first, rest @ ..] => *first == name || is_among(rest, name),
    }
}

/// Draws it, where the picture is no file that is read.
#[tactic(auto, using(crate::proofs::Shelves::untouched))]
fn drawn<S: Store, W: Shelf, O: Sink, E: Sink>(
    alloc: Global,
    words: &PlotWords<'_>,
    store: &mut S,
    shelf: &mut W,
    out: &mut O,
    err: &mut E,
) -> Status
    requires range { IsDegree words.now.degree }
    requires free { over_read words.now ≡ None }
    ensures told { IsPlotTold (store_of (S.holds store.old) (S.faults store.old) (S.faults store.new))
        (shelf_of (W.faults shelf.old) (W.faults shelf.new) (W.holds shelf.old) (W.holds shelf.new)) words.now
        (sink_of (O.faults out.old) (O.faults out.new) (O.written out.old) (O.written out.new))
        (sink_of (E.faults err.old) (E.faults err.new) (E.written err.old) (E.written err.new)) result }
    ensures kept { S.holds store.new ≡ S.holds store.old }
    ensures later { (name : Text) → S.faults store.old name ≤ S.faults store.new name }
{
    let mut text = String::new(alloc);
    let mut report = String::new(alloc);
    match tell_plot(alloc, store, words, &mut text, &mut report) {
        Ok(told) => match leave(alloc, shelf, words, &told, &mut report) {
            Ok(done) => {
                write_report(err, &report);
                put_text(out, &text, done)
            }
            Err(AllocError) => no_memory(err),
        },
        Err(AllocError) => no_memory(err),
    }
}

/// Leaves the picture, where there is one. Where it can't be left, that is appended to the report.
#[tactic(auto, using(crate::proofs::Shelves::untouched))]
fn leave<W: Shelf>(
    alloc: Global,
    shelf: &mut W,
    words: &PlotWords<'_>,
    told: &Told,
    report: &mut String,
) -> Result<Status, AllocError>
    ensures ends { IfOk result (λ status. (part : Text)
        × LeavesPicture (shelf_of (W.faults shelf.old) (W.faults shelf.new) (W.holds shelf.old) (W.holds shelf.new)) words.now
        told.now.end (text_in told.now.picture) status part
        × (string_bytes report.new ≡ string_bytes report.old ++ part)) }
    ensures nothing { OnErr result
        (KeepsFiles (shelf_of (W.faults shelf.old) (W.faults shelf.new) (W.holds shelf.old) (W.holds shelf.new))) }
{
    match &told.picture {
        Some(picture) => leave_text(
            alloc,
            shelf,
            words.output,
            picture.as_bytes(),
            words.force,
            report,
        ),
        None => Ok(Status::from(told.end)),
    }
}
