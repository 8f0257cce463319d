// A session with an editor.
ghost use Rattle.std.specs.Prelude.{◌≡◌, min};
ghost use Rattle.explain_language.specs.Tells as language;
ghost use Rattle.explain_top.specs.Answers.{IsEditorServed, IsLogLeft, said_of};
ghost use Rattle.explain_top.specs.Shelves.{shelf_of};
ghost use Rattle.explain_top.specs.Sinks.{sink_of};
ghost use Rattle.lsp_session.specs.Sessions.{IsServed, streams_of};

use crate::asked::{no_memory, write_report};
use crate::draft::leave_text;
use crate::status::Status;
use explain_files::Shelf;
use explain_language::Programs;
use explain_words::LspWords;
use lsp_session::{Heard, SessionEnd, serve};
use raml_io::Sink;
use std::alloc::{AllocError, Global};
use std::io::Read;

/// Serves an editor until their session ends, and says on `err` why, where the editor did not end it. What it sent is left
/// as a file on the shelf, where the words name one.
#[tactic(auto, using(crate::proofs::Shelves::untouched))]
pub(crate) fn serve_editor<W: Shelf, I: Read, O: Sink, E: Sink>(
    alloc: Global,
    words: LspWords<'_>,
    shelf: &mut W,
    input: &mut I,
    out: &mut O,
    err: &mut E,
) -> Status
    ensures { IsEditorServed words.entry (shelf_of (W.faults shelf.old) (W.faults shelf.new) (W.holds shelf.old) (W.holds shelf.new))
        (streams_of (I.remaining input.old) (O.written out.old)) (streams_of (I.remaining input.new) (O.written out.new))
        (sink_of (E.faults err.old) (E.faults err.new) (E.written err.old) (E.written err.new)) result }
{
    let programs = Programs {
        degree: words.degree,
        pivots: words.pivots,
    };
    match words.log {
        Some(log) => {
            let mut heard = Heard::all(alloc);
            let end = serve(alloc, input, &programs, &mut heard, out);
            leave_log(alloc, shelf, log, heard.bytes(), end, err)
        }
        None => {
            let end = serve(alloc, input, &programs, &mut Heard::nothing(alloc), out);
            write_report(err, said_of(end));
            Status::from(end)
        }
    }
}

/// Leaves what was heard in a session that ended so, and says why it ended.
#[tactic(auto, using(crate::proofs::Shelves::untouched))]
fn leave_log<W: Shelf, E: Sink>(
    alloc: Global,
    shelf: &mut W,
    log: &str,
    heard: &[u8],
    end: SessionEnd,
    err: &mut E,
) -> Status
    ensures { IsLogLeft (shelf_of (W.faults shelf.old) (W.faults shelf.new) (W.holds shelf.old) (W.holds shelf.new)) log.now end
        (sink_of (E.faults err.old) (E.faults err.new) (E.written err.old) (E.written err.new)) result }
{
    let mut report = match String::from_str(alloc, said_of(end)) {
        Ok(report) => report,
        Err(AllocError) => return no_memory(err),
    };
    match leave_text(alloc, shelf, log, heard, true, &mut report) {
        Ok(left) => {
            write_report(err, &report);
            Status::from(end).or_of_log(left)
        }
        Err(AllocError) => no_memory(err),
    }
}

// What is said of an end.
fn said_of(end: SessionEnd) -> &'static str
    ensures { result.now ≡ said_of end }
{
    match end {
        SessionEnd::Faulty(_) => "explain: what the editor sends is no message\n",
        SessionEnd::ReadFault => "explain: what the editor sends can't be read\n",
        SessionEnd::NoMemory => "explain: out of memory\n",
        SessionEnd::TooLong => "explain: the session is too long\n",
        SessionEnd::Exited(_) | SessionEnd::Closed(_) | SessionEnd::WriteFault => "",
    }
}
