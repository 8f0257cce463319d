// The top call.
ghost use Rattle.std.specs.Prelude.{◌≡◌, ◌≤◌};
ghost use Rattle.raml_syntax.specs.Tree.{Text};
ghost use Rattle.explain_check.specs.Checks.{texts};
ghost use Rattle.explain_check.specs.Stores.{store_of};
ghost use Rattle.explain_top.specs.Answers.{Cause, editor_of};
ghost use Rattle.explain_top.specs.Shelves.{shelf_of};
ghost use Rattle.explain_top.specs.Sinks.{sink_of};

use crate::asked::{answer, no_memory};
use crate::status::Status;
use explain_files::Shelf;
use explain_reasons::Progress;
use explain_words::laws::asked_is_in_range;
use explain_words::{WordsFault, read_words};
use raml_io::{Sink, Store, put_all};
use std::alloc::Global;
use std::io::Read;

/// Does what the words ask for: reads from `store`, writes what was asked for to `out`, and what is wrong to `err`, and
/// leaves a file on `shelf` where the words ask for one. An editor that sends `input` is served on `out`. The words are those of the command line, without the program's
/// name. Lines that go to `out` have at most so many columns, unless the words tell a width. How far a long call has come,
/// `progress` hears.
#[tactic(auto, using(crate::proofs::Shelves::untouched))]
pub fn explain<S: Store, W: Shelf, I: Read, P: Progress, O: Sink, E: Sink>(
    alloc: Global,
    words: &[&str],
    columns: Option<u32>,
    store: &mut S,
    shelf: &mut W,
    input: &mut I,
    progress: &mut P,
    out: &mut O,
    err: &mut E,
) -> Status
    // Each status comes by its cause alone.
    ensures cause { Cause (texts words.now) columns (store_of (S.holds store.old) (S.faults store.old) (S.faults store.new))
        (shelf_of (W.faults shelf.old) (W.faults shelf.new) (W.holds shelf.old) (W.holds shelf.new))
        (editor_of (I.remaining input.old) (I.remaining input.new))
        (sink_of (O.faults out.old) (O.faults out.new) (O.written out.old) (O.written out.new))
        (sink_of (E.faults err.old) (E.faults err.new) (E.written err.old) (E.written err.new)) result }

    // What the store holds stays, and no count falls.
    ensures kept { S.holds store.new ≡ S.holds store.old }
    ensures later { (name : Text) → S.faults store.old name ≤ S.faults store.new name }
{
    match read_words(alloc, words) {
        Ok(request) => {
            asked_is_in_range();
            answer(
                alloc, &request, columns, store, shelf, input, progress, out, err,
            )
        }
        Err(WordsFault::Shown { text }) => match put_all(out, text.as_bytes()) {
            Ok(()) => Status::Done,
            Err(_) => Status::WriteFault,
        },
        Err(WordsFault::Refused { text }) => {
            let _ = put_all(err, text.as_bytes());
            Status::Refused
        }
        Err(WordsFault::NoMemory) => no_memory(err),
    }
}
