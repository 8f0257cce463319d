// The top call.
ghost use Rattle.std.specs.Prelude.{◌≡◌, ◌≤◌, ◌⊎◌, ℕ, None, IfOk, IfErr};
ghost use Rattle.raml_syntax.specs.Tree.{Text};
ghost use Rattle.raml_words.specs.Words.{texts, Asks, Trial};
ghost use Rattle.raml_words.specs.Asked.{request_of};
ghost use Rattle.refusals.specs.Line.{no_names};
ghost use Rattle.raml_promise.specs.Outside.{Sound, store_of, sink_of, outside_of, Gains, GainsFront};
ghost use Rattle.raml_promise.specs.Again.{VerifiesAgain};
ghost use Rattle.raml_promise.specs.Promise.{Cause, Forced, WordsAnswer};
ghost use Rattle.raml_parts.specs.Parts.{Gives, Refuses, WordsRefuse, IsWithin};

use crate::requests::request_answer;
use raml_io::{Sink, Store, put_all};
use raml_promise::laws::{causes_force, written_verifies};
use raml_words::{Request, WordsFault, read_words};
use refusal_text::write_failed_line;
use refusals::{Refusal, Report, Status};
use std::alloc::Global;

/// Does what the words ask for: reads from `store`, and writes the report to `out` or, where there is
/// none, one line to `err`. The words are those of the command line, without the program's name.
pub fn raml<S: Store, O: Sink, E: Sink>(
    alloc: Global,
    words: &[&str],
    store: &mut S,
    out: &mut O,
    err: &mut E,
) -> Status
    // The headline stands here: each answer comes by its cause alone, with all that is promised of it and
    // what it writes on out and err.
    ensures cause { Cause (outside_of (texts words.now) (store_of (S.holds store.old) (S.faults store.old) (S.faults store.new))
        (sink_of (O.faults out.old) (O.faults out.new) (O.written out.old) (O.written out.new))
        (sink_of (E.faults err.old) (E.faults err.new) (E.written err.old) (E.written err.new))) result }
    // Each cause brings its answer, or want of memory.
    ensures forced { Forced (outside_of (texts words.now) (store_of (S.holds store.old) (S.faults store.old) (S.faults store.new))
        (sink_of (O.faults out.old) (O.faults out.new) (O.written out.old) (O.written out.new))
        (sink_of (E.faults err.old) (E.faults err.new) (E.written err.old) (E.written err.new))) result }

    // What `certify` wrote is verified again.
    ensures again { VerifiesAgain (outside_of (texts words.now) (store_of (S.holds store.old) (S.faults store.old) (S.faults store.new))
        (sink_of (O.faults out.old) (O.faults out.new) (O.written out.old) (O.written out.new))
        (sink_of (E.faults err.old) (E.faults err.new) (E.written err.old) (E.written err.new))) result }

    // A made program is analysed and run without the store.
    ensures still { (count : ℕ) → Asks (texts words.now) (Trial count) → store.new ≡ store.old }

    // What the store holds stays, and no count falls.
    ensures kept { S.holds store.new ≡ S.holds store.old }
    ensures later { (name : Text) → S.faults store.old name ≤ S.faults store.new name }
    ensures out_later { O.faults out.old ≤ O.faults out.new }
    ensures err_later { E.faults err.old ≤ E.faults err.new }
{
    causes_force();
    written_verifies();
    match answer(alloc, words, store) {
        Ok(report) => match put_all(out, &report.text) {
            Ok(()) => report.status,
            Err(_) => {
                put_line(err, write_failed_line());
                Status::WriteFault
            }
        },
        Err(refusal) => {
            put_line(err, refusal.line.text());
            refusal.status
        }
    }
}

// Writes the line, as far as the sink takes it.
fn put_line<E: Sink>(err: &mut E, line: &str)
    ensures gains { let sink = sink_of (E.faults err.old) (E.faults err.new) (E.written err.old) (E.written err.new) in
        Gains line.now sink ⊎ GainsFront line.now sink }
    ensures later { E.faults err.old ≤ E.faults err.new }
{
    let _ = put_all(err, line.as_bytes());
}

// What the words ask for.
fn answer<S: Store>(alloc: Global, words: &[&str], store: &mut S) -> Result<Report, Refusal>
    ensures gives { Gives (WordsAnswer Sound (texts words.now)
        (store_of (S.holds store.old) (S.faults store.old) (S.faults store.new))) result }
    ensures still { (count : ℕ) → Asks (texts words.now) (Trial count) → store.new ≡ store.old }
    ensures kept { S.holds store.new ≡ S.holds store.old }
    ensures later { (name : Text) → S.faults store.old name ≤ S.faults store.new name }
{
    match asked(alloc, words) {
        Ok(request) => request_answer(alloc, store, &request),
        Err(refusal) => Err(refusal),
    }
}

// The request that the words make.
fn asked(alloc: Global, words: &[&str]) -> Result<Request, Refusal>
    ensures ok { IfOk result (λ request. Asks (texts words.now) (request_of request)) }
    ensures within { IfOk result (λ request. IsWithin (request_of request)) }
    ensures err { IfErr result (Refuses no_names (WordsRefuse (texts words.now))) }
{
    match read_words(alloc, words) {
        Ok(request) => Ok(request),
        Err(WordsFault::Usage) => Err(Refusal::usage()),
        Err(WordsFault::NoMemory) => Err(Refusal::no_memory()),
    }
}
