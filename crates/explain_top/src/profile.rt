// How often lines are run.
ghost use Rattle.std.specs.Prelude.{◌≡◌, ◌≤◌};
ghost use Rattle.raml_syntax.specs.Tree.{Text};
ghost use Rattle.explain_check.specs.Stores.{store_of};
ghost use Rattle.explain_words.specs.Laws.{IsDegree};
ghost use Rattle.explain_top.specs.Answers.{IsProfileTold};
ghost use Rattle.explain_top.specs.Sinks.{sink_of};

use crate::asked::{no_memory, put_text, write_report};
use crate::status::Status;
use explain_profile_call::tell_profile;
use explain_words::ProfileWords;
use raml_io::{Sink, Store};
use std::alloc::{AllocError, Global};

/// Tells on `out` how often lines of a program are run at most, and on `err` what is wrong.
pub(crate) fn profile<S: Store, O: Sink, E: Sink>(
    alloc: Global,
    words: &ProfileWords<'_>,
    store: &mut S,
    out: &mut O,
    err: &mut E,
) -> Status
    requires { IsDegree words.now.degree }
    ensures told { IsProfileTold (store_of (S.holds store.old) (S.faults store.old) (S.faults store.new)) words.now
        (sink_of (O.faults out.old) (O.faults out.new) (O.written out.old) (O.written out.new))
        (sink_of (E.faults err.old) (E.faults err.new) (E.written err.old) (E.written err.new)) result }
    ensures kept { S.holds store.new ≡ S.holds store.old }
    ensures later { (name : Text) → S.faults store.old name ≤ S.faults store.new name }
{
    let mut text = String::new(alloc);
    let mut report = String::new(alloc);
    match tell_profile(alloc, store, words, &mut text, &mut report) {
        Ok(end) => {
            write_report(err, &report);
            put_text(out, &text, Status::from(end))
        }
        Err(AllocError) => no_memory(err),
    }
}
