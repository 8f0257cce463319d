// What `explain plot` draws of a file.
ghost use Rattle.std.specs.Prelude.{◌≡◌, ◌≤◌, ◌++◌, [], length, IfOk, string_bytes};
ghost use Rattle.raml_syntax.specs.Tree.{Text};
ghost use Rattle.raml_syntax.specs.Read.{program_of};
ghost use Rattle.explain_check.specs.Checks.{IsProgramOf};
ghost use Rattle.explain_check.specs.Stores.{store_of};
ghost use Rattle.explain_words.specs.Laws.{IsDegree};
ghost use Rattle.explain_plot.specs.Calls.{CallIs, IsRefusal, ProgramIs};
ghost use Rattle.explain_plot.specs.Files.{AreShort};
ghost use Rattle.explain_plot.specs.Read.{outcome_of};

use crate::files::read_files;
use crate::function::tell_function;
use explain_calls::End;
use explain_check::{Source, read_program};
use explain_data::push_no_function;
use explain_marks::Given;
use explain_words::PlotWords;
use raml_io::Store;
use std::alloc::{AllocError, Global};

/// How a call ends, and the picture, where one is drawn.
#[derive(Drop)]
pub struct Told {
    pub end: End,
    pub picture: Option<String>,
}

impl Told {
    /// A call that is refused.
    pub(crate) fn refused() -> Told
        ensures { (report : Text) → IsRefusal (outcome_of result [] report) report }
    {
        Told {
            end: End::Refused,
            picture: None,
        }
    }
}

/// Draws what runs of a function of the program in a file cost, and the bound above them. The table of these runs is appended
/// to `text`; what is wrong, and what is not drawn, to the report.
pub fn tell_plot<S: Store>(
    alloc: Global,
    store: &mut S,
    words: &PlotWords<'_>,
    text: &mut String,
    report: &mut String,
) -> Result<Told, AllocError>
    requires range { IsDegree words.now.degree }
    ensures told { IfOk result (λ told. (shown part : Text)
        × CallIs (store_of (S.holds store.old) (S.faults store.old) (S.faults store.new)) words.now (outcome_of told shown part)
        × (string_bytes text.new ≡ string_bytes text.old ++ shown)
        × (string_bytes report.new ≡ string_bytes report.old ++ part)) }
    ensures kept { S.holds store.new ≡ S.holds store.old }
    ensures later { (other : Text) → S.faults store.old other ≤ S.faults store.new other }
{
    match read_program(alloc, store, words.file, report)? {
        Some(source) => match read_files(alloc, store, &words.arguments, report)? {
            Some(files) => tell_program(alloc, &source, words, &files, text, report),
            None => Ok(Told::refused()),
        },
        None => Ok(Told::refused()),
    }
}

/// Draws it of the program of a source, where files hold these arguments.
fn tell_program(
    alloc: Global,
    source: &Source,
    words: &PlotWords<'_>,
    files: &[Given<'_>],
    text: &mut String,
    report: &mut String,
) -> Result<Told, AllocError>
    requires program { IsProgramOf source.now.bytes.items (program_of source.now.typed) }
    requires few { length source.now.bytes.items ≤ 1048576 }
    requires short { AreShort files.now }
    requires range { IsDegree words.now.degree }
    ensures { IfOk result (λ told. (shown part : Text)
        × ProgramIs (program_of source.now.typed) words.now files.now (outcome_of told shown part)
        × (string_bytes text.new ≡ string_bytes text.old ++ shown)
        × (string_bytes report.new ≡ string_bytes report.old ++ part)) }
{
    match source.typed.program().find(words.name) {
        Some(fun) => tell_function(alloc, source, fun, words, files, text, report),
        None => {
            push_no_function(words.file, words.name, report)?;
            Ok(Told::refused())
        }
    }
}
