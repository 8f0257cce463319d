// What `explain bounds` tells of a program.
ghost use Rattle.std.specs.Prelude.{◌≡◌, ◌≤◌, ◌++◌, Ok, IfOk, IfErr, string_bytes};
ghost use Rattle.raml_syntax.specs.Tree.{Text};
ghost use Rattle.raml_syntax.specs.Read.{program_of};
ghost use Rattle.explain_at.specs.Read.{all_given, IsWordFault};
ghost use Rattle.explain_check.specs.Stores.{store_of};
ghost use Rattle.explain_words.specs.Spelled.{lent};
ghost use Rattle.explain_words.specs.Laws.{AreInRange};
ghost use Rattle.explain_calls.specs.Read.{layout_in};
ghost use Rattle.explain_calls.specs.Calls.{CallIs, ProgramIs, layout_of};
ghost use Rattle.explain_calls.specs.Sizes.{given_in};

use crate::analysed::tell_analysed;
use crate::end::End;
use crate::fitting::{asked_of, misfit};
use crate::parts::{Layout, Showing};
use explain_at::{Given, WordFault, read};
use explain_check::{push_error, read_program};
use explain_data::{function_named, push_no_function};
use explain_words::BoundsWords;
use raml_io::Store;
use simple_types::Typed;
use std::alloc::{AllocError, Global};
use std::fmt::Write;

/// Tells the bounds of the functions of a program, each at the least degree at which there is one. What was asked for is
/// appended to `text`, in lines that are broken at the width; what is wrong, and which degrees could not be analysed, to
/// the report.
pub fn tell_bounds<S: Store>(
    alloc: Global,
    store: &mut S,
    words: &BoundsWords<'_>,
    width: Option<u32>,
    text: &mut String,
    report: &mut String,
) -> Result<End, AllocError>
    requires range { AreInRange words.now }
    ensures told { IfOk result (λ end. (shown part : Text)
        × CallIs (store_of (S.holds store.old) (S.faults store.old) (S.faults store.new)) words.now width end shown part
        × (string_bytes text.new ≡ string_bytes text.old ++ shown)
        × (string_bytes report.new ≡ string_bytes report.old ++ part)) }
    ensures kept { S.holds store.new ≡ S.holds store.old }
    ensures later { (other : Text) → S.faults store.old other ≤ S.faults store.new other }
{
    match read_program(alloc, store, words.file, report)? {
        Some(source) => tell_program(alloc, &source.typed, words, width, text, report),
        None => Ok(End::Refused),
    }
}

/// Tells what is asked for of a typed program.
fn tell_program(
    alloc: Global,
    typed: &Typed,
    words: &BoundsWords<'_>,
    width: Option<u32>,
    text: &mut String,
    report: &mut String,
) -> Result<End, AllocError>
    requires range { AreInRange words.now }
    ensures { IfOk result (λ end. (shown part : Text) × ProgramIs (program_of typed.now) words.now width end shown part
        × (string_bytes text.new ≡ string_bytes text.old ++ shown)
        × (string_bytes report.new ≡ string_bytes report.old ++ part)) }
{
    let program = typed.program();
    match words.function {
        Some(name) if function_named(program, name).is_none() => {
            push_no_function(words.file, name, report)?;
            Ok(End::Refused)
        }
        _ => match given_by(alloc, words.at) {
            Ok(given) => tell_at(alloc, typed, words, &given, width, text, report),
            Err(WordFault::NoMemory) => Err(AllocError),
            Err(fault) => {
                write!(report, "error: '--at': {fault}\n")?;
                Ok(End::Refused)
            }
        },
    }
}

/// The sizes that the words behind `--at` give; none where it does not stand.
fn given_by<'a>(alloc: Global, words: Option<&'a str>) -> Result<Vec<Given<'a>>, WordFault<'a>>
    ensures given { IfOk result (λ given. given_in (lent words.entry) ≡ Ok (all_given given.items)) }
    ensures fault { IfErr result (IsWordFault (given_in (lent words.entry))) }
{
    match words {
        Some(words) => read(alloc, words),
        None => Ok(Vec::new(alloc)),
    }
}

/// Tells it with these sizes, where they are those of a function that is asked for.
fn tell_at(
    alloc: Global,
    typed: &Typed,
    words: &BoundsWords<'_>,
    given: &[Given<'_>],
    width: Option<u32>,
    text: &mut String,
    report: &mut String,
) -> Result<End, AllocError>
    requires range { AreInRange words.now }
    requires given { given_in (lent words.now.at) ≡ Ok (all_given given.now) }
    ensures { IfOk result (λ end. (shown part : Text) × ProgramIs (program_of typed.now) words.now width end shown part
        × (string_bytes text.new ≡ string_bytes text.old ++ shown)
        × (string_bytes report.new ≡ string_bytes report.old ++ part)) }
{
    let asked = asked_of(words, given);
    match misfit(alloc, typed.program(), words.function, &asked)? {
        Some(why) => {
            push_error(words.file, &why, report)?;
            Ok(End::Refused)
        }
        None => {
            let layout = layout_of(words.json, width);
            let showing = Showing {
                name: words.function,
                asked,
                layout,
            };
            tell_analysed(alloc, typed, words.degree, &showing, text, report)
        }
    }
}

/// The layout of what is told: objects of JSON, or lines of this width.
fn layout_of(json: bool, width: Option<u32>) -> Layout
    ensures { layout_in result ≡ layout_of json width }
{
    if json {
        Layout::Objects
    } else {
        Layout::Lines { width }
    }
}
