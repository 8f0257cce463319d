// What `explain profile` tells of a file.
ghost use Rattle.std.specs.Prelude.{◌≡◌, ◌≤◌, ◌++◌, Ok, IfOk, string_bytes};
ghost use Rattle.raml_syntax.specs.Tree.{Text};
ghost use Rattle.raml_syntax.specs.Read.{program_of};
ghost use Rattle.explain_at.specs.Read.{all_given};
ghost use Rattle.explain_calls.specs.declared.end.End.TheVariants as e;
ghost use Rattle.explain_data.specs.Data.{no_function_line};
ghost use Rattle.explain_check.specs.Stores.{store_of};
ghost use Rattle.explain_words.specs.Laws.{IsDegree};
ghost use Rattle.explain_words.specs.Spelled.{lent};
ghost use Rattle.explain_regions.specs.Counter.{IsLexed};
ghost use Rattle.explain_profile.specs.Read.{sizes_in};
ghost use Rattle.explain_profile_call.specs.Calls.{CallIs, EndsBy, FunctionIs, GivenIs, ProgramIs, misfit_line, no_sizes_line};
ghost use Rattle.explain_profile_call.specs.Read.{callee_of};

use explain_at::{Given, SizeFault, WordFault, read, sizes_at};
use explain_calls::End;
use explain_check::{Source, push_error, read_program};
use explain_data::push_no_function;
use explain_profile::{Case, push_profile};
use explain_sizes::Size;
use explain_words::ProfileWords;
use raml_io::Store;
use raml_syntax::{Fun, FunId};
use std::alloc::{AllocError, Global};
use std::fmt::Write;

/// Tells how often each line is run at most by a call of a function of the program in a file. What was asked for is
/// appended to `text`, what is wrong to the report.
pub fn tell_profile<S: Store>(
    alloc: Global,
    store: &mut S,
    words: &ProfileWords<'_>,
    text: &mut String,
    report: &mut String,
) -> Result<End, AllocError>
    requires { IsDegree words.now.degree }
    ensures told { IfOk result (λ end. (shown part : Text)
        × CallIs (store_of (S.holds store.old) (S.faults store.old) (S.faults store.new)) words.now end shown part
        × (string_bytes text.new ≡ string_bytes text.old ++ shown)
        × (string_bytes report.new ≡ string_bytes report.old ++ part)) }
    ensures kept { S.holds store.new ≡ S.holds store.old }
    ensures later { (other : Text) → S.faults store.old other ≤ S.faults store.new other }
{
    match read_program(alloc, store, words.file, report)? {
        Some(source) => tell_program(alloc, &source, words, text, report),
        None => Ok(End::Refused),
    }
}

/// Tells it of the program of a source.
fn tell_program(
    alloc: Global,
    source: &Source,
    words: &ProfileWords<'_>,
    text: &mut String,
    report: &mut String,
) -> Result<End, AllocError>
    requires degree { IsDegree words.now.degree }
    requires lexed { IsLexed source.now.bytes.items }
    ensures { IfOk result (λ end. (shown part : Text)
        × ProgramIs source.now.bytes.items (program_of source.now.typed) words.now end shown part
        × (string_bytes text.new ≡ string_bytes text.old ++ shown)
        × (string_bytes report.new ≡ string_bytes report.old ++ part)) }
{
    let program = source.typed.program();
    match program.find(words.function) {
        Some(fun) => match program.funs.get(fun.0 as usize) {
            Some(function) => {
                let callee = Callee {
                    source,
                    words,
                    fun,
                    function,
                };
                tell_function(alloc, callee, text, report)
            }
            None => refuse_function(words, report),
        },
        None => refuse_function(words, report),
    }
}

/// Refuses a call that names no function of the program.
fn refuse_function(words: &ProfileWords<'_>, report: &mut String) -> Result<End, AllocError>
    ensures end { IfOk result (λ end. end ≡ e.Refused) }
    ensures report { IfOk result (λ end. string_bytes report.new
        ≡ string_bytes report.old ++ no_function_line words.now.file.now words.now.function.now) }
{
    push_no_function(words.file, words.function, report)?;
    Ok(End::Refused)
}

/// A function of the program of a source, and the words that ask for its profile.
#[derive(Clone, Copy)]
struct Callee<'a> {
    source: &'a Source,
    words: &'a ProfileWords<'a>,
    fun: FunId,
    function: &'a Fun,
}

/// Tells it of a function, at sizes where words for them stand.
fn tell_function(
    alloc: Global,
    callee: Callee<'_>,
    text: &mut String,
    report: &mut String,
) -> Result<End, AllocError>
    requires degree { IsDegree callee.words.now.degree }
    requires lexed { IsLexed callee.source.now.bytes.items }
    ensures { IfOk result (λ end. (shown part : Text)
        × FunctionIs (callee_of callee.entry) (lent callee.entry.words.now.at) end shown part
        × (string_bytes text.new ≡ string_bytes text.old ++ shown)
        × (string_bytes report.new ≡ string_bytes report.old ++ part)) }
{
    match callee.words.at {
        Some(at) => tell_words(alloc, callee, at, text, report),
        None => tell_at(alloc, callee, None, text, report),
    }
}

/// Tells it at the sizes that words give.
fn tell_words(
    alloc: Global,
    callee: Callee<'_>,
    at: &str,
    text: &mut String,
    report: &mut String,
) -> Result<End, AllocError>
    requires degree { IsDegree callee.words.now.degree }
    requires lexed { IsLexed callee.source.now.bytes.items }
    ensures { IfOk result (λ end. (shown part : Text)
        × FunctionIs (callee_of callee.entry) (Some at.now) end shown part
        × (string_bytes text.new ≡ string_bytes text.old ++ shown)
        × (string_bytes report.new ≡ string_bytes report.old ++ part)) }
{
    match read(alloc, at) {
        Ok(given) => tell_given(alloc, callee, &given, text, report),
        Err(WordFault::NoMemory) => Err(AllocError),
        Err(fault) => refuse_words(&fault, report),
    }
}

/// Refuses words that are no sizes.
fn refuse_words(fault: &WordFault<'_>, report: &mut String) -> Result<End, AllocError>
    ensures end { IfOk result (λ end. end ≡ e.Refused) }
    ensures report { IfOk result (λ end. string_bytes report.new ≡ string_bytes report.old ++ no_sizes_line fault.now) }
{
    write!(report, "error: '--at': {fault}\n")?;
    Ok(End::Refused)
}

/// Tells it at sizes that are given, where they are those of the parameters.
fn tell_given(
    alloc: Global,
    callee: Callee<'_>,
    given: &[Given<'_>],
    text: &mut String,
    report: &mut String,
) -> Result<End, AllocError>
    requires degree { IsDegree callee.words.now.degree }
    requires lexed { IsLexed callee.source.now.bytes.items }
    ensures { IfOk result (λ end. (shown part : Text)
        × GivenIs (callee_of callee.entry) (all_given given.now) end shown part
        × (string_bytes text.new ≡ string_bytes text.old ++ shown)
        × (string_bytes report.new ≡ string_bytes report.old ++ part)) }
{
    match sizes_at(alloc, given, &callee.function.params) {
        Ok(sizes) => tell_at(alloc, callee, Some(&sizes), text, report),
        Err(SizeFault::NoMemory) => Err(AllocError),
        Err(fault) => {
            let name = callee.function.name.text();
            refuse_sizes(alloc, callee.words.file, name, &fault, report)
        }
    }
}

/// Refuses sizes that are not those of the parameters of this function.
fn refuse_sizes(
    alloc: Global,
    file: &str,
    name: &str,
    fault: &SizeFault<'_>,
    report: &mut String,
) -> Result<End, AllocError>
    ensures end { IfOk result (λ end. end ≡ e.Refused) }
    ensures report { IfOk result (λ end. string_bytes report.new
        ≡ string_bytes report.old ++ misfit_line file.now name.now fault.now) }
{
    let why = format!(in alloc; "{name}: {fault}")?;
    push_error(file, &why, report)?;
    Ok(End::Refused)
}

/// Tells it at the sizes of the parameters, where they are given.
fn tell_at(
    alloc: Global,
    callee: Callee<'_>,
    sizes: Option<&[Size]>,
    text: &mut String,
    report: &mut String,
) -> Result<End, AllocError>
    requires degree { IsDegree callee.words.now.degree }
    requires lexed { IsLexed callee.source.now.bytes.items }
    ensures { IfOk result (λ end. (shown part : Text)
        × EndsBy (callee_of callee.entry) (sizes_in sizes.entry) end shown part
        × (string_bytes text.new ≡ string_bytes text.old ++ shown)
        × (string_bytes report.new ≡ string_bytes report.old ++ part)) }
{
    let words = callee.words;
    let case = Case {
        source: &callee.source.bytes,
        name: words.function,
        most: words.degree,
        sizes,
    };
    let program = callee.source.typed.program();
    if push_profile(
        alloc,
        text,
        case,
        program,
        callee.fun,
        callee.function,
        words.at,
    )? {
        Ok(End::Told)
    } else {
        report.push_str(NOT_COUNTED)?;
        Ok(End::NotAnalysed)
    }
}

/// What is told where no line can be counted.
const NOT_COUNTED: &str =
    "explain: no line can be counted, since a limit refuses the analyses: `explain bounds` says which\n";
