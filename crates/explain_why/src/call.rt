// What `explain why` tells of a file.
ghost use Rattle.std.specs.Prelude.{◌≡◌, ◌≤◌, ◌<◌, ◌^◌, ◌++◌, ℕ, [], length, IfOk, OnOk, string_bytes};
ghost use Rattle.raml_syntax.specs.Tree.{Text};
ghost use Rattle.raml_syntax.specs.Read.{program_of};
ghost use Rattle.explain_check.specs.Checks.{IsProgramOf};
ghost use Rattle.explain_check.specs.Stores.{store_of};
ghost use Rattle.explain_reasons.specs.Explanation.{IsExplanation};
ghost use Rattle.explain_why.specs.Calls as calls;
ghost use Rattle.explain_why.specs.Calls.{CallIs, EndsBy, IsExplained, IsRefusal, ProgramIs};
ghost use Rattle.explain_why.specs.Chosen.{asking_in};
ghost use Rattle.explain_why.specs.Read.{bytes_in, outcome_of};

use crate::change::changed;
use crate::chosen::Asking;
use crate::groups::{Subject, push_why};
use cost_free::Meter;
use explain_calls::{End, is_unanalysed, meter_of};
use explain_check::{Source, read_program};
use explain_data::push_no_function;
use explain_degrees::RefusedDegree;
use explain_reasons::{Explanation, Progress, explain};
use explain_words::{Meter as WordsMeter, WhyWords};
use raml_io::Store;
use raml_syntax::FunId;
use std::alloc::{AllocError, Global};
use std::fmt::Write;

/// How a call ends, and the source that the first change gives by which a group gets its bounds.
#[derive(Drop)]
pub struct Told {
    pub end: End,
    pub changed: Option<Vec<u8>>,
}

impl Told {
    /// A call that is refused.
    fn refused() -> Told
        ensures { (report : Text) → IsRefusal (outcome_of result [] report) report }
    {
        Told {
            end: End::Refused,
            changed: None,
        }
    }
}

/// Tells why functions of the program in a file have no bounds. What was asked for is appended to `text`; what is wrong, and
/// which degrees could not be analysed, to the report. How far it has come is told as it goes on.
pub fn tell_why<S: Store, P: Progress>(
    alloc: Global,
    store: &mut S,
    words: &WhyWords<'_>,
    progress: &mut P,
    text: &mut String,
    report: &mut String,
) -> Result<Told, AllocError>
    ensures told { IfOk result (λ told. (shown part : Text)
        × CallIs (store_of (S.holds store.old) (S.faults store.old) (S.faults store.new)) words.now (outcome_of told shown part)
        × (string_bytes text.new ≡ string_bytes text.old ++ shown)
        × (string_bytes report.new ≡ string_bytes report.old ++ part)) }
    ensures kept { S.holds store.new ≡ S.holds store.old }
    ensures later { (other : Text) → S.faults store.old other ≤ S.faults store.new other }
{
    match read_program(alloc, store, words.file, report)? {
        Some(source) => tell_program(alloc, &source, words, progress, text, report),
        None => Ok(Told::refused()),
    }
}

/// Tells it of the program of a source.
fn tell_program<P: Progress>(
    alloc: Global,
    source: &Source,
    words: &WhyWords<'_>,
    progress: &mut P,
    text: &mut String,
    report: &mut String,
) -> Result<Told, AllocError>
    requires { IsProgramOf source.now.bytes.items (program_of source.now.typed) }
    ensures { IfOk result (λ told. (shown part : Text)
        × ProgramIs source.now.bytes.items (program_of source.now.typed) words.now (outcome_of told shown part)
        × (string_bytes text.new ≡ string_bytes text.old ++ shown)
        × (string_bytes report.new ≡ string_bytes report.old ++ part)) }
{
    let meter = meter_asked(words.meter);
    match words.function {
        None => {
            let asking = Asking { fun: None, meter };
            tell_asked(alloc, source, words, asking, progress, text, report)
        }
        Some(name) => match source.typed.program().find(name) {
            Some(fun) => {
                let asking = Asking {
                    fun: Some(fun),
                    meter,
                };
                tell_asked(alloc, source, words, asking, progress, text, report)
            }
            None => {
                push_no_function(words.file, name, report)?;
                Ok(Told::refused())
            }
        },
    }
}

fn meter_asked(meter: Option<WordsMeter>) -> Option<Meter>
    ensures { result ≡ calls.meter_asked meter }
{
    match meter {
        Some(meter) => Some(meter_of(meter)),
        None => None,
    }
}

/// Tells what is asked about.
fn tell_asked<P: Progress>(
    alloc: Global,
    source: &Source,
    words: &WhyWords<'_>,
    asking: Asking,
    progress: &mut P,
    text: &mut String,
    report: &mut String,
) -> Result<Told, AllocError>
    requires { IsProgramOf source.now.bytes.items (program_of source.now.typed) }
    ensures { IfOk result (λ told. (shown part : Text)
        × IsExplained words.now.file.now source.now.bytes.items (program_of source.now.typed) words.now.degree (asking_in asking)
        (outcome_of told shown part)
        × (string_bytes text.new ≡ string_bytes text.old ++ shown)
        × (string_bytes report.new ≡ string_bytes report.old ++ part)) }
{
    let explanation = explain(alloc, &source.bytes, &source.typed, words.degree, progress)?;
    push_refused(report, &explanation.found.refused)?;
    let subject = Subject {
        name: words.file,
        source: &source.bytes,
        program: source.typed.program(),
        asking,
    };
    tell_explained(alloc, subject, &explanation, text)
}

/// Tells why functions have no bounds, unless the analysis of each degree was refused.
fn tell_explained(
    alloc: Global,
    subject: Subject<'_>,
    explanation: &Explanation<'_>,
    text: &mut String,
) -> Result<Told, AllocError>
    requires few { length (program_of subject.program.now) < 2 ^ 32 }
    requires is { (degree : ℕ) × IsExplanation subject.source.now (program_of subject.program.now) degree explanation.now }
    ensures { IfOk result (λ told. (shown : Text)
        × EndsBy subject.entry.name.now subject.entry.source.now (program_of subject.entry.program.now) (asking_in subject.entry.asking)
        explanation.now told.end (bytes_in told.changed) shown
        × (string_bytes text.new ≡ string_bytes text.old ++ shown)) }
{
    if is_unanalysed(&explanation.found.functions) {
        return Ok(Told {
            end: End::NotAnalysed,
            changed: None,
        });
    }
    push_why(alloc, text, subject, explanation)?;
    Ok(Told {
        end: End::Told,
        changed: changed(alloc, subject, explanation)?,
    })
}

/// Appends that a degree could not be analysed.
fn push_refused_degree(report: &mut String, degree: u8) -> Result<(), AllocError>
    ensures { OnOk result (string_bytes report.new ≡ string_bytes report.old ++ calls.degree_line degree) }
{
    write!(
        report,
        "explain: degree {degree} is refused: `explain bounds` says why\n"
    )
}

/// Appends which degrees could not be analysed.
fn push_refused(report: &mut String, refused: &[RefusedDegree]) -> Result<(), AllocError>
    ensures { OnOk result (string_bytes report.new ≡ string_bytes report.old ++ calls.refused_lines refused.now) }
{
    match refused {
        [] => Ok(()),
        [first, rest @ ..] => {
            push_refused_degree(report, first.degree)?;
            push_refused(report, rest)
        }
    }
}
