// The sentences of a reason.
ghost use Rattle.std.specs.Prelude.{◌≡◌, ◌<◌, ◌^◌, ◌++◌, length, IfOk, OnOk, string_bytes};
ghost use Rattle.raml_syntax.specs.Read.{program_of};
ghost use Rattle.explain_sentences.specs.Sentences as s;
ghost use Rattle.explain_sentences.specs.Read.{sentences_of};
ghost use Rattle.explain_sentences.specs.Reasons.{of_reason};

use crate::call::{add_calls, add_pairs};
use crate::change::{add_exchanged, add_inlined};
use crate::sentence::{Sentence, add_text, begin_of};
use crate::site::add_sites;
use crate::twice::add_uses;
use explain_reasons::{Explained, Reason};
use raml_syntax::{FunId, Program};
use report_text::name_at;
use std::alloc::{AllocError, Global};

/// Adds a sentence at the beginning of a function.
fn add_at_function(
    sentences: &mut Vec<Sentence>,
    program: &Program,
    fun: FunId,
    text: String,
) -> Result<(), AllocError>
    ensures { OnOk result (sentences_of sentences.new.items
        ≡ sentences_of sentences.old.items ++ s.at_function (program_of program.now) fun.0 (string_bytes text)) }
{
    let at = begin_of(program, fun);
    sentences.push(Sentence { at, text })?;
    Ok(())
}

/// Why a function that calls another one without a bound has none.
fn why_waiting(alloc: Global, program: &Program, callee: FunId) -> Result<String, AllocError>
    ensures { IfOk result (λ why. string_bytes why ≡ s.why_waiting (program_of program.now) callee.0) }
{
    let callee = name_at(program, callee);
    format!(in alloc; "it calls `{callee}`, which lacks one; look at that one first")
}

/// Why one that calls another one with a bound of a high degree has none.
fn why_degree(
    alloc: Global,
    program: &Program,
    callee: FunId,
    degree: u8,
) -> Result<String, AllocError>
    ensures { IfOk result (λ why. string_bytes why ≡ s.why_degree (program_of program.now) callee.0 degree) }
{
    let callee = name_at(program, callee);
    format!(in alloc;
        "it calls `{callee}`, whose bound has degree {degree} already, so its own has probably a higher degree than is tried"
    )
}

/// Adds that the function waits for another one.
fn add_waits(
    alloc: Global,
    sentences: &mut Vec<Sentence>,
    program: &Program,
    fun: FunId,
    callee: FunId,
) -> Result<(), AllocError>
    ensures { OnOk result (sentences_of sentences.new.items
        ≡ sentences_of sentences.old.items ++ s.of_waiting (program_of program.now) fun.0 callee.0) }
{
    let why = why_waiting(alloc, program, callee)?;
    add_at_function(sentences, program, fun, why)
}

/// Adds that another function has a bound of a high degree.
fn add_degree(
    alloc: Global,
    sentences: &mut Vec<Sentence>,
    program: &Program,
    fun: FunId,
    callee: FunId,
    degree: u8,
) -> Result<(), AllocError>
    ensures { OnOk result (sentences_of sentences.new.items
        ≡ sentences_of sentences.old.items ++ s.of_degree (program_of program.now) fun.0 callee.0 degree) }
{
    let why = why_degree(alloc, program, callee, degree)?;
    add_at_function(sentences, program, fun, why)
}

/// Adds that no reason was found.
fn add_not_found(
    alloc: Global,
    sentences: &mut Vec<Sentence>,
    program: &Program,
    fun: FunId,
) -> Result<(), AllocError>
    ensures { OnOk result (sentences_of sentences.new.items
        ≡ sentences_of sentences.old.items ++ s.at_function (program_of program.now) fun.0 s.why_not_found) }
{
    add_text(
        alloc,
        sentences,
        begin_of(program, fun),
        "no reason was found; perhaps a value grows from call to call, or is not given back in every case",
    )
}

/// Adds the sentences of a reason of a function.
fn add_reason(
    alloc: Global,
    sentences: &mut Vec<Sentence>,
    program: &Program,
    fun: FunId,
    reason: &Reason<'_>,
) -> Result<(), AllocError>
    requires { length (program_of program.now) < 2 ^ 32 }
    ensures { OnOk result (sentences_of sentences.new.items
        ≡ sentences_of sentences.old.items ++ of_reason (program_of program.now) fun.0 reason.now) }
{
    match reason {
        Reason::Waits { callee, stuck } => {
            add_waits(alloc, sentences, program, fun, *callee)?;
            add_calls(alloc, sentences, program, stuck)
        }
        Reason::Rebuild(rebuilt) => add_sites(alloc, sentences, &rebuilt.sites),
        Reason::Inline(inlined) => add_inlined(alloc, sentences, program, inlined),
        Reason::Exchange(exchanged) => add_exchanged(alloc, sentences, program, exchanged),
        Reason::Stuck { calls, .. } => add_calls(alloc, sentences, program, calls),
        Reason::Twice(pairs) => add_pairs(alloc, sentences, pairs),
        Reason::Computed { calls, .. } => add_calls(alloc, sentences, program, calls),
        Reason::DegreeTooLow { callee, degree } => {
            add_degree(alloc, sentences, program, fun, *callee, *degree)
        }
        Reason::PaidTwice(paid) => add_uses(alloc, sentences, &paid.uses),
        Reason::NotFound => add_not_found(alloc, sentences, program, fun),
    }
}

/// The sentences of a group that has no bound.
pub fn sentences(
    alloc: Global,
    program: &Program,
    explained: &Explained<'_>,
) -> Result<Vec<Sentence>, AllocError>
    requires { length (program_of program.now) < 2 ^ 32 }
    ensures { IfOk result (λ sentences. sentences_of sentences.items
        ≡ of_reason (program_of program.now) explained.now.fun.0 explained.now.reason) }
{
    let mut sentences = Vec::new(alloc);
    add_reason(
        alloc,
        &mut sentences,
        program,
        explained.fun,
        &explained.reason,
    )?;
    Ok(sentences)
}
