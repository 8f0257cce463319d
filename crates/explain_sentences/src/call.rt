// Sentences on calls.
ghost use Rattle.std.specs.Prelude.{◌≡◌, ◌++◌, [], ◌∷◌, IfOk, OnOk, string_bytes};
ghost use Rattle.raml_syntax.specs.Read.{program_of};
ghost use Rattle.explain_rounds.specs.Read.{calls_of, plain_call};
ghost use Rattle.explain_rounds.specs.Found.{pairs_of, plain_pair};
ghost use Rattle.explain_sentences.specs.Sentences as s;
ghost use Rattle.explain_sentences.specs.Read.{sentences_of};

use crate::sentence::{Sentence, add_text};
use explain_rounds::{GroupCall, Kind, SamePart};
use raml_syntax::Program;
use report_text::name_at;
use std::alloc::{AllocError, Global};

/// How a call goes down.
fn manner(kind: Kind) -> &'static str
    ensures { result.now ≡ s.manner kind }
{
    match kind {
        Kind::Smaller => ", with a part of what was given",
        Kind::Computed => " with what another call made, which may not be smaller",
        Kind::Stuck => ", and no list or tree gets smaller by that",
    }
}

/// Why a call inside the group is told.
fn why_call(alloc: Global, program: &Program, call: GroupCall) -> Result<String, AllocError>
    ensures { IfOk result (λ why. string_bytes why ≡ s.why_call (program_of program.now) (plain_call call)) }
{
    let callee = name_at(program, call.callee);
    let manner = manner(call.kind);
    format!(in alloc; "`{callee}` is called here{manner}")
}

/// Adds the sentence on a call inside the group.
fn add_call(
    alloc: Global,
    sentences: &mut Vec<Sentence>,
    program: &Program,
    call: GroupCall,
) -> Result<(), AllocError>
    ensures { OnOk result (sentences_of sentences.new.items
        ≡ sentences_of sentences.old.items ++ s.of_calls (program_of program.now) (plain_call call ∷ [])) }
{
    let text = why_call(alloc, program, call)?;
    sentences.push(Sentence { at: call.at, text })?;
    Ok(())
}

/// Adds those on calls.
pub(crate) fn add_calls(
    alloc: Global,
    sentences: &mut Vec<Sentence>,
    program: &Program,
    calls: &[GroupCall],
) -> Result<(), AllocError>
    ensures { OnOk result (sentences_of sentences.new.items
        ≡ sentences_of sentences.old.items ++ s.of_calls (program_of program.now) (calls_of calls.now)) }
{
    match calls {
        [] => Ok(()),
        [call, rest @ ..] => {
            add_call(alloc, sentences, program, *call)?;
            add_calls(alloc, sentences, program, rest)
        }
    }
}

/// Adds the sentences on two calls that get the same part.
fn add_pair(alloc: Global, sentences: &mut Vec<Sentence>, pair: SamePart) -> Result<(), AllocError>
    ensures { OnOk result (sentences_of sentences.new.items
        ≡ sentences_of sentences.old.items ++ s.of_pair (plain_pair pair)) }
{
    let first = "this is one of two calls that both happen and get the same part";
    add_text(alloc, sentences, pair.first, first)?;
    let second = "this is the other one of the two";
    add_text(alloc, sentences, pair.second, second)
}

/// Adds those on pairs of calls.
pub(crate) fn add_pairs(
    alloc: Global,
    sentences: &mut Vec<Sentence>,
    pairs: &[SamePart],
) -> Result<(), AllocError>
    ensures { OnOk result (sentences_of sentences.new.items
        ≡ sentences_of sentences.old.items ++ s.of_pairs (pairs_of pairs.now)) }
{
    match pairs {
        [] => Ok(()),
        [pair, rest @ ..] => {
            add_pair(alloc, sentences, *pair)?;
            add_pairs(alloc, sentences, rest)
        }
    }
}
