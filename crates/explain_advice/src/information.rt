// What is told of a group of functions without a bound.
ghost use Rattle.std.specs.Prelude.{◌≡◌, map, IfOk, string_bytes};
ghost use Rattle.raml_syntax.specs.Read.{program_of};
ghost use Rattle.explain_sentences.specs.Heads.{first_head, next_head};
ghost use Rattle.explain_sentences.specs.Read.{sentence_of, sentences_of};
ghost use Rattle.explain_sentences.specs.Reasons as r;
ghost use Rattle.explain_advice.specs.Information as i;
ghost use Rattle.explain_advice.specs.Information.{headed, information_in, relations_in, words};

use crate::advised::Advised;
use explain_faults::marked;
use explain_reasons::Explained;
use explain_sentences::{Sentence, closing, first_head, next_head};
use lsp_language::{Diagnostic, Related, Severity, Span};
use raml_syntax::Pos;
use std::alloc::{AllocError, Global};

/// The code of what is told of functions without a bound.
const CODE: &str = "no-bound";

/// A group that has no bound, by what is told at its places.
pub(crate) fn information(
    alloc: Global,
    advised: &Advised<'_>,
    explained: &Explained<'_>,
    first: &Sentence,
    others: &[Sentence],
) -> Result<Diagnostic, AllocError>
    ensures { IfOk result (λ d. information_in d ≡ i.information
        (first_head (program_of advised.now.program.now) advised.now.found.now explained.now.fun.0)
        (next_head (program_of advised.now.program.now) explained.now.fun.0)
        (r.closing explained.now.reason) (sentence_of first.now) (sentences_of others.now)) }
{
    let head = first_head(alloc, advised.program, advised.found, explained.fun)?;
    let next = next_head(alloc, advised.program, explained.fun)?;
    Ok(Diagnostic {
        span: marked_at(advised.source, first.at),
        severity: Severity::Information,
        code: Some(String::from_str(alloc, CODE)?),
        message: message(alloc, &head, &first.text, closing(&explained.reason))?,
        related: related(alloc, advised.source, &next, others)?,
    })
}

/// The token at a place.
fn marked_at(source: &[u8], at: Pos) -> Span
    ensures { result.start ≡ at.0 }
{
    marked(source, at.0 as usize)
}

/// A sentence behind its head, and lines below it, as `explain why` prints them, without the end of the last line.
fn message(alloc: Global, head: &str, said: &str, lines: &str) -> Result<String, AllocError>
    ensures { IfOk result (λ message. string_bytes message ≡ words head.now said.now lines.now) }
{
    let text = format!(in alloc; "{head}{said}\n{lines}")?;
    String::from_str(alloc, text.as_str().trim_end())
}

/// Each of the sentences behind its head, at its place.
fn related(
    alloc: Global,
    source: &[u8],
    head: &str,
    sentences: &[Sentence],
) -> Result<Vec<Related>, AllocError>
    ensures { IfOk result (λ related. relations_in related.items ≡ map (headed head.now) (sentences_of sentences.now)) }
{
    let mut related = Vec::with_capacity(alloc, sentences.len())?;
    for sentence in sentences {
        related.push(related_to(alloc, source, head, sentence)?)?;
    }
    Ok(related)
}

/// A sentence behind its head, at its place.
fn related_to(
    alloc: Global,
    source: &[u8],
    head: &str,
    sentence: &Sentence,
) -> Result<Related, AllocError>
    ensures { IfOk result (λ related. i.relation_in related ≡ headed head.now (sentence_of sentence.now)) }
{
    let said = &sentence.text;
    Ok(Related {
        span: marked_at(source, sentence.at),
        message: format!(in alloc; "{head}{said}")?,
    })
}
