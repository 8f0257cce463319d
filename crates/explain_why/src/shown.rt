// Sentences at places of a source.
ghost use Rattle.std.specs.Prelude.{◌≡◌, ◌++◌, OnOk, string_bytes};
ghost use Rattle.raml_syntax.specs.Tree.{Text};
ghost use Rattle.explain_sentences.specs.Read.{sentence_of, sentences_of};
ghost use Rattle.explain_why.specs.Shown.{place_head, IsShown, AreShown};

use explain_places::{Place, caret, line_at};
use explain_sentences::Sentence;
use std::alloc::{AllocError, Global};
use std::fmt::Write;

/// What stands for a character that can't be shown.
const NOT_SHOWN: char = '\u{fffd}';

/// Appends sentences, in order, each with its place, the line, and a caret below the place. The first one stands behind the head,
/// and the others behind the next one.
pub(crate) fn push_sentences<'h>(
    alloc: Global,
    text: &mut String,
    name: &str,
    source: &[u8],
    head: &'h str,
    next: &'h str,
    sentences: &[Sentence],
) -> Result<(), AllocError>
    ensures { OnOk result ((part : Text) × AreShown name.now source.now head.now next.now (sentences_of sentences.now) part
        × (string_bytes text.new ≡ string_bytes text.old ++ part)) }
{
    match sentences {
        [] => Ok(()),
        [sentence, rest @ ..] => {
            push_sentence(alloc, text, name, source, head, sentence)?;
            push_sentences(alloc, text, name, source, next, next, rest)
        }
    }
}

fn push_sentence(
    alloc: Global,
    text: &mut String,
    name: &str,
    source: &[u8],
    head: &str,
    sentence: &Sentence,
) -> Result<(), AllocError>
    ensures { OnOk result ((part : Text) × IsShown name.now source.now head.now (sentence_of sentence.now) part
        × (string_bytes text.new ≡ string_bytes text.old ++ part)) }
{
    let at = sentence.at.0 as usize;
    push_place(text, name, source, at)?;
    text.push_str(head)?;
    push_body(alloc, text, source, at, &sentence.text)
}

/// Appends a place, as `NAME:LINE:COLUMN: `.
fn push_place(text: &mut String, name: &str, source: &[u8], at: usize) -> Result<(), AllocError>
    ensures { OnOk result (string_bytes text.new ≡ string_bytes text.old ++ place_head name.now source.now at) }
{
    let place = Place::of(source, at);
    write!(text, "{name}:{place}: ")
}

/// Appends what is said, and the line with a caret below the place.
fn push_body(
    alloc: Global,
    text: &mut String,
    source: &[u8],
    at: usize,
    said: &str,
) -> Result<(), AllocError>
    ensures { OnOk result ((rest : Text) × (string_bytes text.new ≡ string_bytes text.old ++ (said.now ++ rest))) }
{
    text.push_str(said)?;
    text.push('\n')?;
    push_line(line_at(source, at), text)?;
    text.push('\n')?;
    text.push_str(caret(alloc, source, at)?.as_str())?;
    text.push('\n')
}

/// Appends a line of a source, as a terminal can show it.
fn push_line(line: &[u8], text: &mut String) -> Result<(), AllocError>
    ensures { OnOk result ((rest : Text) × (string_bytes text.new ≡ string_bytes text.old ++ rest)) }
{
    match std::str::from_utf8(line) {
        Ok(line) => push_characters(line, text),
        Err(_) => text.push(NOT_SHOWN),
    }
}

fn push_characters(line: &str, text: &mut String) -> Result<(), AllocError>
    ensures { OnOk result ((rest : Text) × (string_bytes text.new ≡ string_bytes text.old ++ rest)) }
{
    for c in line.chars() {
        text.push(if c == '\t' || !c.is_control() {
            c
        } else {
            NOT_SHOWN
        })?;
    }
    Ok(())
}
