// Messages of sources that spell no program.
ghost use Rattle.std.specs.Prelude.{◌≡◌, IfOk};
ghost use Rattle.explain_messages.specs.Places.{syntax_place};

use crate::around::Around;
use crate::forms::token_hint;
use crate::hint::{Hint, PairHint, SignHint, WordHint};
use crate::message::Message;
use crate::shown::{push_byte, push_character, push_cut, push_word};
use crate::signs::character_hint;
use crate::word::Word;
use raml_lex::LexFault;
use raml_parse::ParseFault;
use std::alloc::{AllocError, Global};

/// What is wrong with a source that spells no program. There is nothing to tell where only memory ran
/// out.
pub fn syntax_message(
    alloc: Global,
    source: &[u8],
    fault: &ParseFault,
) -> Result<Option<Message>, AllocError>
    ensures { IfOk result (λ told. told ≡ syntax_place fault.now) }
{
    let message = match *fault {
        ParseFault::NotUtf8 { at } => not_utf8(alloc, source, at.0 as usize)?,
        ParseFault::Lex(LexFault::BadChar { at }) => bad_character(alloc, source, at.0 as usize)?,
        ParseFault::Lex(LexFault::NumberTooWide { at }) => {
            wide_number(alloc, source, at.0 as usize)?
        }
        ParseFault::Lex(LexFault::OpenComment { at }) => open_comment(alloc, at.0 as usize)?,
        ParseFault::Syntax { at } => bad_token(alloc, source, at.0 as usize)?,
        ParseFault::TooDeep { at } => too_deep(alloc, at.0 as usize)?,
        ParseFault::TooMany { at } => too_many(alloc, source, at.0 as usize)?,
        ParseFault::Lex(LexFault::NoMemory) | ParseFault::NoMemory => return Ok(None),
    };
    Ok(Some(message))
}

fn not_utf8(alloc: Global, source: &[u8], at: usize) -> Result<Message, AllocError>
    ensures { IfOk result (λ message. message ≡ at) }
{
    let mut text = String::from_str(alloc, "not UTF-8: no character begins with the byte ")?;
    push_byte(&mut text, source.get(at).copied().unwrap_or(0))?;
    Ok(Message::new(at, text, None))
}

fn bad_character(alloc: Global, source: &[u8], at: usize) -> Result<Message, AllocError>
    ensures { IfOk result (λ message. message ≡ at) }
{
    let around = Around::of(alloc, source, source.get(..at).unwrap_or(&[]), at)?;
    let mut text = String::from_str(alloc, "syntax error: ")?;
    push_character(&mut text, std::str::from_utf8(around.rest).unwrap_or(""))?;
    text.push_str(" is not in the language")?;
    Ok(Message::new(at, text, character_hint(&around)))
}

fn wide_number(alloc: Global, source: &[u8], at: usize) -> Result<Message, AllocError>
    ensures { IfOk result (λ message. message ≡ at) }
{
    let mut text = String::from_str(alloc, "syntax error: the number ")?;
    push_cut(&mut text, digits(source.get(at..).unwrap_or(&[])))?;
    text.push_str(" is above 9223372036854775807")?;
    Ok(Message::new(at, text, Some(Hint::Word(WordHint::LeastNumber))))
}

// The digits at the front.
fn digits(rest: &[u8]) -> &str {
    let len = rest
        .iter()
        .position(|byte| !byte.is_ascii_digit())
        .unwrap_or(rest.len());
    std::str::from_utf8(rest.get(..len).unwrap_or(&[])).unwrap_or("")
}

fn open_comment(alloc: Global, at: usize) -> Result<Message, AllocError>
    ensures { IfOk result (λ message. message ≡ at) }
{
    let text = String::from_str(
        alloc,
        "syntax error: the comment that begins here has no end",
    )?;
    Ok(Message::new(at, text, Some(Hint::Sign(SignHint::Comment))))
}

fn bad_token(alloc: Global, source: &[u8], at: usize) -> Result<Message, AllocError>
    ensures { IfOk result (λ message. message ≡ at) }
{
    let around = Around::of(alloc, source, source, at)?;
    let mut text = String::from_str(alloc, "syntax error: ")?;
    text.push_str(match around.due {
        Some(need) => need.words(),
        None => "'fun' or the end of the source",
    })?;
    text.push_str(" expected, but ")?;
    push_found(&mut text, around.here)?;
    Ok(Message::new(at, text, token_hint(&around)))
}

// Appends what stands there.
fn push_found(text: &mut String, word: Word) -> Result<(), AllocError> {
    if word.is_missing() {
        return text.push_str("the source ends here");
    }
    text.push_str("this is ")?;
    push_word(text, word)
}

fn too_deep(alloc: Global, at: usize) -> Result<Message, AllocError>
    ensures { IfOk result (λ message. message ≡ at) }
{
    let text = String::from_str(
        alloc,
        "too deep: expressions and types have a height of at most 200",
    )?;
    Ok(Message::new(at, text, None))
}

fn too_many(alloc: Global, source: &[u8], at: usize) -> Result<Message, AllocError>
    ensures { IfOk result (λ message. message ≡ at) }
{
    let around = Around::of(alloc, source, source, at)?;
    let (what, hint) = if around.here.text == "fun" {
        ("a program has at most 256 functions", None)
    } else if around.second_next.text == ":" {
        (
            "a function has at most 8 parameters",
            Some(Hint::Pair(PairHint::Parameters)),
        )
    } else {
        (
            "a call has at most 8 arguments",
            Some(Hint::Pair(PairHint::Parameters)),
        )
    };
    let mut text = String::from_str(alloc, "too many: ")?;
    text.push_str(what)?;
    Ok(Message::new(at, text, hint))
}
