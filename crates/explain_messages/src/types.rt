// Messages of programs that are not typed.
ghost use Rattle.std.specs.Prelude.{◌≡◌, IfOk};
ghost use Rattle.explain_messages.specs.Places.{type_place};

use crate::hint::{CaseHint, FormHint, Hint, PairHint, TypeHint};
use crate::message::Message;
use crate::shown::{push_cut, push_word};
use crate::word::{Word, Words};
use itoa::Buffer;
use raml_syntax::Ty;
use simple_types::{Shape, TypeFault, push_shape};
use std::alloc::{AllocError, Global};

/// What is wrong with a source whose program is not typed. There is nothing to tell where only memory
/// ran out.
pub fn type_message(
    alloc: Global,
    source: &[u8],
    fault: &TypeFault,
) -> Result<Option<Message>, AllocError>
    ensures { IfOk result (λ told. told ≡ type_place fault.now) }
{
    let message = match fault {
        TypeFault::Unknown { at } => unknown(alloc, source, at.0 as usize)?,
        TypeFault::Twice { at } => twice(alloc, source, at.0 as usize)?,
        TypeFault::NeedsType { at } => needs_type(alloc, source, at.0 as usize)?,
        TypeFault::Wanted { at, want, got } => wanted(alloc, source, at.0 as usize, want, got)?,
        TypeFault::Arity { at, want, got } => arity(alloc, source, at.0 as usize, *want, *got)?,
        TypeFault::NoMemory => return Ok(None),
    };
    Ok(Some(message))
}

// The token at the place, and the one behind it.
fn two_words(alloc: Global, source: &[u8], at: usize) -> Result<(Word<'_>, Word<'_>), AllocError> {
    let words = Words::of(alloc, source)?;
    let index = words.count_before(at);
    Ok((words.get(index), words.get(index.saturating_add(1))))
}

fn unknown(alloc: Global, source: &[u8], at: usize) -> Result<Message, AllocError>
    ensures { IfOk result (λ message. message ≡ at) }
{
    let (name, next) = two_words(alloc, source, at)?;
    let (what, hint) = if next.text == "(" {
        ("no function is named ", Some(function_hint(name)))
    } else {
        ("no variable is named ", None)
    };
    let mut text = String::from_str(alloc, what)?;
    push_word(&mut text, name)?;
    Ok(Message::new(at, text, hint))
}

// The hint for a function that there is not, by its name.
fn function_hint(name: Word) -> Hint {
    match name.text {
        "fst" | "snd" => Hint::Pair(PairHint::Apart),
        "hd" | "tl" | "head" | "tail" => Hint::Case(CaseHint::Apart),
        _ => Hint::Form(FormHint::Library),
    }
}

fn twice(alloc: Global, source: &[u8], at: usize) -> Result<Message, AllocError>
    ensures { IfOk result (λ message. message ≡ at) }
{
    let (here, next) = two_words(alloc, source, at)?;
    let (name, what) = if here.text == "fun" {
        (next, " is defined twice")
    } else if next.text == ":" {
        (here, " is the name of two parameters")
    } else {
        (here, " stands twice in the pattern")
    };
    let mut text = String::new(alloc);
    push_word(&mut text, name)?;
    text.push_str(what)?;
    Ok(Message::new(at, text, None))
}

fn needs_type(alloc: Global, source: &[u8], at: usize) -> Result<Message, AllocError>
    ensures { IfOk result (λ message. message ≡ at) }
{
    let (empty, _) = two_words(alloc, source, at)?;
    let mut text = String::from_str(alloc, "the type of ")?;
    push_word(&mut text, empty)?;
    text.push_str(" is not known here")?;
    Ok(Message::new(at, text, Some(Hint::Type(TypeHint::Empty))))
}

fn wanted(
    alloc: Global,
    source: &[u8],
    at: usize,
    want: &Shape,
    got: &Shape,
) -> Result<Message, AllocError>
    ensures { IfOk result (λ message. message ≡ at) }
{
    let (_, next) = two_words(alloc, source, at)?;
    let mut text = String::new(alloc);
    push_type(alloc, &mut text, want)?;
    text.push_str(" wanted, but this is ")?;
    push_type(alloc, &mut text, got)?;
    Ok(Message::new(at, text, compared_hint(want, got, next)))
}

// Appends the type, of which a long one is cut.
fn push_type(alloc: Global, text: &mut String, shape: &Shape) -> Result<(), AllocError> {
    let mut whole = String::new(alloc);
    push_shape(&mut whole, shape)?;
    push_cut(text, whole.as_str())
}

// The hint for an operand of one token that is compared, by the token behind it. A truth value may be
// the comparison itself.
fn compared_hint(want: &Shape, got: &Shape, next: Word) -> Option<Hint> {
    let is_compared = matches!(next.text, "=" | "<" | "<=");
    if is_compared && matches!(want, Shape::Is(Ty::Int)) && !matches!(got, Shape::Is(Ty::Bool)) {
        Some(Hint::Type(TypeHint::Numbers))
    } else {
        None
    }
}

fn arity(
    alloc: Global,
    source: &[u8],
    at: usize,
    want: u32,
    got: u32,
) -> Result<Message, AllocError>
    ensures { IfOk result (λ message. message ≡ at) }
{
    let (name, _) = two_words(alloc, source, at)?;
    let mut text = String::new(alloc);
    push_word(&mut text, name)?;
    text.push_str(" takes ")?;
    text.push_str(Buffer::new().format(want))?;
    text.push_str(if want == 1 { " argument" } else { " arguments" })?;
    text.push_str(", and this call has ")?;
    text.push_str(Buffer::new().format(got))?;
    Ok(Message::new(at, text, None))
}
