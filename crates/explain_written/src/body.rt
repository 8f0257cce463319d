// The texts of bodies.
use crate::callee::{Callee, Calls};
use crate::names::Names;
use crate::place::{Place, Rest};
use crate::writer::Writer;
use crate::writing::write_block;
use raml_syntax::{Expr, Fun};
use std::alloc::{AllocError, Global};

/// How many expressions stand in one another at most.
const MOST_DEPTH: u32 = 500;

/// The text of an expression. None where it is too large.
pub fn body_text(alloc: Global, body: &Expr) -> Result<Option<String>, AllocError> {
    text_with(alloc, None, body, 0)
}

/// The text of an expression in which the calls of a function are written out. New names end in numbers above the one given.
/// None where the text is too large.
pub fn written_out(
    alloc: Global,
    callee: &Fun,
    body: &Expr,
    number: u32,
) -> Result<Option<String>, AllocError> {
    let callee = Callee {
        fun: callee,
        calls: Calls::All,
    };
    text_with(alloc, Some(callee), body, number)
}

/// The text of an expression in which calls of a function are unfolded: its body stands for each call with an argument of which it
/// is known of what it is built, as `x :: l`, and what takes that apart is settled. Calls in the body stay calls. New names end in
/// numbers above the one given. None where there is no such call, and where the text is too large.
pub fn unfolded(
    alloc: Global,
    callee: &Fun,
    body: &Expr,
    number: u32,
) -> Result<Option<String>, AllocError> {
    let callee = Callee {
        fun: callee,
        calls: Calls::OfKnown,
    };
    let out = written_with(alloc, Some(callee), body, number);
    let is_unfolded = out.has_new_since(number);
    let text = out.finish()?;
    Ok(if is_unfolded { text } else { None })
}

fn text_with<'a>(
    alloc: Global,
    callee: Option<Callee<'a>>,
    body: &'a Expr,
    number: u32,
) -> Result<Option<String>, AllocError> {
    written_with(alloc, callee, body, number).finish()
}

fn written_with<'a>(
    alloc: Global,
    callee: Option<Callee<'a>>,
    body: &'a Expr,
    number: u32,
) -> Writer {
    let mut out = Writer::new(alloc, number);
    let place = Place {
        callee,
        names: &Names::Empty,
        number: 0,
        rest: Rest::Whole,
        ty: None,
        indent: 2,
        depth: MOST_DEPTH,
    };
    write_block(&mut out, place, body);
    out
}
