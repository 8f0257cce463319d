// The source in which calls are written out.
ghost use Rattle.std.specs.Prelude.{◌≡◌, IfOk, IfSome};
ghost use Rattle.explain_inline.specs.Texts.{IsReplaced, with_stretch};

use crate::how::How;
use crate::numbers::greatest_number;
use crate::stretch::body_stretch;
use call_groups::Groups;
use explain_mending::callees;
use explain_tokens::{Stretch, ending_at, source_tokens, starting};
use explain_written::{unfolded, written_out};
use raml_syntax::{Fun, FunId, Program};
use std::alloc::{AllocError, Global};

/// The greatest number that names may end in.
const MOST_NUMBER: u32 = 1000000;

/// Whether no call of the function leads back to it.
fn is_alone(groups: &Groups, fun: FunId) -> bool {
    if callees(groups, fun).contains(&fun) {
        return false;
    }
    for group in groups.list() {
        if group.contains(&fun) {
            return group.len() == 1;
        }
    }
    false
}

/// The source in which the calls of `callee` are written out in `caller`, and what takes their results apart stands at the
/// ends where these are built. All else of the source is kept, comments and layout too, but for comments in the caller's body.
///
/// None where there are no such calls, where calls of the callee lead back to it, and where the body becomes too large.
pub fn inlined_text(
    alloc: Global,
    source: &[u8],
    program: &Program,
    groups: &Groups,
    caller: FunId,
    callee: FunId,
) -> Result<Option<Vec<u8>>, AllocError>
    ensures { IfOk result (λ text. IfSome text (λ t. IsReplaced source.now t.items)) }
{
    if !is_alone(groups, callee) {
        return Ok(None);
    }
    changed_text(alloc, source, program, groups, How::Inlined, caller, callee)
}

/// The source in which those calls of `callee` are unfolded in `caller` of an argument of which it is known of what it is built, as
/// `x :: l`: its body stands there once, and what takes the argument apart is settled. All else of the source is kept, comments
/// and layout too, but for comments in the caller's body.
///
/// None where there are no such calls, and where the body becomes too large.
pub fn unfolded_text(
    alloc: Global,
    source: &[u8],
    program: &Program,
    groups: &Groups,
    caller: FunId,
    callee: FunId,
) -> Result<Option<Vec<u8>>, AllocError>
    ensures { IfOk result (λ text. IfSome text (λ t. IsReplaced source.now t.items)) }
{
    changed_text(
        alloc,
        source,
        program,
        groups,
        How::Unfolded,
        caller,
        callee,
    )
}

/// The source in which calls of `callee` are changed in `caller`.
fn changed_text(
    alloc: Global,
    source: &[u8],
    program: &Program,
    groups: &Groups,
    how: How,
    caller: FunId,
    callee: FunId,
) -> Result<Option<Vec<u8>>, AllocError>
    ensures { IfOk result (λ text. IfSome text (λ t. IsReplaced source.now t.items)) }
{
    if !callees(groups, caller).contains(&callee) {
        return Ok(None);
    }
    match program.funs.get(caller.0 as usize) {
        Some(caller) => match program.funs.get(callee.0 as usize) {
            Some(callee) => with_new_body(alloc, source, how, caller, callee),
            None => Ok(None),
        },
        None => Ok(None),
    }
}

/// The source with another body of the caller, in which calls of the callee are changed.
fn with_new_body(
    alloc: Global,
    source: &[u8],
    how: How,
    caller: &Fun,
    callee: &Fun,
) -> Result<Option<Vec<u8>>, AllocError>
    ensures { IfOk result (λ text. IfSome text (λ t. IsReplaced source.now t.items)) }
{
    let Some(tokens) = source_tokens(alloc, source)? else {
        return Ok(None);
    };
    let number = greatest_number(source, &tokens);
    if number > MOST_NUMBER {
        return Ok(None);
    }
    match body_stretch(source, &tokens, caller.at) {
        Some(stretch) => match new_body(alloc, how, caller, callee, number)? {
            Some(text) => Ok(Some(with_text(alloc, source, stretch, text.as_bytes())?)),
            None => Ok(None),
        },
        None => Ok(None),
    }
}

/// The body of the caller in which calls of the callee are changed. New names end in numbers above the one given.
fn new_body(
    alloc: Global,
    how: How,
    caller: &Fun,
    callee: &Fun,
    number: u32,
) -> Result<Option<String>, AllocError> {
    match how {
        How::Inlined => written_out(alloc, callee, &caller.body, number),
        How::Unfolded => unfolded(alloc, callee, &caller.body, number),
    }
}

/// The source with another text, on a line of its own, in the place of a stretch.
fn with_text(
    alloc: Global,
    source: &[u8],
    stretch: Stretch,
    text: &[u8],
) -> Result<Vec<u8>, AllocError>
    ensures { IfOk result (λ made. IsReplaced source.now made.items) }
{
    let by = on_its_line(alloc, text)?;
    replaced(alloc, source, stretch, &by)
}

/// A text on a line of its own.
fn on_its_line(alloc: Global, text: &[u8]) -> Result<Vec<u8>, AllocError> {
    let mut line = Vec::new(alloc);
    line.extend_from_slice(b"\n  ")?;
    line.extend_from_slice(text)?;
    Ok(line)
}

/// The source with another text in the place of a stretch.
fn replaced(
    alloc: Global,
    source: &[u8],
    stretch: Stretch,
    by: &[u8],
) -> Result<Vec<u8>, AllocError>
    ensures { IfOk result (λ made. made.items ≡ with_stretch source.now stretch.from stretch.to by.now) }
{
    let mut made = Vec::new(alloc);
    made.extend_from_slice(ending_at(source, stretch.from))?;
    made.extend_from_slice(by)?;
    made.extend_from_slice(starting(source, stretch.to))?;
    Ok(made)
}
