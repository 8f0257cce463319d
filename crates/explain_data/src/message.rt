// Messages of data that spells no arguments.
use crate::here::push_here;
use crate::need::need_behind;
use raml_syntax::Ty;
use std::alloc::{AllocError, Global};
use std::fmt::Write;

/// Says that the byte at the place begins no character.
pub fn not_utf8(alloc: Global, data: &[u8], at: usize) -> Result<String, AllocError> {
    let mut text = String::from_str(alloc, "not UTF-8: no character begins with the byte ")?;
    match data.get(at) {
        Some(byte) => write!(text, "\\x{byte:02x}")?,
        None => text.push_str("there")?,
    }
    Ok(text)
}

/// Says what must come at the place, and what stands there.
pub fn wrong_shape(
    alloc: Global,
    data: &[u8],
    types: &[Ty],
    at: usize,
) -> Result<String, AllocError> {
    let (before, rest) = data.split_at(at.min(data.len()));
    let mut text = String::new(alloc);
    need_behind(alloc, before, types)?.push_to(&mut text)?;
    text.push_str(" wanted, but ")?;
    push_here(&mut text, rest)?;
    Ok(text)
}

/// What is said of a value that is too high.
pub const TOO_DEEP: &str = "too deep: a value has a height of at most 400";
