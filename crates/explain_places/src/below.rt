// A caret below a place.
use crate::lines::line_up_to;
use crate::place::characters;
use std::alloc::{AllocError, Global};
use unicode_width::UnicodeWidthStr;

/// The line to print below the line of the offset, with a caret below the byte of the offset: as many
/// spaces as what stands before is wide, where a tab stays a tab. What is not UTF-8 counts one space
/// for each character that begins.
pub fn caret(alloc: Global, text: &[u8], offset: usize) -> Result<String, AllocError> {
    let before = line_up_to(text, offset);
    let mut line = String::new(alloc);
    match std::str::from_utf8(before) {
        Ok(text) => append_blanks(&mut line, text)?,
        Err(_) => append_spaces(&mut line, characters(before))?,
    }
    line.push('^')?;
    Ok(line)
}

// Appends what is as wide as the text.
fn append_blanks(line: &mut String, text: &str) -> Result<(), AllocError> {
    let mut rest = text;
    while let Some((front, behind)) = rest.split_once('\t') {
        append_spaces(line, front.width())?;
        line.push('\t')?;
        rest = behind;
    }
    append_spaces(line, rest.width())
}

// Appends as many spaces.
fn append_spaces(line: &mut String, count: usize) -> Result<(), AllocError> {
    for _ in 0..count {
        line.push(' ')?;
    }
    Ok(())
}
