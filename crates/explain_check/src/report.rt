// The report of a fault: its place and what is wrong, the line, a caret below the place, and a hint.
ghost use Rattle.std.specs.Prelude.{◌≡◌, ◌++◌, OnOk, string_bytes};
ghost use Rattle.raml_syntax.specs.Tree.{Text};
ghost use Rattle.explain_check.specs.Checks.{fault_head};
ghost use Rattle.explain_check.specs.Stores.{error_line, length_line};

use explain_messages::{Hint, Message};
use explain_places::{Place, caret, line_at};
use std::alloc::{AllocError, Global};
use std::fmt::Write;

/// What stands for a character that can't be shown.
const NOT_SHOWN: char = '\u{fffd}';

/// Appends the report of a fault of the source of this name, with its hint.
pub(crate) fn push_message(
    alloc: Global,
    name: &str,
    source: &[u8],
    message: &Message,
    report: &mut String,
) -> Result<(), AllocError>
    ensures { OnOk result ((rest : Text)
        × (string_bytes report.new ≡ string_bytes report.old ++ (fault_head name.now source.now message.now ++ rest))) }
{
    push_fault(alloc, name, source, message.at(), message.text(), report)?;
    match message.hint() {
        Some(hint) => push_hint(hint, report),
        None => Ok(()),
    }
}

/// Appends what is wrong at a byte of the text of this name: the place, a message of one line, and the line with a caret
/// below the place.
pub fn push_fault(
    alloc: Global,
    name: &str,
    text: &[u8],
    at: usize,
    message: &str,
    report: &mut String,
) -> Result<(), AllocError>
    ensures { OnOk result ((rest : Text)
        × (string_bytes report.new ≡ string_bytes report.old ++ (fault_head name.now text.now at ++ rest))) }
{
    push_told_fault(alloc, name, text, at, message, report)
}

/// The same, where it counts that the message stands behind the place.
pub fn push_told_fault(
    alloc: Global,
    name: &str,
    text: &[u8],
    at: usize,
    message: &str,
    report: &mut String,
) -> Result<(), AllocError>
    ensures { OnOk result ((rest : Text)
        × (string_bytes report.new ≡ string_bytes report.old ++ (fault_head name.now text.now at ++ (message.now ++ rest)))) }
{
    push_head(name, text, at, report)?;
    push_body(alloc, text, at, message, report)
}

/// Appends where the fault stands, as `NAME:LINE:COLUMN: error: `.
fn push_head(name: &str, text: &[u8], at: usize, report: &mut String) -> Result<(), AllocError>
    ensures { OnOk result (string_bytes report.new ≡ string_bytes report.old ++ fault_head name.now text.now at) }
{
    let place = Place::of(text, at);
    write!(report, "{name}:{place}: error: ")
}

/// Appends what is wrong, and the line with a caret below the place.
fn push_body(
    alloc: Global,
    text: &[u8],
    at: usize,
    message: &str,
    report: &mut String,
) -> Result<(), AllocError>
    ensures { OnOk result ((rest : Text) × (string_bytes report.new ≡ string_bytes report.old ++ (message.now ++ rest))) }
{
    report.push_str(message)?;
    report.push('\n')?;
    push_line(line_at(text, at), report)?;
    report.push('\n')?;
    report.push_str(caret(alloc, text, at)?.as_str())?;
    report.push('\n')
}

fn push_hint(hint: Hint, report: &mut String) -> Result<(), AllocError>
    ensures { OnOk result ((rest : Text) × (string_bytes report.new ≡ string_bytes report.old ++ rest)) }
{
    report.push_str("hint: ")?;
    report.push_str(hint.text())?;
    report.push('\n')
}

/// Appends a line of a source, as a terminal can show it.
fn push_line(line: &[u8], report: &mut String) -> Result<(), AllocError>
    ensures { OnOk result ((rest : Text) × (string_bytes report.new ≡ string_bytes report.old ++ rest)) }
{
    match std::str::from_utf8(line) {
        Ok(text) => push_characters(text, report),
        Err(_) => push_bytes(line, report),
    }
}

fn push_characters(text: &str, report: &mut String) -> Result<(), AllocError>
    ensures { OnOk result ((rest : Text) × (string_bytes report.new ≡ string_bytes report.old ++ rest)) }
{
    for c in text.chars() {
        report.push(if c == '\t' || !c.is_control() {
            c
        } else {
            NOT_SHOWN
        })?;
    }
    Ok(())
}

fn push_bytes(line: &[u8], report: &mut String) -> Result<(), AllocError>
    ensures { OnOk result ((rest : Text) × (string_bytes report.new ≡ string_bytes report.old ++ rest)) }
{
    for byte in line {
        report.push(match byte {
            b'\t' | b' '..=b'~' => *byte as char,
            _ => NOT_SHOWN,
        })?;
    }
    Ok(())
}

/// Appends what is wrong with a file as a whole, as `NAME: error: WHY`.
pub fn push_error(name: &str, why: &str, report: &mut String) -> Result<(), AllocError>
    ensures { OnOk result (string_bytes report.new ≡ string_bytes report.old ++ error_line name.now why.now) }
{
    write!(report, "{name}: error: {why}\n")
}

/// Appends that a file is longer than it may be.
pub(crate) fn push_too_long(name: &str, most: u64, report: &mut String) -> Result<(), AllocError>
    ensures { OnOk result (string_bytes report.new ≡ string_bytes report.old ++ length_line name.now most) }
{
    write!(report, "{name}: error: longer than {most} bytes\n")
}
