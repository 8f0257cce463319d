// The lines of a source and of data that are refused.
ghost use Rattle.std.specs.Prelude.{◌≡◌, ◌++◌, OnOk, IfOk, string_bytes, decimal};
ghost use Rattle.simple_types.specs.Read.{fault_of};
ghost use Rattle.refusal_text.specs.Refusals.{source_line, other_source_line, source_text, data_line, placed, parse_text, data_text};
ghost use Rattle.refusal_text.specs.Refusals.{fault_text};

use crate::source::SourceFault;
use itoa::Buffer;
use raml_lex::LexFault;
use raml_parse::ParseFault;
use raml_syntax::Pos;
use simple_types::{TypeFault, push_shape};
use std::alloc::{AllocError, Global};
use value_text::DataFault;

/// The line of a source that is refused.
pub fn source_line(alloc: Global, fault: &SourceFault) -> Result<String, AllocError>
    ensures { IfOk result (λ line. string_bytes line ≡ source_line fault.now) }
{
    let mut line = String::from_str(alloc, "raml: source: ")?;
    push_source_fault(&mut line, fault)?;
    line.push_str("\n")?;
    Ok(line)
}

/// The line of the source of a program to compare with, where it is refused.
pub fn other_source_line(alloc: Global, fault: &SourceFault) -> Result<String, AllocError>
    ensures { IfOk result (λ line. string_bytes line ≡ other_source_line fault.now) }
{
    let mut line = String::from_str(alloc, "raml: other source: ")?;
    push_source_fault(&mut line, fault)?;
    line.push_str("\n")?;
    Ok(line)
}

// Appends the first fault of a source.
fn push_source_fault(line: &mut String, fault: &SourceFault) -> Result<(), AllocError>
    ensures { OnOk result (string_bytes line.new ≡ string_bytes line.old ++ source_text fault.now) }
{
    match fault {
        SourceFault::Parse(fault) => push_parse_fault(line, *fault),
        SourceFault::Type(fault) => push_type_fault(line, fault),
    }
}

/// The line of data that is refused.
pub fn data_line(alloc: Global, fault: DataFault) -> Result<String, AllocError>
    ensures { IfOk result (λ line. string_bytes line ≡ data_line fault) }
{
    let mut line = String::from_str(alloc, "raml: data: ")?;
    push_data_fault(&mut line, fault)?;
    line.push_str("\n")?;
    Ok(line)
}

// Appends the first fault of data.
fn push_data_fault(line: &mut String, fault: DataFault) -> Result<(), AllocError>
    ensures { OnOk result (string_bytes line.new ≡ string_bytes line.old ++ data_text fault) }
{
    match fault {
        DataFault::NotUtf8 { at } => push_placed(line, "not utf-8", at),
        DataFault::Shape { at } => push_placed(line, "shape", at),
        DataFault::TooDeep { at } => push_placed(line, "too deep", at),
        DataFault::TooManyCells => line.push_str("too many cells"),
        DataFault::NoMemory => Ok(()),
    }
}

// Appends the first fault of a text.
fn push_parse_fault(line: &mut String, fault: ParseFault) -> Result<(), AllocError>
    ensures { OnOk result (string_bytes line.new ≡ string_bytes line.old ++ parse_text fault) }
{
    match fault {
        ParseFault::NotUtf8 { at } => push_placed(line, "not utf-8", at),
        ParseFault::Lex(LexFault::BadChar { at }) => push_placed(line, "bad character", at),
        ParseFault::Lex(LexFault::NumberTooWide { at }) => push_placed(line, "number too wide", at),
        ParseFault::Lex(LexFault::OpenComment { at }) => push_placed(line, "open comment", at),
        ParseFault::Syntax { at } => push_placed(line, "syntax", at),
        ParseFault::TooDeep { at } => push_placed(line, "too deep", at),
        ParseFault::TooMany { at } => push_placed(line, "too many", at),
        ParseFault::Lex(LexFault::NoMemory) | ParseFault::NoMemory => Ok(()),
    }
}

// Appends the first fault of the types of a program.
fn push_type_fault(line: &mut String, fault: &TypeFault) -> Result<(), AllocError>
    ensures { OnOk result (string_bytes line.new ≡ string_bytes line.old ++ fault_text (fault_of fault.now)) }
{
    match fault {
        TypeFault::Unknown { at } => push_placed(line, "unknown", *at),
        TypeFault::Twice { at } => push_placed(line, "twice", *at),
        TypeFault::NeedsType { at } => push_placed(line, "needs a type", *at),
        TypeFault::Wanted { at, want, got } => {
            line.push_str("wanted ")?;
            push_shape(line, want)?;
            line.push_str(", got ")?;
            push_shape(line, got)?;
            push_placed(line, "", *at)
        }
        TypeFault::Arity { at, want, got } => {
            push_placed(line, "arity", *at)?;
            line.push_str(": wanted ")?;
            push_number(line, *want)?;
            line.push_str(", got ")?;
            push_number(line, *got)
        }
        TypeFault::NoMemory => Ok(()),
    }
}

// Appends what is wrong, and at which byte.
fn push_placed(line: &mut String, name: &str, at: Pos) -> Result<(), AllocError>
    ensures { OnOk result (string_bytes line.new ≡ string_bytes line.old ++ placed name.now at.0) }
{
    line.push_str(name)?;
    line.push_str(" at ")?;
    push_number(line, at.0)
}

fn push_number(line: &mut String, number: u32) -> Result<(), AllocError>
    ensures { OnOk result (string_bytes line.new ≡ string_bytes line.old ++ decimal number) }
{
    line.push_str(Buffer::new().format(number))
}
