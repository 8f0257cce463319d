// Why bytes declare no bounds.
ghost use Rattle.std.specs.Prelude.{◌≡◌, ◌++◌, OnOk, IfOk, string_bytes, decimal};
ghost use Rattle.bound_file.specs.Text.{word_of, fault_text, bounds_line};
ghost use Rattle.bound_file.specs.declared.fault.DeclError.TheVariants.{NoMemory};

use itoa::Buffer;
use raml_syntax::Pos;
use std::alloc::{AllocError, AllocFailed, Global};

/// Why a line declares no bound. The first of these that is so is told.
#[derive(Clone, Copy, PartialEq, Eq, Debug)]
pub enum LineFault {
    /// It is no `NAME METER <= POLY`, or a tuple stands twice in it.
    Shape,
    /// A number is 0, or from 2^127 on.
    Number,
    /// There is no function of that name.
    Unknown,
    /// A tuple is none of the function's parameters up to the degree, or these have more than 2000.
    Index,
    /// A line before this one declares the same function on the same meter.
    Twice,
}

/// Why bytes declare no bounds. Lines are counted from 1.
#[derive(Clone, Copy, PartialEq, Eq, Debug)]
pub enum DeclFault {
    /// No character begins at the byte.
    NotUtf8 { at: Pos },
    /// The line is the first one that declares nothing, or what is declared already.
    Line { line: u32, fault: LineFault },
}

/// Why no bounds are read.
#[derive(Clone, Copy, PartialEq, Eq, Debug)]
pub enum DeclError {
    Fault(DeclFault),
    NoMemory,
}

impl From<AllocError> for DeclError {
    ghost from_gives = { λ _ e. e ≡ NoMemory };

    fn from(_: AllocError) -> Self {
        DeclError::NoMemory
    }
}

impl<T: Drop> From<AllocFailed<T>> for DeclError {
    ghost from_gives = { λ _ e. e ≡ NoMemory };

    fn from(_: AllocFailed<T>) -> Self {
        DeclError::NoMemory
    }
}

/// Why no line is read.
#[derive(Clone, Copy, PartialEq, Eq, Debug)]
pub enum LineError {
    Fault(LineFault),
    NoMemory,
}

impl From<AllocError> for LineError {
    ghost use Rattle.std.specs.Prelude.{◌≡◌};
    ghost use Rattle.bound_file.specs.declared.fault.LineError.TheVariants.{NoMemory};

    ghost from_gives = { λ _ e. e ≡ NoMemory };

    fn from(_: AllocError) -> Self {
        LineError::NoMemory
    }
}

impl<T: Drop> From<AllocFailed<T>> for LineError {
    ghost use Rattle.std.specs.Prelude.{◌≡◌};
    ghost use Rattle.bound_file.specs.declared.fault.LineError.TheVariants.{NoMemory};

    ghost from_gives = { λ _ e. e ≡ NoMemory };

    fn from(_: AllocFailed<T>) -> Self {
        LineError::NoMemory
    }
}

/// The line that tells the fault: `raml: bounds: line 3: shape`.
pub fn fault_line(alloc: Global, fault: DeclFault) -> Result<String, AllocError>
    ensures { IfOk result (λ line. string_bytes line ≡ bounds_line fault) }
{
    let mut line = String::from_str(alloc, "raml: bounds: ")?;
    push_fault(&mut line, fault)?;
    line.push_str("\n")?;
    Ok(line)
}

fn push_fault(text: &mut String, fault: DeclFault) -> Result<(), AllocError>
    ensures { OnOk result (string_bytes text.new ≡ string_bytes text.old ++ fault_text fault) }
{
    match fault {
        DeclFault::NotUtf8 { at } => push_numbered(text, "not utf-8 at ", at.0),
        DeclFault::Line { line, fault } => {
            push_numbered(text, "line ", line)?;
            text.push_str(": ")?;
            text.push_str(word(fault))
        }
    }
}

fn word(fault: LineFault) -> &'static str
    ensures { result.now ≡ word_of fault }
{
    match fault {
        LineFault::Shape => "shape",
        LineFault::Number => "number",
        LineFault::Unknown => "unknown",
        LineFault::Index => "index",
        LineFault::Twice => "twice",
    }
}

// Appends a number behind a word.
fn push_numbered(text: &mut String, before: &str, number: u32) -> Result<(), AllocError>
    ensures { OnOk result (string_bytes text.new ≡ string_bytes text.old ++ (before.now ++ decimal number)) }
{
    text.push_str(before)?;
    text.push_str(Buffer::new().format(number))
}
