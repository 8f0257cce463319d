// Declared bounds from bytes.
ghost use Rattle.std.specs.Prelude.{◌≡◌, ◌<◌, ◌^◌, [], Ok, length, IfOk, IfErr};
ghost use Rattle.std.specs.List.{All};
ghost use Rattle.raml_syntax.specs.Read.{program_of};
ghost use Rattle.bound_file.specs.Read.{lines_of, IsSigned};
ghost use Rattle.bound_file.specs.Answers.{lines_in, is_declared, Spells, AreWithin, FirstFault, HasOneAnswer, OfFault};
ghost use Rattle.raml_syntax.specs.Cut.{cut_at};
ghost use Rattle.bound_file.specs.Reading.{line_added};
ghost use Rattle.bound_file.specs.Lined.{first_of, read_lines, Reads, Leaves, at_line, ItemsOf};

use crate::cut::cut_at;
use crate::declaration::{DeclLine, Declared};
use crate::fault::{DeclError, DeclFault, LineError, LineFault};
use crate::meaning::of_text;
use cost_free::Meter;
use raml_syntax::{FunId, Pos, Program};
use std::alloc::Global;

// Whether one of the lines declares the function on the meter.
fn is_declared(lines: &[DeclLine], fun: FunId, meter: Meter) -> bool
    ensures { result ≡ is_declared (lines_of lines.now) fun.0 meter }
{
    for line in lines {
        if line.fun.0 == fun.0 && line.meter == meter {
            return true;
        }
    }
    false
}

// Adds what a text declares as a line, if nothing has declared it.
fn add_line(
    alloc: Global,
    program: &Program,
    degree: u8,
    lines: &mut Vec<DeclLine>,
    text: &str,
) -> Result<(), LineError>
    requires short { length text.now < 2 ^ 31 }
    requires few { length (program_of program.now) < 2 ^ 31 }
    requires signed { All IsSigned lines.old.items }
    ensures leaves { Leaves result (lines_of lines.new.items)
        (line_added (program_of program.now) degree (lines_of lines.old.items) text.now) }
    ensures signed { All IsSigned lines.new.items }
{
    let line = of_text(alloc, program, degree, text)?;
    if is_declared(lines, line.fun, line.meter) {
        return Err(LineError::Fault(LineFault::Twice));
    }
    lines.push(line)?;
    Ok(())
}

// Why the line of this number is not read.
fn at_line(number: u32, error: LineError) -> DeclError
    ensures { result ≡ at_line number error }
{
    match error {
        LineError::Fault(fault) => DeclError::Fault(DeclFault::Line {
            line: number,
            fault,
        }),
        LineError::NoMemory => DeclError::NoMemory,
    }
}

// The first line of a text, which is not empty, and what stands behind its line feed.
fn first_line<'a>(text: &'a str) -> (&'a str, &'a str)
    ensures cut { (result.0.now, result.1.now) ≡ first_of text.now (cut_at 10 text.now) }
{
    match cut_at(text, '\n') {
        Some(parts) => parts,
        None => (text, ""),
    }
}

// What the lines of a text declare.
fn read_text(
    alloc: Global,
    program: &Program,
    degree: u8,
    text: &str,
) -> Result<Vec<DeclLine>, DeclError>
    requires short { length text.now < 2 ^ 31 }
    requires few { length (program_of program.now) < 2 ^ 31 }
    ensures reads { Reads (ItemsOf result) (read_lines (program_of program.now) degree (Ok []) 0 (lines_in text.now)) }
    ensures signed { IfOk result (λ lines. All IsSigned lines.items) }
{
    let mut lines = Vec::new(alloc);
    let mut rest = text;
    let mut number = 0;
    while !rest.is_empty() {
        let (line, behind) = first_line(rest);
        number += 1;
        match add_line(alloc, program, degree, &mut lines, line) {
            Ok(()) => rest = behind,
            Err(error) => return Err(at_line(number, error)),
        }
    }
    Ok(lines)
}

/// The bounds that the bytes of a file declare of a program's functions, over their indices up to a
/// degree. The bytes are fewer than 2^31, and so are the functions.
///
/// # Errors
///
/// The first fault of the bytes, or want of memory.
pub fn read(
    alloc: Global,
    bytes: &[u8],
    program: &Program,
    degree: u8,
) -> Result<Declared, DeclError>
    requires short { length bytes.now < 2 ^ 31 }
    requires few { length (program_of program.now) < 2 ^ 31 }
    ensures spelled { IfOk result (Spells (program_of program.now) degree bytes.now) }
    ensures within { IfOk result (AreWithin (program_of program.now)) }
    ensures fault { IfErr result (OfFault (FirstFault (program_of program.now) degree bytes.now)) }
    // so each comes exactly where the bytes have that answer, or memory runs out
    ensures one_answer { HasOneAnswer (program_of program.now) degree bytes.now }
{
    match std::str::from_utf8(bytes) {
        Ok(text) => match read_text(alloc, program, degree, text) {
            Ok(lines) => Ok(Declared::new(degree, lines)),
            Err(error) => Err(error),
        },
        Err(error) => Err(DeclError::Fault(DeclFault::NotUtf8 {
            at: Pos(error.valid_up_to() as u32),
        })),
    }
}
