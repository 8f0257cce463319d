// Declared bounds from the bytes of a file.
ghost use Rattle.std.specs.Prelude.{◌≡◌, ◌≤◌, ◌<◌, ◌^◌, ◌++◌, length, IfOk, IfSome, OnOk, string_bytes};
ghost use Rattle.raml_syntax.specs.Tree.{Text};
ghost use Rattle.raml_syntax.specs.Read.{program_of};
ghost use Rattle.bound_file.specs.Answers.{FirstFault};
ghost use Rattle.explain_check.specs.Checks.{fault_head};
ghost use Rattle.explain_declared.specs.Places.{place_of};
ghost use Rattle.explain_declared.specs.Told.{BytesGive};

use crate::message::message;
use crate::place::{line_at, line_start, place_in_line};
use bound_file::{DeclError, DeclFault, Declared, LineFault, read};
use explain_check::push_fault;
use raml_syntax::Program;
use std::alloc::{AllocError, Global};

/// What is said of bytes that are not UTF-8.
const NOT_UTF8: &str = "not UTF-8: no character begins here";

/// The bounds that the bytes of the file of this name declare of a program, at a degree. Where they declare none, their
/// first fault is appended to the report.
pub fn declared_in(
    alloc: Global,
    name: &str,
    bytes: &[u8],
    program: &Program,
    degree: u8,
    report: &mut String,
) -> Result<Option<Declared>, AllocError>
    requires short { length bytes.now < 2 ^ 31 }
    requires few { length (program_of program.now) < 2 ^ 31 }
    ensures told { IfOk result (λ found. (part : Text) × BytesGive (program_of program.now) degree name.now bytes.now found part
        × (string_bytes report.new ≡ string_bytes report.old ++ part)) }
    ensures few { IfOk result (λ found. IfSome found (λ declared. length declared.lines ≤ length bytes.now)) }
{
    match read(alloc, bytes, program, degree) {
        Ok(declared) => Ok(Some(declared)),
        Err(DeclError::Fault(fault)) => {
            push_decl_fault(alloc, name, bytes, fault, program, degree, report)?;
            Ok(None)
        }
        Err(DeclError::NoMemory) => Err(AllocError),
    }
}

// Appends the first fault of the bytes.
fn push_decl_fault(
    alloc: Global,
    name: &str,
    bytes: &[u8],
    fault: DeclFault,
    program: &Program,
    degree: u8,
    report: &mut String,
) -> Result<(), AllocError>
    requires { FirstFault (program_of program.now) degree bytes.now fault }
    ensures { OnOk result ((rest : Text)
        × (string_bytes report.new ≡ string_bytes report.old ++ (fault_head name.now bytes.now (place_of bytes.now fault) ++ rest))) }
{
    let _program = program;
    match fault {
        DeclFault::NotUtf8 { at } => {
            push_fault(alloc, name, bytes, at.0 as usize, NOT_UTF8, report)
        }
        DeclFault::Line { line, fault } => match std::str::from_utf8(bytes) {
            Ok(text) => push_line_fault(alloc, name, text, line, fault, degree, report),
            Err(_) => unreachable!(),
        },
    }
}

// Appends the fault of a line.
fn push_line_fault(
    alloc: Global,
    name: &str,
    text: &str,
    number: u32,
    fault: LineFault,
    degree: u8,
    report: &mut String,
) -> Result<(), AllocError>
    ensures { OnOk result ((rest : Text) × (string_bytes report.new ≡ string_bytes report.old
        ++ (fault_head name.now text.now (place_of text.now (DeclFault.Line number fault)) ++ rest))) }
{
    let line = line_at(text, number);
    let at = line_start(text, number) + place_in_line(line, fault);
    let message = message(alloc, line, fault, degree)?;
    push_fault(alloc, name, text.as_bytes(), at, &message, report)
}
